//! The sites in functions, and in the definitions of a program.

ghost use Rattle.std.specs.Prelude.{◌≡◌, [], ◌∷◌, ◌++◌, map, false, OnOk, IfOk};
ghost use Rattle.std.specs.List.{flat_map};
ghost use Rattle.snl_syntax.specs.view.Shown.{shown};
ghost use Rattle.snl_syntax.specs.view.Declarations.{type_view};
ghost use Rattle.snl_syntax.specs.view.Definitions.{definition_view};
ghost use Rattle.snl_syntax.specs.view.Functions.{function_view, parameter_view};
ghost use Rattle.snl_syntax.specs.view.Statements.{block_view};
ghost use Rattle.snl_names.specs.Chains.{scopes_of};
ghost use Rattle.snl_resolve.specs.Seen.{sight_of};
ghost use Rattle.snl_names.specs.Programs as spec;
ghost use Rattle.snl_names.specs.Sights.{headings_by, heading_of, parameters_of, with_functions};
ghost use Rattle.snl_names.specs.Sites.{declares, at_type, in_block, maybe};

use crate::declarations::note_type;
use crate::definitions::note_definition;
use crate::sights::{Functions, Sight};
use crate::statements::{Around, note_block};
use snl_names::{
    Declared, Heading, Numbered, Room, Scope, Scopes, Site, Size, builtin_of, pushed, scope_with,
};
use snl_syntax::{Block, Def, Function, Parameter, TypeName};
use snl_text::Token;
use std::alloc::{AllocError, Global};

/// What the parameters of a function declare. Fails only where memory ends.
pub fn parameter_names<'a>(
    alloc: Global,
    parameters: &[Parameter<'a>],
) -> Result<Vec<Declared<'a>>, AllocError>
    ensures { IfOk result (λ v. v.items ≡ parameters_of (map parameter_view parameters.now)) }
{
    let mut names = Vec::new(alloc);
    for parameter in parameters {
        let declared = Declared {
            name: parameter.name,
            size: Some(Size::Scalar),
        };
        pushed(&mut names, declared)?;
    }
    Ok(names)
}

/// Whether a function cannot have a name: a built-in function has it, or one above.
fn is_taken<'a>(functions: &Functions<'a>, name: Token<'a>) -> bool
    ensures { result ≡ spec.is_taken functions.now name.entry }
{
    builtin_of(name.text).is_some() || functions.find(name).is_some()
}

/// Notes a function by its name, and the type of its value where it has one.
fn note_name<'a>(
    functions: &Functions<'a>,
    name: Token<'a>,
    type_name: Option<TypeName<'a>>,
    sites: &mut Vec<Site<'a>>,
) -> Result<(), AllocError>
    ensures { OnOk result (sites.new.items ≡ sites.old.items
        ++ Site.Function name.entry (spec.is_taken functions.now name.entry)
        ∷ maybe spec.in_type (shown type_view type_name.entry)) }
{
    let is_taken = is_taken(functions, name);
    pushed(sites, Site::Function { name, is_taken })?;
    match type_name {
        Some(type_name) => note_type(type_name, sites),
        None => Ok(()),
    }
}

/// Notes the types of parameters.
fn note_types<'a>(parameters: &[Parameter<'a>], sites: &mut Vec<Site<'a>>) -> Result<(), AllocError>
    ensures { OnOk result (sites.new.items ≡ sites.old.items
        ++ map (λ p. at_type p.type_name) (map parameter_view parameters.now)) }
{
    for parameter in parameters {
        note_type(parameter.type_name, sites)?;
    }
    Ok(())
}

/// Notes parameters, their names first; gives the scope that they make.
fn note_parameters<'a>(
    alloc: Global,
    parameters: &[Parameter<'a>],
    sites: &mut Vec<Site<'a>>,
) -> Result<Scope<'a>, AllocError>
    ensures scope { IfOk result (λ scope. scope
        ≡ parameters_of (map parameter_view parameters.now)) }
    ensures sites { OnOk result (sites.new.items ≡ sites.old.items
        ++ (declares [] (parameters_of (map parameter_view parameters.now))
        ++ map (λ p. at_type p.type_name) (map parameter_view parameters.now))) }
{
    let declared = parameter_names(alloc, parameters)?;
    let scope = scope_with(alloc, declared, sites)?;
    note_types(parameters, sites)?;
    Ok(scope)
}

/// Notes the sites in the body of a function, with its parameters in sight; it has a value or not.
fn note_body<'a>(
    alloc: Global,
    body: &Block<'a>,
    has_value: bool,
    sight: &Sight<'_, 'a>,
    sites: &mut Vec<Site<'a>>,
) -> Result<(), AllocError>
    ensures { OnOk result (sites.new.items ≡ sites.old.items
        ++ in_block (Room.Function has_value) [] (sight_of sight.now) false (block_view body.now)) }
{
    let no_states = Numbered::empty(alloc);
    let around = Around {
        room: Room::Function(has_value),
        states: &no_states,
    };
    note_block(alloc, body, &around, sight, false, sites)
}

/// Notes a function, with those above it in sight, and the sites in it.
fn note_function<'a>(
    alloc: Global,
    function: &Function<'a>,
    sight: &Sight<'_, 'a>,
    sites: &mut Vec<Site<'a>>,
) -> Result<(), AllocError>
    ensures { OnOk result (sites.new.items ≡ sites.old.items
        ++ spec.in_function (sight_of sight.now) (function_view function.now)) }
{
    note_name(sight.functions, function.name, function.type_name, sites)?;
    let scope = note_parameters(alloc, function.parameters.each.as_slice(), sites)?;
    let has_value = function.type_name.is_some();
    note_body(
        alloc,
        &function.body,
        has_value,
        &sight.within(&scope),
        sites,
    )
}

/// Notes the sites in a definition of the program, with the functions above it in sight.
fn note_program_part<'a>(
    alloc: Global,
    definition: &Def<'a>,
    sight: &Sight<'_, 'a>,
    sites: &mut Vec<Site<'a>>,
) -> Result<(), AllocError>
    ensures { OnOk result (sites.new.items ≡ sites.old.items
        ++ spec.in_program_part (sight_of sight.now) (definition_view definition.now)) }
{
    match definition {
        Def::Function(function) => note_function(alloc, function, sight, sites),
        _ => note_definition(definition, false, sight, sites),
    }
}

/// What calls see of a function.
fn heading<'a>(function: &Function<'a>) -> Heading<'a>
    ensures { result ≡ heading_of (function_view function.now) }
{
    Heading {
        name: function.name,
        parameters: function.parameters.each.len(),
        has_value: function.type_name.is_some(),
    }
}

/// Adds a definition to functions, if it is one.
fn with_definition<'a>(
    definition: &Def<'a>,
    functions: Functions<'a>,
) -> Result<Functions<'a>, AllocError>
    ensures { IfOk result (λ more. more
        ≡ functions.entry ++ headings_by (definition_view definition.now)) }
{
    match definition {
        Def::Function(function) => functions.with(heading(function)),
        _ => Ok(functions),
    }
}

/// Notes the sites in a definition of the program, with the functions above it in sight; gives
/// these, and with them the definition, if it is one.
fn note_next<'a>(
    alloc: Global,
    definition: &Def<'a>,
    scopes: Scopes<'_, 'a>,
    functions: Functions<'a>,
    sites: &mut Vec<Site<'a>>,
) -> Result<Functions<'a>, AllocError>
    ensures functions { IfOk result (λ more. more
        ≡ functions.entry ++ headings_by (definition_view definition.now)) }
    ensures sites { OnOk result (sites.new.items ≡ sites.old.items
        ++ spec.in_program_part (with_functions (scopes_of scopes.entry) functions.entry)
        (definition_view definition.now)) }
{
    let sight = Sight {
        scopes,
        functions: &functions,
    };
    note_program_part(alloc, definition, &sight, sites)?;
    with_definition(definition, functions)
}

/// Notes the sites in the definitions of a program, within its scope; gives its functions.
/// Fails only where memory ends.
pub fn note_program_parts<'a>(
    alloc: Global,
    definitions: &[Def<'a>],
    scopes: Scopes<'_, 'a>,
    sites: &mut Vec<Site<'a>>,
) -> Result<Functions<'a>, AllocError>
    ensures functions { IfOk result (λ functions. functions
        ≡ flat_map headings_by (map definition_view definitions.now)) }
    ensures sites { OnOk result (sites.new.items ≡ sites.old.items
        ++ spec.in_program_parts (scopes_of scopes.entry) []
        (map definition_view definitions.now)) }
{
    let mut functions = Functions::empty(alloc);
    for definition in definitions {
        functions = note_next(alloc, definition, scopes, functions, sites)?;
    }
    Ok(functions)
}
