//! The code of the functions of a program. It stands before that of the pieces, in the order of the source.

ghost use Rattle.std.specs.Prelude.{◌≡◌, ◌++◌, [], length, map, reverse, OnOk, IfOk};
ghost use Rattle.std.specs.List.{flat_map};
ghost use Rattle.snl_syntax.specs.view.Definitions.{definition_view};
ghost use Rattle.snl_syntax.specs.view.Functions.{function_view, parameter_view};
ghost use Rattle.snl_syntax.specs.view.Statements.{block_view};
ghost use Rattle.snl_names.specs.Variables.{function_by};
ghost use Rattle.snl_emit.specs.FunctionCode as spec;
ghost use Rattle.snl_meaning.specs.Known.{entries, here_of, within_view};
ghost use Rattle.snl_flat.specs.Heres as heres;

use crate::laying::add_reversed;
use snl_emit::emit_function;
use snl_meaning::{FunctionEntry, Instr, Known, Places, Sites, Variable, Within};
use snl_resolve::{Numbered, range_of};
use snl_syntax::{Block, Def, Function, Parameter};
use snl_text::Token;
use std::alloc::{AllocError, Global};

/// What each piece and each function of a program knows.
#[derive(Clone, Copy)]
pub struct Common<'s, 'a> {
    /// The sites of the program.
    pub sites: &'s Sites<'s, 'a>,
    /// The names of its functions, in the order of the source.
    pub names: &'s Numbered<'a>,
    /// How many functions there are.
    pub count: usize,
    /// What functions may name.
    pub bodies: &'s Places,
}

/// The names of the functions among definitions, in the order of the source. The only error is that memory ends.
pub fn names_among<'a>(alloc: Global, definitions: &[Def<'a>]) -> Result<Vec<Token<'a>>, AllocError>
    ensures { IfOk result (λ names. names.items
        ≡ map (λ f. f.name) (flat_map function_by (map definition_view definitions.now))) }
{
    let mut names = Vec::new(alloc);
    for definition in definitions {
        if let Def::Function(function) = definition {
            names.push(function.name)?;
        }
    }
    Ok(names)
}

/// The variables of parameters, by what their names mean.
fn parameters_of(
    alloc: Global,
    parameters: &[Parameter],
    places: &Places,
) -> Result<Vec<Variable>, AllocError>
    ensures { IfOk result (λ kept. kept.items
        ≡ flat_map (heres.parameter_variable places.now) (map parameter_view parameters.now)) }
{
    let mut kept = Vec::new(alloc);
    for parameter in parameters {
        if let Some(variable) = places.variable(parameter.name.pos.offset as usize) {
            kept.push(variable)?;
        }
    }
    Ok(kept)
}

/// Where the body of a function stands.
fn within_of(function: &Function) -> Within
    ensures { within_view result ≡ heres.body_of (function_view function.now).type_name }
{
    let range = match function.type_name {
        Some(type_name) => range_of(type_name),
        None => None,
    };
    let (least, greatest) = range.unwrap_or((i64::MIN, i64::MAX));
    Within::Body { least, greatest }
}

/// Adds the code of a body.
fn add_body<'a>(
    alloc: Global,
    body: &Block<'a>,
    known: &Known<'_, 'a>,
    code: &mut Vec<Instr>,
) -> Result<(), AllocError>
    ensures { OnOk result (code.new.items
        ≡ code.old.items ++ spec.body_code (here_of known.now) (block_view body.now)) }
{
    let mut made = Vec::new(alloc);
    emit_function(body, known, &mut made)?;
    add_reversed(code, made.as_slice())
}

/// Adds the code of a function; gives where it begins.
fn lay_function<'a>(
    alloc: Global,
    function: &Function<'a>,
    known: &Known<'_, 'a>,
    code: &mut Vec<Instr>,
) -> Result<FunctionEntry, AllocError>
    ensures start { IfOk result (λ entry. entry.start ≡ length code.old.items) }
    ensures parameters { IfOk result (λ entry. entry.parameters.items
        ≡ flat_map (heres.parameter_variable known.now.variables.now)
        (function_view function.now).parameters.each) }
    ensures code { OnOk result (code.new.items ≡ code.old.items
        ++ spec.body_code (here_of known.now) (function_view function.now).body) }
{
    let each = function.parameters.each.as_slice();
    let parameters = parameters_of(alloc, each, known.variables)?;
    let start = code.len();
    add_body(alloc, &function.body, known, code)?;
    Ok(FunctionEntry { start, parameters })
}

/// Adds the code of the functions among definitions, each below those before it; gives where they begin. Fails only where memory
/// ends.
pub fn lay_functions<'a>(
    alloc: Global,
    definitions: &[Def<'a>],
    common: &Common<'_, 'a>,
    code: &mut Vec<Instr>,
) -> Result<Vec<FunctionEntry>, AllocError>
    requires { common.now.names.now
        ≡ map (λ f. f.name) (flat_map function_by (map definition_view definitions.now)) }
    ensures entries { IfOk result (λ kept. entries kept.items
        ≡ spec.entries_from (length code.old.items) []
        (map (heres.routine_by common.now.sites.now common.now.bodies.now)
        (flat_map function_by (map definition_view definitions.now)))) }
    ensures code { OnOk result (code.new.items ≡ code.old.items ++ spec.functions_code []
        (map (heres.routine_by common.now.sites.now common.now.bodies.now)
        (flat_map function_by (map definition_view definitions.now)))) }
{
    let states = Numbered::empty(alloc);
    let mut kept = Vec::new(alloc);
    for definition in definitions {
        if let Def::Function(function) = definition {
            let known = Known {
                states: &states,
                sites: common.sites,
                variables: common.bodies,
                within: within_of(function),
                functions: common.names,
                above: kept.len(),
            };
            let entry = lay_function(alloc, function, &known, code)?;
            kept.push(entry)?;
        }
    }
    Ok(kept)
}
