//! The variables that the copy of a state set holds.

ghost use Rattle.std.specs.Prelude.{◌≡◌, ◌++◌, map, OnOk, IfOk};
ghost use Rattle.std.specs.List.{flat_map};
ghost use Rattle.snl_syntax.specs.view.Declarations.{declaration_view, declarator_view, initialiser_view, type_view};
ghost use Rattle.snl_syntax.specs.view.Shown.{shown};
ghost use Rattle.snl_syntax.specs.view.Definitions.{definition_view};
ghost use Rattle.snl_names.specs.Chains.{scopes_of};
ghost use Rattle.snl_names.specs.Scopes as scopes;
ghost use Rattle.snl_names.specs.Variables as spec;
ghost use Rattle.snl_names.specs.CopyVariables as held;
ghost use Rattle.snl_names.specs.CopyVariables.{variable_view};

use crate::definition_scopes::scope_of;
use crate::initialisers::range_of;
use snl_names::{CopyVariable, Scope, Scopes, pushed, size_of};
use snl_syntax::{Declaration, Declarator, Def, Initialiser, TypeName};
use std::alloc::{AllocError, Global};

/// What a variable begins with, if anything is written.
fn begun<'p, 'a>(initial: &'p Option<Initialiser<'a>>) -> Option<&'p Initialiser<'a>>
    ensures { held.begun result ≡ shown initialiser_view initial.now }
{
    match initial {
        Some(initial) => Some(initial),
        None => None,
    }
}

/// The variable of a declared name.
fn held_for<'p, 'a>(
    declarator: &'p Declarator<'a>,
    scopes: &Scopes<'_, 'a>,
    type_name: TypeName<'a>,
) -> CopyVariable<'p, 'a>
    ensures { variable_view result
        ≡ spec.held_for (scopes_of scopes.now) (type_view type_name.entry)
        (declarator_view declarator.now) }
{
    CopyVariable {
        name: declarator.name,
        range: range_of(type_name).unwrap_or((i64::MIN, i64::MAX)),
        size: size_of(declarator.sizes.as_slice(), scopes),
        initial: begun(&declarator.initial),
    }
}

/// Adds the variables of a declaration. Fails only where memory ends.
pub fn push_held<'p, 'a>(
    declared: &'p Declaration<'a>,
    scopes: &Scopes<'_, 'a>,
    kept: &mut Vec<CopyVariable<'p, 'a>>,
) -> Result<(), AllocError>
    ensures { OnOk result (map variable_view kept.new.items ≡ map variable_view kept.old.items
        ++ spec.by_declaration (scopes_of scopes.now) (declaration_view declared.now)) }
{
    for declarator in &declared.names {
        pushed(kept, held_for(declarator, scopes, declared.type_name))?;
    }
    Ok(())
}

/// Adds the variables of a definition.
fn push_definition<'p, 'a>(
    definition: &'p Def<'a>,
    scopes: &Scopes<'_, 'a>,
    kept: &mut Vec<CopyVariable<'p, 'a>>,
) -> Result<(), AllocError>
    ensures { OnOk result (map variable_view kept.new.items ≡ map variable_view kept.old.items
        ++ spec.by_definition (scopes_of scopes.now) (definition_view definition.now)) }
{
    match definition {
        Def::Declaration(declared) => push_held(declared, scopes, kept),
        _ => Ok(()),
    }
}

/// Adds the variables of each of some definitions.
fn push_each<'p, 'a>(
    definitions: &'p [Def<'a>],
    scopes: &Scopes<'_, 'a>,
    kept: &mut Vec<CopyVariable<'p, 'a>>,
) -> Result<(), AllocError>
    ensures { OnOk result (map variable_view kept.new.items ≡ map variable_view kept.old.items
        ++ flat_map (spec.by_definition (scopes_of scopes.now))
        (map definition_view definitions.now)) }
{
    for definition in definitions {
        push_definition(definition, scopes, kept)?;
    }
    Ok(())
}

/// Adds the variables of definitions, in the order of the source; gives the scope that they make within
/// others. The only error is that memory ends.
pub fn push_definitions<'p, 'a>(
    alloc: Global,
    definitions: &'p [Def<'a>],
    outer: &Scopes<'_, 'a>,
    kept: &mut Vec<CopyVariable<'p, 'a>>,
) -> Result<Scope<'a>, AllocError>
    ensures scope { IfOk result (λ scope. scope
        ≡ scopes.scope_of (scopes_of outer.now) (map definition_view definitions.now)) }
    ensures kept { OnOk result (map variable_view kept.new.items ≡ map variable_view kept.old.items
        ++ spec.by_definitions (scopes_of outer.now) (map definition_view definitions.now)) }
{
    let scope = scope_of(alloc, definitions, outer)?;
    push_each(definitions, &Scopes::Within(&scope, outer), kept)?;
    Ok(scope)
}
