//! The scopes that the definitions of a program, a state set or a state make.

ghost use Rattle.std.specs.Prelude.{◌≡◌, [], ◌∷◌, ◌++◌, map, OnOk, IfOk};
ghost use Rattle.std.specs.List.{flat_map};
ghost use Rattle.snl_syntax.specs.view.Definitions.{definition_view};
ghost use Rattle.snl_names.specs.Chains.{scopes_of};
ghost use Rattle.snl_names.specs.Scopes as spec;
ghost use Rattle.snl_names.specs.Sites.{declares};

use crate::scoping::{push_declared, push_names};
use snl_names::{Declared, Scope, Scopes, Site, pushed, scope_with};
use snl_syntax::Def;
use snl_text::Token;
use std::alloc::{AllocError, Global};

/// Adds event flags.
fn push_flags<'a>(flags: &[Token<'a>], names: &mut Vec<Declared<'a>>) -> Result<(), AllocError>
    ensures { OnOk result (names.new.items ≡ names.old.items ++ map spec.bare flags.now) }
{
    for flag in flags {
        pushed(
            names,
            Declared {
                name: *flag,
                size: None,
            },
        )?;
    }
    Ok(())
}

/// Adds the names that a definition declares.
fn push_names_by<'a>(definition: &Def<'a>, names: &mut Vec<Declared<'a>>) -> Result<(), AllocError>
    ensures { OnOk result (names.new.items ≡ names.old.items
        ++ map spec.bare (spec.names_by (definition_view definition.now))) }
{
    match definition {
        Def::Declaration(declared) => push_names(declared, names),
        Def::EventFlags(flags) => push_flags(flags.as_slice(), names),
        _ => Ok(()),
    }
}

/// Adds the names that a definition declares, with their sizes.
fn push_declared_by<'a>(
    definition: &Def<'a>,
    scopes: &Scopes<'_, 'a>,
    found: &mut Vec<Declared<'a>>,
) -> Result<(), AllocError>
    ensures { OnOk result (found.new.items ≡ found.old.items
        ++ spec.declared_by (spec.is_hidden (scopes_of scopes.now))
        (definition_view definition.now)) }
{
    match definition {
        Def::Declaration(declared) => push_declared(declared, scopes, found),
        Def::EventFlags(flags) => push_flags(flags.as_slice(), found),
        _ => Ok(()),
    }
}

/// The names that some definitions declare.
fn names_of<'a>(alloc: Global, definitions: &[Def<'a>]) -> Result<Vec<Declared<'a>>, AllocError>
    ensures { IfOk result (λ v. v.items ≡ spec.bare_names (map definition_view definitions.now)) }
{
    let mut names = Vec::new(alloc);
    for definition in definitions {
        push_names_by(definition, &mut names)?;
    }
    Ok(names)
}

/// The names that some definitions declare, with their sizes.
fn declared_of<'a>(
    alloc: Global,
    definitions: &[Def<'a>],
    scopes: &Scopes<'_, 'a>,
) -> Result<Vec<Declared<'a>>, AllocError>
    ensures { IfOk result (λ v. v.items
        ≡ flat_map (spec.declared_by (spec.is_hidden (scopes_of scopes.now)))
        (map definition_view definitions.now)) }
{
    let mut found = Vec::new(alloc);
    for definition in definitions {
        push_declared_by(definition, scopes, &mut found)?;
    }
    Ok(found)
}

/// What definitions declare within other scopes. Fails only where memory ends.
pub fn definition_names<'a>(
    alloc: Global,
    definitions: &[Def<'a>],
    outer: &Scopes<'_, 'a>,
) -> Result<Vec<Declared<'a>>, AllocError>
    ensures { IfOk result (λ v. v.items
        ≡ spec.scope_of (scopes_of outer.now) (map definition_view definitions.now)) }
{
    let names = names_of(alloc, definitions)?;
    let names = Scope::of(alloc, names)?;
    declared_of(alloc, definitions, &Scopes::Within(&names, outer))
}

/// The scope of definitions within others (SNL Reference, "Variable Scope"). The only error is that memory ends.
pub fn scope_of<'a>(
    alloc: Global,
    definitions: &[Def<'a>],
    outer: &Scopes<'_, 'a>,
) -> Result<Scope<'a>, AllocError>
    ensures { IfOk result (λ scope. scope
        ≡ spec.scope_of (scopes_of outer.now) (map definition_view definitions.now)) }
{
    let declared = definition_names(alloc, definitions, outer)?;
    Scope::of(alloc, declared)
}

/// The scope of definitions within others; notes each declared name. Fails only where memory ends.
pub fn definition_scope<'a>(
    alloc: Global,
    definitions: &[Def<'a>],
    outer: &Scopes<'_, 'a>,
    sites: &mut Vec<Site<'a>>,
) -> Result<Scope<'a>, AllocError>
    ensures scope { IfOk result (λ scope. scope
        ≡ spec.scope_of (scopes_of outer.now) (map definition_view definitions.now)) }
    ensures sites { OnOk result (sites.new.items ≡ sites.old.items
        ++ declares [] (spec.scope_of (scopes_of outer.now)
        (map definition_view definitions.now))) }
{
    let declared = definition_names(alloc, definitions, outer)?;
    scope_with(alloc, declared, sites)
}
