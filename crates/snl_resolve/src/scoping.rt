//! The scopes that the declarations of a block make.

ghost use Rattle.std.specs.Prelude.{◌≡◌, [], ◌∷◌, ◌++◌, map, OnOk, IfOk};
ghost use Rattle.std.specs.List.{flat_map};
ghost use Rattle.snl_syntax.specs.view.Declarations.{declaration_view, declarator_view};
ghost use Rattle.snl_syntax.specs.Definitions.{declaration};
ghost use Rattle.snl_names.specs.Chains.{scopes_of};
ghost use Rattle.snl_names.specs.Scopes as spec;
ghost use Rattle.snl_names.specs.Sites.{declares};

use snl_names::{Declared, Scope, Scopes, Site, pushed, scope_with, size_of};
use snl_syntax::{Declaration, Declarator};
use std::alloc::{AllocError, Global};

/// Adds the names of a declaration. Fails only where memory ends.
pub fn push_names<'a>(
    declared: &Declaration<'a>,
    names: &mut Vec<Declared<'a>>,
) -> Result<(), AllocError>
    ensures { OnOk result (names.new.items ≡ names.old.items
        ++ map spec.bare (spec.names_by (declaration (declaration_view declared.now)))) }
{
    for declarator in &declared.names {
        pushed(
            names,
            Declared {
                name: declarator.name,
                size: None,
            },
        )?;
    }
    Ok(())
}

/// A declared name with its size.
fn declared_for<'a>(declarator: &Declarator<'a>, scopes: &Scopes<'_, 'a>) -> Declared<'a>
    ensures { result
        ≡ spec.declared_name (spec.is_hidden (scopes_of scopes.now))
        (declarator_view declarator.now) }
{
    Declared {
        name: declarator.name,
        size: Some(size_of(declarator.sizes.as_slice(), scopes)),
    }
}

/// Adds the names of a declaration with their sizes. Fails only where memory ends.
pub fn push_declared<'a>(
    declared: &Declaration<'a>,
    scopes: &Scopes<'_, 'a>,
    found: &mut Vec<Declared<'a>>,
) -> Result<(), AllocError>
    ensures { OnOk result (found.new.items ≡ found.old.items
        ++ spec.declared_by (spec.is_hidden (scopes_of scopes.now))
        (declaration (declaration_view declared.now))) }
{
    for declarator in &declared.names {
        pushed(found, declared_for(declarator, scopes))?;
    }
    Ok(())
}

/// The names of some declarations.
fn names_of<'a>(
    alloc: Global,
    declarations: &[Declaration<'a>],
) -> Result<Vec<Declared<'a>>, AllocError>
    ensures { IfOk result (λ v. v.items
        ≡ spec.bare_names (map declaration (map declaration_view declarations.now))) }
{
    let mut names = Vec::new(alloc);
    for declared in declarations {
        push_names(declared, &mut names)?;
    }
    Ok(names)
}

/// The names of some declarations with their sizes.
fn declared_of<'a>(
    alloc: Global,
    declarations: &[Declaration<'a>],
    scopes: &Scopes<'_, 'a>,
) -> Result<Vec<Declared<'a>>, AllocError>
    ensures { IfOk result (λ v. v.items
        ≡ flat_map (spec.declared_by (spec.is_hidden (scopes_of scopes.now)))
        (map declaration (map declaration_view declarations.now))) }
{
    let mut found = Vec::new(alloc);
    for declared in declarations {
        push_declared(declared, scopes, &mut found)?;
    }
    Ok(found)
}

/// What a block declares within other scopes. Fails only where memory ends.
pub fn block_names<'a>(
    alloc: Global,
    declarations: &[Declaration<'a>],
    outer: &Scopes<'_, 'a>,
) -> Result<Vec<Declared<'a>>, AllocError>
    ensures { IfOk result (λ v. v.items
        ≡ spec.scope_of (scopes_of outer.now) (map declaration
        (map declaration_view declarations.now))) }
{
    let names = names_of(alloc, declarations)?;
    let names = Scope::of(alloc, names)?;
    declared_of(alloc, declarations, &Scopes::Within(&names, outer))
}

/// The scope of a block within others; notes each declared name. Fails only where memory ends.
pub fn block_scope<'a>(
    alloc: Global,
    declarations: &[Declaration<'a>],
    outer: &Scopes<'_, 'a>,
    sites: &mut Vec<Site<'a>>,
) -> Result<Scope<'a>, AllocError>
    ensures scope { IfOk result (λ scope. scope
        ≡ spec.scope_of (scopes_of outer.now) (map declaration
        (map declaration_view declarations.now))) }
    ensures sites { OnOk result (sites.new.items ≡ sites.old.items
        ++ declares []
        (spec.scope_of (scopes_of outer.now) (map declaration
        (map declaration_view declarations.now)))) }
{
    let declared = block_names(alloc, declarations, outer)?;
    scope_with(alloc, declared, sites)
}
