//! The variables of blocks.

ghost use Rattle.std.specs.Prelude.{◌≡◌, ◌++◌, map, OnOk, IfOk};
ghost use Rattle.std.specs.List.{flat_map};
ghost use Rattle.snl_syntax.specs.view.Shown.{shown, held};
ghost use Rattle.snl_syntax.specs.view.Declarations.{declaration_view};
ghost use Rattle.snl_syntax.specs.view.Statements.{statement_view, block_view};
ghost use Rattle.snl_syntax.specs.view.Lists.{statement_list};
ghost use Rattle.snl_names.specs.Chains.{scopes_of};
ghost use Rattle.snl_names.specs.Scopes.{scope_of};
ghost use Rattle.snl_syntax.specs.Definitions.{declaration};
ghost use Rattle.snl_names.specs.Variables as spec;
ghost use Rattle.snl_names.specs.CopyVariables.{variable_view};

use crate::scoping::block_names;
use crate::variables::push_held;
use snl_names::{CopyVariable, Scope, Scopes};
use snl_syntax::{Block, Declaration, Stmt};
use std::alloc::{AllocError, Global};

/// Adds the variables of declarations.
fn push_declarations<'p, 'a>(
    declarations: &'p [Declaration<'a>],
    scopes: &Scopes<'_, 'a>,
    kept: &mut Vec<CopyVariable<'p, 'a>>,
) -> Result<(), AllocError>
    ensures { OnOk result (map variable_view kept.new.items ≡ map variable_view kept.old.items
        ++ flat_map (spec.by_declaration (scopes_of scopes.now))
        (map declaration_view declarations.now)) }
{
    for declared in declarations {
        push_held(declared, scopes, kept)?;
    }
    Ok(())
}

/// Adds the variables of the blocks in a statement.
#[cycle(held)]
fn push_statement<'p, 'a>(
    alloc: Global,
    statement: &'p Stmt<'a>,
    scopes: &Scopes<'_, 'a>,
    kept: &mut Vec<CopyVariable<'p, 'a>>,
) -> Result<(), AllocError>
    ensures { OnOk result (map variable_view kept.new.items ≡ map variable_view kept.old.items
        ++ spec.by_statement (scopes_of scopes.now) (statement_view statement.now)) }
{
    match statement {
        Stmt::Block(block) => push_block(alloc, block, scopes, kept),
        Stmt::If { first, .. } => push_statement(alloc, first, scopes, kept),
        Stmt::IfElse { first, second, .. } => {
            push_statement(alloc, first, scopes, kept)?;
            push_statement(alloc, second, scopes, kept)
        }
        Stmt::While { body, .. } | Stmt::For { body, .. } => {
            push_statement(alloc, body, scopes, kept)
        }
        _ => Ok(()),
    }
}

/// Adds the variables of the blocks in statements.
#[cycle(held)]
fn push_statements<'p, 'a>(
    alloc: Global,
    statements: &'p [Stmt<'a>],
    scopes: &Scopes<'_, 'a>,
    kept: &mut Vec<CopyVariable<'p, 'a>>,
) -> Result<(), AllocError>
    ensures { OnOk result (map variable_view kept.new.items ≡ map variable_view kept.old.items
        ++ spec.by_statements (scopes_of scopes.now) (statement_list
        (map statement_view statements.now))) }
{
    for statement in statements {
        push_statement(alloc, statement, scopes, kept)?;
    }
    Ok(())
}

/// The scope of a block within others.
fn own_scope<'a>(
    alloc: Global,
    block: &Block<'a>,
    outer: &Scopes<'_, 'a>,
) -> Result<Scope<'a>, AllocError>
    ensures { IfOk result (λ scope. scope ≡ scope_of (scopes_of outer.now)
        (map declaration (map declaration_view block.now.declarations.items))) }
{
    let names = block_names(alloc, block.declarations.as_slice(), outer)?;
    Scope::of(alloc, names)
}

/// Adds the variables of a block whose own scope stands innermost, and of the blocks in it.
#[cycle(held)]
fn push_inside<'p, 'a>(
    alloc: Global,
    block: &'p Block<'a>,
    scopes: &Scopes<'_, 'a>,
    kept: &mut Vec<CopyVariable<'p, 'a>>,
) -> Result<(), AllocError>
    ensures { OnOk result (map variable_view kept.new.items ≡ map variable_view kept.old.items
        ++ (flat_map (spec.by_declaration (scopes_of scopes.now))
        (map declaration_view block.now.declarations.items)
        ++ spec.by_statements (scopes_of scopes.now) (statement_list
        (map statement_view block.now.statements.items)))) }
{
    push_declarations(block.declarations.as_slice(), scopes, kept)?;
    push_statements(alloc, block.statements.as_slice(), scopes, kept)
}

/// Adds the variables of a block, and of the blocks in it. Fails only where memory ends.
#[cycle(held)]
pub fn push_block<'p, 'a>(
    alloc: Global,
    block: &'p Block<'a>,
    outer: &Scopes<'_, 'a>,
    kept: &mut Vec<CopyVariable<'p, 'a>>,
) -> Result<(), AllocError>
    ensures { OnOk result (map variable_view kept.new.items ≡ map variable_view kept.old.items
        ++ spec.by_block (scopes_of outer.now) (block_view block.now)) }
{
    let scope = own_scope(alloc, block, outer)?;
    push_inside(alloc, block, &Scopes::Within(&scope, &*outer), kept)
}

/// Adds the variables of a block, if it is there. Fails only where memory ends.
pub fn push_if_there<'p, 'a>(
    alloc: Global,
    block: &'p Option<Box<Block<'a>>>,
    scopes: &Scopes<'_, 'a>,
    kept: &mut Vec<CopyVariable<'p, 'a>>,
) -> Result<(), AllocError>
    ensures { OnOk result (map variable_view kept.new.items ≡ map variable_view kept.old.items
        ++ spec.by_maybe (scopes_of scopes.now) (shown (held block_view) block.now)) }
{
    if let Some(block) = block {
        push_block(alloc, block, scopes, kept)?;
    }
    Ok(())
}
