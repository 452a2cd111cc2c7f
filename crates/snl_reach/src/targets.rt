//! The names that stand as targets in a state.

ghost use Rattle.std.specs.Prelude.{◌≡◌, ◌++◌, map, OnOk};
ghost use Rattle.std.specs.List.{flat_map};
ghost use Rattle.snl_syntax.specs.view.Lists.{statement_list};
ghost use Rattle.snl_syntax.specs.view.Shown.{shown, held};
ghost use Rattle.snl_syntax.specs.view.Statements.{statement_view, block_view};
ghost use Rattle.snl_syntax.specs.view.Programs.{target_view, clause_view, state_view};
ghost use Rattle.snl_reach.specs.Reach as spec;

use snl_syntax::{Block, Clause, State, Stmt, Target};
use snl_text::Token;
use std::alloc::AllocError;

/// Adds the targets of the state statements in a statement.
#[cycle(targets)]
fn push_statement<'a>(statement: &Stmt<'a>, names: &mut Vec<Token<'a>>) -> Result<(), AllocError>
    ensures { OnOk result (names.new.items ≡ names.old.items
        ++ spec.targets_in_statement (statement_view statement.now)) }
{
    match statement {
        Stmt::Block(block) => push_block(block, names)?,
        Stmt::State { name, .. } => names.push(*name)?,
        Stmt::If { first, .. } => push_statement(first, names)?,
        Stmt::IfElse { first, second, .. } => {
            push_statement(first, names)?;
            push_statement(second, names)?;
        }
        Stmt::While { body, .. } | Stmt::For { body, .. } => push_statement(body, names)?,
        Stmt::Empty
        | Stmt::Expression(_)
        | Stmt::Break(_)
        | Stmt::Continue(_)
        | Stmt::Return { .. } => {}
    }
    Ok(())
}

/// Adds the targets of the state statements in statements.
#[cycle(targets)]
fn push_statements<'a>(
    statements: &[Stmt<'a>],
    names: &mut Vec<Token<'a>>,
) -> Result<(), AllocError>
    ensures { OnOk result (names.new.items ≡ names.old.items
        ++ spec.targets_in_statements (statement_list (map statement_view statements.now))) }
{
    for statement in statements {
        push_statement(statement, names)?;
    }
    Ok(())
}

/// Adds the targets of the state statements in a block.
#[cycle(targets)]
fn push_block<'a>(block: &Block<'a>, names: &mut Vec<Token<'a>>) -> Result<(), AllocError>
    ensures { OnOk result (names.new.items ≡ names.old.items
        ++ spec.targets_in_block (block_view block.now)) }
{
    push_statements(block.statements.as_slice(), names)?;
    Ok(())
}

/// Adds the targets of the state statements in a block, if it is there.
fn push_if_there<'a>(
    block: &Option<Box<Block<'a>>>,
    names: &mut Vec<Token<'a>>,
) -> Result<(), AllocError>
    ensures { OnOk result (names.new.items ≡ names.old.items
        ++ spec.targets_if_there (shown (held block_view) block.now)) }
{
    if let Some(block) = block {
        push_block(block, names)?;
    }
    Ok(())
}

/// Adds the target after a clause's block, if it is a state.
fn push_after<'a>(names: &mut Vec<Token<'a>>, target: Target<'a>) -> Result<(), AllocError>
    ensures { OnOk result (names.new.items ≡ names.old.items
        ++ spec.targets_after (target_view target.entry)) }
{
    if let Target::State(name) = target {
        names.push(name)?;
    }
    Ok(())
}

/// Adds the targets of a clause.
fn push_clause<'a>(clause: &Clause<'a>, names: &mut Vec<Token<'a>>) -> Result<(), AllocError>
    ensures { OnOk result (names.new.items ≡ names.old.items
        ++ spec.targets_in_clause (clause_view clause.now)) }
{
    push_block(&clause.block, names)?;
    push_after(names, clause.target)?;
    Ok(())
}

/// Adds the targets of clauses.
fn push_clauses<'a>(clauses: &[Clause<'a>], names: &mut Vec<Token<'a>>) -> Result<(), AllocError>
    ensures { OnOk result (names.new.items ≡ names.old.items
        ++ flat_map spec.targets_in_clause (map clause_view clauses.now)) }
{
    for clause in clauses {
        push_clause(clause, names)?;
    }
    Ok(())
}

/// Adds the names that stand as targets in a state, in its clauses and in state statements.
/// Fails only where memory ends.
pub fn push_targets<'a>(state: &State<'a>, names: &mut Vec<Token<'a>>) -> Result<(), AllocError>
    ensures { OnOk result (names.new.items ≡ names.old.items
        ++ spec.targets_in_state (state_view state.now)) }
{
    push_if_there(&state.entry, names)?;
    push_clauses(state.clauses.as_slice(), names)?;
    push_if_there(&state.exit, names)?;
    Ok(())
}
