//! The sites in clauses and states.

ghost use Rattle.std.specs.Prelude.{◌≡◌, ◌++◌, map, false, true, OnOk};
ghost use Rattle.snl_syntax.specs.view.Shown.{shown, held};
ghost use Rattle.snl_syntax.specs.view.Expressions.{boxed};
ghost use Rattle.snl_syntax.specs.view.Statements.{block_view};
ghost use Rattle.snl_syntax.specs.view.Programs.{target_view, clause_view, state_view};
ghost use Rattle.snl_names.specs.declared.sites.Purpose.{Purpose};
ghost use Rattle.snl_resolve.specs.Seen.{sight_of};
ghost use Rattle.snl_names.specs.Sites.{in_expression, maybe};
ghost use Rattle.snl_names.specs.Programs as spec;

use crate::definitions::note_definitions;
use crate::expressions::note_expression;
use crate::sights::Sight;
use crate::statements::{Around, note_block, note_target};
use snl_names::{Constant, Numbered, Purpose, Room, Site, constant_of, pushed};
use snl_syntax::{Block, Clause, Expr, State, Target};
use std::alloc::{AllocError, Global};

/// Notes the sites in a block outside of clauses, if it is there. Fails only where memory ends.
pub fn note_plain_block<'a>(
    alloc: Global,
    block: &Option<Box<Block<'a>>>,
    sight: &Sight<'_, 'a>,
    states: &Numbered<'a>,
    sites: &mut Vec<Site<'a>>,
) -> Result<(), AllocError>
    ensures { OnOk result (sites.new.items ≡ sites.old.items
        ++ maybe (spec.in_plain_block (sight_of sight.now) states.now)
        (shown (held block_view) block.now)) }
{
    if let Some(block) = block {
        let around = Around {
            room: Room::Elsewhere,
            states,
        };
        note_block(alloc, block, &around, sight, false, sites)?;
    }
    Ok(())
}

/// Notes the sites in the condition of a clause.
fn note_condition<'a>(
    condition: &Option<Box<Expr<'a>>>,
    sight: &Sight<'_, 'a>,
    sites: &mut Vec<Site<'a>>,
) -> Result<(), AllocError>
    ensures { OnOk result (sites.new.items ≡ sites.old.items
        ++ maybe (in_expression true (sight_of sight.now) Purpose.Read)
        (shown boxed condition.now)) }
{
    if let Some(condition) = condition {
        note_expression(condition, true, sight, Purpose::Read, sites)?;
    }
    Ok(())
}

/// Notes where a clause leads.
fn note_end<'a>(
    states: &Numbered<'a>,
    target: Target<'a>,
    sites: &mut Vec<Site<'a>>,
) -> Result<(), AllocError>
    ensures { OnOk result (sites.new.items ≡ sites.old.items
        ++ spec.in_target states.now (target_view target.entry)) }
{
    match target {
        Target::State(name) => note_target(states, name, true, sites),
        _ => Ok(()),
    }
}

/// Whether a clause has no condition, or a constant one that does not fault and is not 0.
fn is_always_true<'a>(clause: &Clause<'a>, sight: &Sight<'_, 'a>) -> bool
    ensures { result ≡ spec.is_always_true (sight_of sight.now) (clause_view clause.now) }
{
    match &clause.condition {
        Some(condition) => match constant_of(condition, &sight.scopes) {
            Constant::Worth(number) => number != 0,
            _ => false,
        },
        None => true,
    }
}

/// Notes the sites in a clause, and whether one before it is always true.
fn note_clause<'a>(
    alloc: Global,
    clause: &Clause<'a>,
    sight: &Sight<'_, 'a>,
    states: &Numbered<'a>,
    is_blocked: bool,
    sites: &mut Vec<Site<'a>>,
) -> Result<(), AllocError>
    ensures { OnOk result (sites.new.items ≡ sites.old.items
        ++ spec.in_clause (sight_of sight.now) states.now is_blocked (clause_view clause.now)) }
{
    let word = clause.word;
    pushed(sites, Site::Clause { word, is_blocked })?;
    note_condition(&clause.condition, sight, sites)?;
    let around = Around {
        room: Room::Clause,
        states,
    };
    note_block(alloc, &clause.block, &around, sight, false, sites)?;
    note_end(states, clause.target, sites)
}

/// Notes the sites in the clauses of a state.
fn note_clauses<'a>(
    alloc: Global,
    clauses: &[Clause<'a>],
    sight: &Sight<'_, 'a>,
    states: &Numbered<'a>,
    sites: &mut Vec<Site<'a>>,
) -> Result<(), AllocError>
    ensures { OnOk result (sites.new.items ≡ sites.old.items
        ++ spec.in_clauses (sight_of sight.now) states.now false (map clause_view clauses.now)) }
{
    let mut is_blocked = false;
    for clause in clauses {
        note_clause(alloc, clause, sight, states, is_blocked, sites)?;
        is_blocked |= is_always_true(clause, sight);
    }
    Ok(())
}

/// Notes the sites in the blocks and the clauses of a state, within its own scope.
fn note_blocks<'a>(
    alloc: Global,
    state: &State<'a>,
    sight: &Sight<'_, 'a>,
    states: &Numbered<'a>,
    sites: &mut Vec<Site<'a>>,
) -> Result<(), AllocError>
    ensures { OnOk result (sites.new.items ≡ sites.old.items
        ++ spec.in_blocks (sight_of sight.now) states.now (shown (held block_view) state.now.entry)
        (map clause_view state.now.clauses.items) (shown (held block_view) state.now.exit)) }
{
    note_plain_block(alloc, &state.entry, sight, states, sites)?;
    note_clauses(alloc, state.clauses.as_slice(), sight, states, sites)?;
    note_plain_block(alloc, &state.exit, sight, states, sites)
}

/// Notes the sites in a state of a state set whose states have these names. Fails only where memory ends.
pub fn note_state<'a>(
    alloc: Global,
    state: &State<'a>,
    outer: &Sight<'_, 'a>,
    states: &Numbered<'a>,
    sites: &mut Vec<Site<'a>>,
) -> Result<(), AllocError>
    ensures { OnOk result (sites.new.items ≡ sites.old.items
        ++ spec.in_state (sight_of outer.now) states.now (state_view state.now)) }
{
    let scope = note_definitions(alloc, state.definitions.as_slice(), true, outer, sites)?;
    note_blocks(alloc, state, &outer.within(&scope), states, sites)
}
