//! The variables of states and state sets, and all that the copy of a state set holds.

ghost use Rattle.std.specs.Prelude.{◌≡◌, ◌++◌, map, slice_get, OnOk, IfOk};
ghost use Rattle.std.specs.List.{flat_map};
ghost use Rattle.snl_syntax.specs.view.Shown.{shown, held};
ghost use Rattle.snl_syntax.specs.view.Statements.{block_view};
ghost use Rattle.snl_syntax.specs.view.Programs.{clause_view, state_view, state_set_view, program_view};
ghost use Rattle.snl_names.specs.Chains.{scopes_of};
ghost use Rattle.snl_names.specs.Variables as spec;
ghost use Rattle.snl_names.specs.CopyVariables.{variable_view};

use crate::block_variables::{push_block, push_if_there};
use crate::variables::push_definitions;
use snl_names::{CopyVariable, Scopes};
use snl_syntax::{Block, Clause, Program, State, StateSet};
use std::alloc::{AllocError, Global};

/// Adds the variables of the blocks of clauses.
fn push_clauses<'p, 'a>(
    alloc: Global,
    clauses: &'p [Clause<'a>],
    scopes: &Scopes<'_, 'a>,
    kept: &mut Vec<CopyVariable<'p, 'a>>,
) -> Result<(), AllocError>
    ensures { OnOk result (map variable_view kept.new.items ≡ map variable_view kept.old.items
        ++ flat_map (spec.by_clause (scopes_of scopes.now)) (map clause_view clauses.now)) }
{
    for clause in clauses {
        push_block(alloc, &clause.block, scopes, kept)?;
    }
    Ok(())
}

/// Adds the variables of the blocks of a state, within its own scope.
fn push_blocks<'p, 'a>(
    alloc: Global,
    entry: &'p Option<Box<Block<'a>>>,
    clauses: &'p [Clause<'a>],
    exit: &'p Option<Box<Block<'a>>>,
    scopes: &Scopes<'_, 'a>,
    kept: &mut Vec<CopyVariable<'p, 'a>>,
) -> Result<(), AllocError>
    ensures { OnOk result (map variable_view kept.new.items ≡ map variable_view kept.old.items
        ++ spec.by_blocks (scopes_of scopes.now) (shown (held block_view) entry.now)
        (map clause_view clauses.now) (shown (held block_view) exit.now)) }
{
    push_if_there(alloc, entry, scopes, kept)?;
    push_clauses(alloc, clauses, scopes, kept)?;
    push_if_there(alloc, exit, scopes, kept)
}

/// Adds the variables of a state.
fn push_state<'p, 'a>(
    alloc: Global,
    state: &'p State<'a>,
    outer: &Scopes<'_, 'a>,
    kept: &mut Vec<CopyVariable<'p, 'a>>,
) -> Result<(), AllocError>
    ensures { OnOk result (map variable_view kept.new.items ≡ map variable_view kept.old.items
        ++ spec.by_state (scopes_of outer.now) (state_view state.now)) }
{
    let scope = push_definitions(alloc, state.definitions.as_slice(), outer, kept)?;
    let clauses = state.clauses.as_slice();
    let scopes = Scopes::Within(&scope, &*outer);
    push_blocks(alloc, &state.entry, clauses, &state.exit, &scopes, kept)
}

/// Adds the variables of states.
fn push_states<'p, 'a>(
    alloc: Global,
    states: &'p [State<'a>],
    outer: &Scopes<'_, 'a>,
    kept: &mut Vec<CopyVariable<'p, 'a>>,
) -> Result<(), AllocError>
    ensures { OnOk result (map variable_view kept.new.items ≡ map variable_view kept.old.items
        ++ flat_map (spec.by_state (scopes_of outer.now)) (map state_view states.now)) }
{
    for state in states {
        push_state(alloc, state, outer, kept)?;
    }
    Ok(())
}

/// Adds the variables of a state set, its states and its blocks.
fn push_set<'p, 'a>(
    alloc: Global,
    set: &'p StateSet<'a>,
    outer: &Scopes<'_, 'a>,
    kept: &mut Vec<CopyVariable<'p, 'a>>,
) -> Result<(), AllocError>
    ensures { OnOk result (map variable_view kept.new.items ≡ map variable_view kept.old.items
        ++ spec.by_state_set (scopes_of outer.now) (state_set_view set.now)) }
{
    let scope = push_definitions(alloc, set.definitions.as_slice(), outer, kept)?;
    push_states(
        alloc,
        set.states.as_slice(),
        &Scopes::Within(&scope, &*outer),
        kept,
    )
}

/// Adds the variables of the state set of a number, if there is one.
fn push_numbered<'p, 'a>(
    alloc: Global,
    sets: &'p [StateSet<'a>],
    outer: &Scopes<'_, 'a>,
    set: usize,
    kept: &mut Vec<CopyVariable<'p, 'a>>,
) -> Result<(), AllocError>
    ensures { OnOk result (map variable_view kept.new.items ≡ map variable_view kept.old.items
        ++ spec.by_numbered (scopes_of outer.now) (slice_get (map state_set_view sets.now) set)) }
{
    if sets.len() <= set {
        return Ok(());
    }
    push_set(alloc, &sets[set], outer, kept)
}

/// Adds the variables of a block of the program, if it is there, for the first state set alone.
fn push_for_first<'p, 'a>(
    alloc: Global,
    block: &'p Option<Box<Block<'a>>>,
    scopes: &Scopes<'_, 'a>,
    set: usize,
    kept: &mut Vec<CopyVariable<'p, 'a>>,
) -> Result<(), AllocError>
    ensures { OnOk result (map variable_view kept.new.items ≡ map variable_view kept.old.items
        ++ spec.for_first set (scopes_of scopes.now) (shown (held block_view) block.now)) }
{
    if set == 0 {
        push_if_there(alloc, block, scopes, kept)?;
    }
    Ok(())
}

/// Adds the variables that the copy of one state set holds beside those of the program's definitions, in
/// the order of the source: its own, and for the first one those of the program's blocks. `scopes` is the
/// program's scope; a number past the last state set adds nothing. The only error is that memory ends.
pub fn push_parts<'p, 'a>(
    alloc: Global,
    entry: &'p Option<Box<Block<'a>>>,
    sets: &'p [StateSet<'a>],
    exit: &'p Option<Box<Block<'a>>>,
    scopes: &Scopes<'_, 'a>,
    set: usize,
    kept: &mut Vec<CopyVariable<'p, 'a>>,
) -> Result<(), AllocError>
    ensures { OnOk result (map variable_view kept.new.items ≡ map variable_view kept.old.items
        ++ spec.by_parts (scopes_of scopes.now) set (shown (held block_view) entry.now)
        (map state_set_view sets.now) (shown (held block_view) exit.now)) }
{
    push_for_first(alloc, entry, scopes, set, kept)?;
    push_numbered(alloc, sets, scopes, set, kept)?;
    push_for_first(alloc, exit, scopes, set, kept)
}

/// Adds the variables of a state set of a program.
fn push_variables<'p, 'a>(
    alloc: Global,
    program: &'p Program<'a>,
    set: usize,
    kept: &mut Vec<CopyVariable<'p, 'a>>,
) -> Result<(), AllocError>
    ensures { OnOk result (map variable_view kept.new.items ≡ map variable_view kept.old.items
        ++ spec.variables_of (program_view program.now) set) }
{
    let outside = Scopes::Outside;
    let scope = push_definitions(alloc, program.definitions.as_slice(), &outside, kept)?;
    let sets = program.state_sets.as_slice();
    let scopes = Scopes::Within(&scope, &outside);
    push_parts(
        alloc,
        &program.entry,
        sets,
        &program.exit,
        &scopes,
        set,
        kept,
    )
}

/// All variables that the copy of the state set of a number holds, from 0 on, in the order of the
/// source. The only error is that memory ends.
pub fn variables_of<'p, 'a>(
    alloc: Global,
    program: &'p Program<'a>,
    set: usize,
) -> Result<Vec<CopyVariable<'p, 'a>>, AllocError>
    ensures { IfOk result (λ held. map variable_view held.items
        ≡ spec.variables_of (program_view program.now) set) }
{
    let mut kept = Vec::new(alloc);
    push_variables(alloc, program, set, &mut kept)?;
    Ok(kept)
}
