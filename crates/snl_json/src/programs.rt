//! The rows of programs.

ghost use Rattle.std.specs.Prelude.{◌≡◌, map, OnOk};
ghost use Rattle.snl_syntax.specs.view.Programs.{target_view, clause_view, state_view, state_set_view, program_view};
ghost use Rattle.snl_json.specs.Rows.{made, with_list};
ghost use Rattle.snl_json.specs.Programs as spec;

use crate::definitions::put_definitions;
use crate::expressions::put_maybe;
use crate::rows::{
    Part, last, maybe_word, put_empty, put_first, put_four, put_one, put_seven, put_six,
};
use crate::statements::{put_block, put_maybe_block};
use serde_json::Value;
use snl_syntax::{Clause, Program, State, StateSet, Target};
use std::alloc::{AllocError, Global};

/// Puts the row of where a clause leads behind others.
fn put_target<'a>(
    alloc: Global,
    target: Target<'a>,
    rows: &mut Vec<Value>,
) -> Result<(), AllocError>
    ensures { OnOk result (made rows.new.items
        ≡ spec.with_target (target_view target.entry) (made rows.old.items)) }
{
    match target {
        Target::State(name) => put_one(alloc, "to_state", Part::Word(name), rows),
        Target::Exit => put_empty(alloc, "to_exit", rows),
    }
}

/// Puts the rows of a clause behind others.
fn put_clause<'a>(
    alloc: Global,
    clause: &Clause<'a>,
    rows: &mut Vec<Value>,
) -> Result<(), AllocError>
    ensures { OnOk result (made rows.new.items
        ≡ spec.with_clause (clause_view clause.now) (made rows.old.items)) }
{
    let condition = put_maybe(alloc, &clause.condition, rows)?;
    put_block(alloc, &clause.block, rows)?;
    let inside = last(rows.as_slice());
    put_target(alloc, clause.target, rows)?;
    put_four(
        alloc,
        "ClauseTree",
        Part::Word(clause.word),
        condition,
        inside,
        last(rows.as_slice()),
        rows,
    )
}

/// Puts the rows of a state behind others.
fn put_state<'a>(alloc: Global, state: &State<'a>, rows: &mut Vec<Value>) -> Result<(), AllocError>
    ensures { OnOk result (made rows.new.items
        ≡ spec.with_state (state_view state.now) (made rows.old.items)) }
{
    put_definitions(alloc, state.definitions.as_slice(), rows)?;
    let definitions = last(rows.as_slice());
    let entry = put_maybe_block(alloc, &state.entry, rows)?;
    put_clauses(alloc, state.clauses.as_slice(), rows)?;
    let clauses = last(rows.as_slice());
    let exit = put_maybe_block(alloc, &state.exit, rows)?;
    let (word, name) = (Part::Word(state.word), Part::Word(state.name));
    put_six(
        alloc,
        "StateTree",
        word,
        name,
        definitions,
        entry,
        clauses,
        exit,
        rows,
    )
}

/// Puts the rows of a state set behind others.
fn put_state_set<'a>(
    alloc: Global,
    set: &StateSet<'a>,
    rows: &mut Vec<Value>,
) -> Result<(), AllocError>
    ensures { OnOk result (made rows.new.items
        ≡ spec.with_state_set (state_set_view set.now) (made rows.old.items)) }
{
    put_definitions(alloc, set.definitions.as_slice(), rows)?;
    let definitions = last(rows.as_slice());
    put_states(alloc, set.states.as_slice(), rows)?;
    let (word, name) = (Part::Word(set.word), Part::Word(set.name));
    put_four(
        alloc,
        "StateSetTree",
        word,
        name,
        definitions,
        last(rows.as_slice()),
        rows,
    )
}

/// Puts the rows of a program behind others. Fails only where memory ends.
pub fn put_program<'a>(
    alloc: Global,
    program: &Program<'a>,
    rows: &mut Vec<Value>,
) -> Result<(), AllocError>
    ensures { OnOk result (made rows.new.items
        ≡ spec.with_program (program_view program.now) (made rows.old.items)) }
{
    put_definitions(alloc, program.definitions.as_slice(), rows)?;
    let definitions = last(rows.as_slice());
    let entry = put_maybe_block(alloc, &program.entry, rows)?;
    put_state_sets(alloc, program.state_sets.as_slice(), rows)?;
    let sets = last(rows.as_slice());
    let exit = put_maybe_block(alloc, &program.exit, rows)?;
    let (word, name) = (Part::Word(program.word), Part::Word(program.name));
    let macros = maybe_word(program.macros);
    put_seven(
        alloc,
        "ProgramTree",
        word,
        name,
        macros,
        definitions,
        entry,
        sets,
        exit,
        rows,
    )
}

/// Puts the rows of clauses behind others, the last one first.
fn put_clauses<'a>(
    alloc: Global,
    clauses: &[Clause<'a>],
    rows: &mut Vec<Value>,
) -> Result<(), AllocError>
    ensures { OnOk result (made rows.new.items
        ≡ with_list spec.with_clause (map clause_view clauses.now) (made rows.old.items)) }
{
    put_empty(alloc, "nil", rows)?;
    for number in (0..clauses.len()).rev() {
        let others = last(rows.as_slice());
        put_clause(alloc, &clauses[number], rows)?;
        put_first(alloc, others, rows)?;
    }
    Ok(())
}

/// Puts the rows of states behind others, the last one first.
fn put_states<'a>(
    alloc: Global,
    states: &[State<'a>],
    rows: &mut Vec<Value>,
) -> Result<(), AllocError>
    ensures { OnOk result (made rows.new.items
        ≡ with_list spec.with_state (map state_view states.now) (made rows.old.items)) }
{
    put_empty(alloc, "nil", rows)?;
    for number in (0..states.len()).rev() {
        let others = last(rows.as_slice());
        put_state(alloc, &states[number], rows)?;
        put_first(alloc, others, rows)?;
    }
    Ok(())
}

/// Puts the rows of state sets behind others, the last one first.
fn put_state_sets<'a>(
    alloc: Global,
    sets: &[StateSet<'a>],
    rows: &mut Vec<Value>,
) -> Result<(), AllocError>
    ensures { OnOk result (made rows.new.items
        ≡ with_list spec.with_state_set (map state_set_view sets.now) (made rows.old.items)) }
{
    put_empty(alloc, "nil", rows)?;
    for number in (0..sets.len()).rev() {
        let others = last(rows.as_slice());
        put_state_set(alloc, &sets[number], rows)?;
        put_first(alloc, others, rows)?;
    }
    Ok(())
}
