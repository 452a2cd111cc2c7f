//! The plan of a program.

ghost use Rattle.std.specs.Prelude.{◌≡◌, ◌+◌, map, slice_get, IfOk};
ghost use Rattle.snl_syntax.specs.view.Definitions.{definition_view};
ghost use Rattle.snl_syntax.specs.view.Programs.{clause_view, program_view, state_view, state_set_view};
ghost use Rattle.snl_syntax.specs.view.Programs as view;
ghost use Rattle.snl_flat.specs.Heres.{here_in};
ghost use Rattle.snl_flat.specs.Starts.{table_of, holds_in};
ghost use Rattle.snl_channels.specs.LinkViews.{link_view};
ghost use Rattle.snl_names.specs.Numbered.{number_of};
ghost use Rattle.snl_load.specs.Meaning as meaning;
ghost use Rattle.snl_load.specs.Places.{channels, flags_in, placed_sets};
ghost use Rattle.snl_load.specs.Plans as spec;
ghost use Rattle.snl_load.specs.Sets.{names_in};
ghost use Rattle.snl_schedule.specs.Plans.{tested_by};

use crate::links::ties_of;
use indexmap::IndexSet;
use snl_channels::Link;
use snl_flat::{Code, Piece, names_in};
use snl_meaning::{Instr, Offsets, Places};
use snl_resolve::{Numbered, sign_in_force};
use snl_schedule::{Again, Blocks, ClausePlan, Destination, Plan, SetPlan, StatePlan};
use snl_syntax::{self as syntax, Clause, Def, Program, State, StateSet};
use snl_vm::{Test, is_empty_at, test_at};
use std::alloc::{AllocError, Global};

/// Where a clause leads, by the names of the states.
fn target_of<'a>(target: syntax::Target<'a>, states: &Numbered<'a>) -> Destination
    ensures { result ≡ meaning.target_of states.now (view.target_view target.entry) }
{
    match target {
        syntax::Target::State(name) => Destination::State(states.find(name).unwrap_or(0)),
        syntax::Target::Exit => Destination::Exit,
    }
}

/// Which clause is meant: by the number of its state set, of its state there, and its own.
#[derive(Clone, Copy)]
struct Which {
    set: usize,
    state: usize,
    clause: usize,
}

/// What the condition at an address tests; a missing one is no test.
fn tested_by(code: &[Instr], condition: Option<usize>) -> Test
    ensures { result ≡ tested_by code.now condition }
{
    match condition {
        Some(start) => test_at(code, start),
        None => Test::Code,
    }
}

/// The plan of a clause.
fn clause_plan<'a>(
    clause: &Clause<'a>,
    which: Which,
    states: &Numbered<'a>,
    code: &Code,
) -> ClausePlan
    ensures { result ≡ spec.clause_plan states.now code.now.instrs.items (table_of code.now)
        which.set which.state which.clause (clause_view clause.now) }
{
    let Which {
        set,
        state,
        clause: number,
    } = which;
    let condition = code.start(Piece::Condition {
        set,
        state,
        clause: number,
    });
    let block = code
        .start(Piece::Block {
            set,
            state,
            clause: number,
        })
        .unwrap_or(0);
    ClausePlan {
        condition,
        test: tested_by(code.instrs(), condition),
        block,
        is_empty: is_empty_at(code.instrs(), block),
        target: target_of(clause.target, states),
        line: clause.word.pos.line as usize,
        number,
    }
}

/// The plans of the clauses of a state.
fn clause_plans<'a>(
    alloc: Global,
    clauses: &[Clause<'a>],
    set: usize,
    state: usize,
    states: &Numbered<'a>,
    code: &Code,
) -> Result<Vec<ClausePlan>, AllocError>
    ensures { IfOk result (λ plans. plans.items ≡ spec.clause_plans states.now
        code.now.instrs.items (table_of code.now) set state 0 (map clause_view clauses.now)) }
{
    let mut plans = Vec::with_capacity(alloc, clauses.len())?;
    for (clause, one) in clauses.iter().enumerate() {
        plans.push(clause_plan(one, Which { set, state, clause }, states, code))?;
    }
    Ok(plans)
}

/// The plans of the clauses of a state; none of a state without code, which no run comes to.
fn kept_clauses<'a>(
    alloc: Global,
    clauses: &[Clause<'a>],
    set: usize,
    state: usize,
    states: &Numbered<'a>,
    code: &Code,
) -> Result<Vec<ClausePlan>, AllocError>
    ensures { IfOk result (λ plans. plans.items ≡ spec.clauses_if
        (holds_in (table_of code.now) set state) states.now code.now.instrs.items
        (table_of code.now) set state (map clause_view clauses.now)) }
{
    if code.holds(set, state) {
        return clause_plans(alloc, clauses, set, state, states, code);
    }
    Ok(Vec::new(alloc))
}

/// What a state does also where a transition leads from it to itself, by its options.
fn again_of(definitions: &[Def]) -> Again
    ensures { result ≡ meaning.again_of (map definition_view definitions.now) }
{
    Again {
        time: sign_in_force(b't', definitions),
        entry: !sign_in_force(b'e', definitions),
        exit: !sign_in_force(b'x', definitions),
    }
}

/// Where the own blocks of a state begin in the code.
fn state_blocks(set: usize, state: usize, code: &Code) -> Blocks
    ensures { result ≡ spec.state_blocks (table_of code.now) set state }
{
    Blocks {
        entry: code.start(Piece::Entry { set, state }),
        exit: code.start(Piece::Exit { set, state }),
    }
}

/// Where those of the program begin.
fn program_blocks(code: &Code) -> Blocks
    ensures { result ≡ spec.program_blocks (table_of code.now) }
{
    Blocks {
        entry: code.start(Piece::ProgramEntry),
        exit: code.start(Piece::ProgramExit),
    }
}

/// The plan of a state. One that is not reached keeps its name and its options alone.
fn state_plan<'a>(
    alloc: Global,
    state: &State<'a>,
    set: usize,
    number: usize,
    states: &Numbered<'a>,
    code: &Code,
) -> Result<StatePlan, AllocError>
    ensures { IfOk result (λ plan. spec.state_view plan ≡ spec.state_plan states.now
        code.now.instrs.items (table_of code.now) set number (state_view state.now)) }
{
    let name = Vec::from_slice(alloc, state.name.text)?;
    let clauses = kept_clauses(alloc, state.clauses.as_slice(), set, number, states, code)?;
    Ok(StatePlan {
        name,
        blocks: state_blocks(set, number, code),
        clauses,
        again: again_of(state.definitions.as_slice()),
    })
}

/// The plans of the states of a state set.
fn state_plans<'a>(
    alloc: Global,
    states: &[State<'a>],
    set: usize,
    names: &Numbered<'a>,
    code: &Code,
) -> Result<Vec<StatePlan>, AllocError>
    ensures { IfOk result (λ plans. map spec.state_view plans.items ≡ spec.state_plans names.now
        code.now.instrs.items (table_of code.now) set 0 (map state_view states.now)) }
{
    let mut plans = Vec::new(alloc);
    for (number, state) in states.iter().enumerate() {
        let plan = state_plan(alloc, state, set, number, names, code)?;
        plans.push(plan)?;
    }
    Ok(plans)
}

/// The plan of the states of a state set.
fn states_of<'a>(
    alloc: Global,
    set: &StateSet<'a>,
    number: usize,
    code: &Code,
) -> Result<Vec<StatePlan>, AllocError>
    ensures { IfOk result (λ plans. map spec.state_view plans.items
        ≡ spec.state_plans (spec.names_of (state_set_view set.now)) code.now.instrs.items
        (table_of code.now) number 0 (state_set_view set.now).states) }
{
    let states = set.states.as_slice();
    let names = names_in(alloc, set)?;
    state_plans(alloc, states, number, &names, code)
}

/// The plan of a state set.
fn set_plan(
    alloc: Global,
    set: &StateSet,
    number: usize,
    code: &Code,
) -> Result<SetPlan, AllocError>
    ensures { IfOk result (λ plan. spec.set_view plan ≡ spec.set_plan code.now.instrs.items
        (table_of code.now) number (state_set_view set.now)) }
{
    let name = Vec::from_slice(alloc, set.name.text)?;
    let states = states_of(alloc, set, number, code)?;
    SetPlan::new(alloc, name, states)
}

/// The plans of all state sets.
fn set_plans(alloc: Global, sets: &[StateSet], code: &Code) -> Result<Vec<SetPlan>, AllocError>
    ensures { IfOk result (λ plans. map spec.set_view plans.items ≡ spec.set_plans
        code.now.instrs.items (table_of code.now) 0 (map state_set_view sets.now)) }
{
    let mut plans = Vec::new(alloc);
    for (number, set) in sets.iter().enumerate() {
        let plan = set_plan(alloc, set, number, code)?;
        plans.push(plan)?;
    }
    Ok(plans)
}

/// The plan of a program whose code and links are given, with the names of its channels, its event flags, the variables of
/// its copies, and whether it waits for its channels before it starts. The only error is that memory ends.
pub fn plan_of<'a>(
    alloc: Global,
    program: &Program<'a>,
    code: &Code,
    links: &[Link],
    names: &IndexSet<Vec<u8>>,
    flags: &Offsets,
    copies: &[Places],
    waits: bool,
) -> Result<Plan, AllocError>
    requires names { names_in names.now ≡ channels (map link_view links.now) }
    requires flags { flags.now ≡ flags_in (program_view program.now) }
    requires copies { copies.now
        ≡ placed_sets (program_view program.now) 0 (program_view program.now).state_sets }
    ensures { IfOk result (λ plan. spec.plan_view plan ≡ spec.program_plan
        (program_view program.now) (map link_view links.now) waits code.now.instrs.items
        (table_of code.now)) }
{
    let name = Vec::from_slice(alloc, program.name.text)?;
    let ties = ties_of(alloc, links, names, flags, copies)?;
    let sets = set_plans(alloc, program.state_sets.as_slice(), code)?;
    Plan::new(alloc, name, ties, waits, program_blocks(code), sets)
}
