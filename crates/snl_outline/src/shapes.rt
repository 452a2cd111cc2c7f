//! The outline of a program: its state sets, their states, and where their clauses lead.

ghost use Rattle.std.specs.Prelude.{◌≡◌, true, map, slice_index_or, IfOk};
ghost use Rattle.snl_reach.specs.Marks.{AreReached};
ghost use Rattle.snl_syntax.specs.view.Programs.{clause_view, program_view, state_set_view, state_view, target_view};
ghost use Rattle.snl_outline.specs.Names.{names_of, seen};
ghost use Rattle.snl_outline.specs.Reached.{AreMarked, marks_of};
ghost use Rattle.snl_outline.specs.Shapes.{outlined, shape_of, target_name as name_of_target};
ghost use Rattle.snl_outline.specs.Told as spec;

use snl_names::pushed;
use snl_reach::reached_states;
use snl_syntax::{Clause, Program, State, StateSet, Target};
use std::alloc::{AllocError, Global};

/// A clause of a state.
#[derive(Drop)]
pub struct ClauseOutline {
    /// The name of the state that it leads to; `exit` where it leads out of the program.
    pub target: Vec<u8>,
    /// The line of its word `when`, from 1 on, as markers count it.
    pub line: usize,
    /// The offset of that word in the source, in bytes.
    pub offset: usize,
}

/// A state of a state set.
#[derive(Drop)]
pub struct StateOutline {
    /// Its name in the source.
    pub name: Vec<u8>,
    /// The line of that name, from 1 on, as markers count it.
    pub line: usize,
    /// Whether the first state of its state set leads to it, or it is that one (W2).
    pub is_reached: bool,
    /// Its clauses, in order.
    pub clauses: Vec<ClauseOutline>,
}

/// A state set.
#[derive(Drop)]
pub struct SetOutline {
    /// Its name in the source.
    pub name: Vec<u8>,
    /// Its states, in order; the first is the initial one.
    pub states: Vec<StateOutline>,
}

/// A program.
#[derive(Drop)]
pub struct ProgramOutline {
    /// Its name in the source.
    pub name: Vec<u8>,
    /// The line of that name, from 1 on, as markers count it.
    pub line: usize,
    /// Its state sets, in order.
    pub sets: Vec<SetOutline>,
}

/// The name of where a clause leads.
fn target_name<'a>(target: Target<'a>) -> &'a [u8]
    ensures { result.now ≡ name_of_target (target_view target.entry) }
{
    match target {
        Target::State(name) => name.text,
        Target::Exit => b"exit",
    }
}

/// The outline of a clause.
fn clause_outline(alloc: Global, clause: &Clause) -> Result<ClauseOutline, AllocError>
    ensures { IfOk result (λ outline. spec.clause_said outline
        ≡ spec.clause_told (clause_view clause.now)) }
{
    Ok(ClauseOutline {
        target: Vec::from_slice(alloc, target_name(clause.target))?,
        line: clause.word.pos.line as usize,
        offset: clause.word.pos.offset as usize,
    })
}

/// The outlines of the clauses of a state.
fn clause_outlines(alloc: Global, clauses: &[Clause]) -> Result<Vec<ClauseOutline>, AllocError>
    ensures { IfOk result (λ outlines. map spec.clause_said outlines.items
        ≡ map spec.clause_told (map clause_view clauses.now)) }
{
    let mut outlines = Vec::new(alloc);
    for clause in clauses {
        let outline = clause_outline(alloc, clause)?;
        pushed(&mut outlines, outline)?;
    }
    Ok(outlines)
}

/// The outline of a state.
fn state_outline(alloc: Global, state: &State, is_reached: bool) -> Result<StateOutline, AllocError>
    ensures told { IfOk result (λ outline. spec.state_said outline
        ≡ spec.state_told (state_view state.now)) }
    ensures reached { IfOk result (λ outline. outline.is_reached ≡ is_reached) }
{
    let name = Vec::from_slice(alloc, state.name.text)?;
    let clauses = clause_outlines(alloc, state.clauses.as_slice())?;
    Ok(StateOutline {
        name,
        line: state.name.pos.line as usize,
        is_reached,
        clauses,
    })
}

/// The mark of a number.
fn is_marked(marks: &[bool], number: usize) -> bool
    ensures { result ≡ slice_index_or marks.now number true }
{
    match marks.get(number) {
        Some(mark) => *mark,
        None => true,
    }
}

/// The outlines of the states of a state set.
fn state_outlines(alloc: Global, states: &[State]) -> Result<Vec<StateOutline>, AllocError>
    ensures told { IfOk result (λ outlines. map spec.state_said outlines.items
        ≡ map spec.state_told (map state_view states.now)) }
    ensures reached { IfOk result (λ outlines.
        AreReached (map state_view states.now) (marks_of outlines.items)) }
{
    let reached = reached_states(alloc, states)?;
    let mut outlines = Vec::new(alloc);
    for (number, state) in states.iter().enumerate() {
        let outline = state_outline(alloc, state, is_marked(&reached, number))?;
        pushed(&mut outlines, outline)?;
    }
    Ok(outlines)
}

/// The outline of a state set.
fn set_outline(alloc: Global, set: &StateSet) -> Result<SetOutline, AllocError>
    ensures told { IfOk result (λ outline. spec.set_said outline
        ≡ spec.set_told (state_set_view set.now)) }
    ensures reached { IfOk result (λ outline.
        AreReached (state_set_view set.now).states (marks_of outline.states.items)) }
{
    let name = Vec::from_slice(alloc, set.name.text)?;
    let states = state_outlines(alloc, set.states.as_slice())?;
    Ok(SetOutline { name, states })
}

/// The outlines of state sets.
fn set_outlines(alloc: Global, sets: &[StateSet]) -> Result<Vec<SetOutline>, AllocError>
    ensures told { IfOk result (λ outlines. map spec.set_said outlines.items
        ≡ map spec.set_told (map state_set_view sets.now)) }
    ensures reached { IfOk result (λ outlines.
        AreMarked (map state_set_view sets.now) outlines.items) }
{
    let mut outlines = Vec::new(alloc);
    for set in sets {
        let outline = set_outline(alloc, set)?;
        pushed(&mut outlines, outline)?;
    }
    Ok(outlines)
}

/// The outline of a program (SNL Reference, "State Set", "State"). The only error is that memory ends.
pub fn outline_of(alloc: Global, program: &Program) -> Result<ProgramOutline, AllocError>
    ensures told { IfOk result (λ outline. spec.program_said outline
        ≡ spec.program_told (program_view program.now)) }
    ensures reached { IfOk result (λ outline.
        AreMarked (program_view program.now).state_sets outline.sets.items) }
    ensures shape { IfOk result (λ outline. outlined outline
        ≡ shape_of (program_view program.now)) }
    ensures names { IfOk result (λ outline. map seen outline.sets.items
        ≡ names_of (program_view program.now)) }
{
    let name = Vec::from_slice(alloc, program.name.text)?;
    let sets = set_outlines(alloc, program.state_sets.as_slice())?;
    Ok(ProgramOutline {
        name,
        line: program.name.pos.line as usize,
        sets,
    })
}
