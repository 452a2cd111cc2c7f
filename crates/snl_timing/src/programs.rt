//! `timing_of`: what is known of the times of a program.

ghost use Rattle.std.specs.Prelude.{◌≡◌, ◌<◌, map, length, IfOk, IfSome};
ghost use Rattle.snl_alike.specs.Timing.{IsTimingOf, sizes_in};
ghost use Rattle.snl_flat.specs.Copies.{held_sets, sets_of, variables_in};
ghost use Rattle.snl_meaning.specs.Names.{words_of};
ghost use Rattle.snl_names.specs.CopyVariables.{variable_view};
ghost use Rattle.snl_syntax.specs.view.Programs.{program_view};

use crate::parts::{are_short, longest_in_block, longest_in_functions, longest_in_state};
use snl_alike::{SetTiming, Timing};
use snl_flat::copies_of;
use snl_names::CopyVariable;
use snl_syntax::{Program, State, StateSet};
use std::alloc::{AllocError, Global};

/// How many words variables have; None where no number holds that.
fn size_of(variables: &[CopyVariable]) -> Option<usize>
    ensures { IfSome result (λ size. size ≡ words_of (map variable_view variables.now)) }
{
    let mut size = 0usize;
    for variable in variables {
        size = size.checked_add(variable.size.elements())?;
    }
    Some(size)
}

/// The longer one of two delays; None where one of them is not known.
fn longer_of(one: Option<u32>, other: Option<u32>) -> Option<u32> {
    match (one, other) {
        (Some(one), Some(other)) => Some(one.max(other)),
        _ => None,
    }
}

/// The longest `delay` in each of some states, or beside them, of those that are tried; None where there is none.
fn longests_of<'a>(
    alloc: Global,
    states: &[State<'a>],
    beside: Option<u32>,
    tried: &[u32],
) -> Result<Vec<Option<u32>>, AllocError> {
    let mut longests = Vec::new(alloc);
    for state in states {
        let longest = longest_in_state(state, tried);
        longests.push(longer_of(longest, beside))?;
    }
    Ok(longests)
}

/// The same of the states of each state set, where something else may stand beside those of the first one.
fn longests_by<'a>(
    alloc: Global,
    sets: &[StateSet<'a>],
    first: Option<u32>,
    beside: Option<u32>,
    tried: &[u32],
) -> Result<Vec<Vec<Option<u32>>>, AllocError> {
    let mut all = Vec::new(alloc);
    let mut known = first;
    for set in sets {
        let longests = longests_of(alloc, set.states.as_slice(), known, tried)?;
        all.push(longests)?;
        known = beside;
    }
    Ok(all)
}

/// The longest delays of the state set of a number; none where there are none.
fn longests_at(
    alloc: Global,
    longests: &[Vec<Option<u32>>],
    number: usize,
) -> Result<Vec<Option<u32>>, AllocError> {
    match longests.get(number) {
        Some(own) => Vec::from_slice(alloc, own.as_slice()),
        None => Ok(Vec::new(alloc)),
    }
}

/// How many words the copy of each state set has, with the longest delays of its states; None where no number holds a size.
fn table_of(
    alloc: Global,
    held: &[Vec<CopyVariable>],
    longests: &[Vec<Option<u32>>],
) -> Result<Option<Vec<SetTiming>>, AllocError>
    ensures { IfOk result (λ table. IfSome table (λ all.
        sizes_in all.items ≡ map words_of (sets_of held.now))) }
{
    let mut table = Vec::new(alloc);
    for variables in held {
        let own = longests_at(alloc, longests, table.len())?;
        match size_of(variables.as_slice()) {
            Some(size) => table.push(SetTiming {
                size,
                longests: own,
            })?,
            None => return Ok(None),
        }
    }
    Ok(Some(table))
}

/// What is known of the times of a program by the delays that are tried; None where that is not right of it.
fn timing_by<'a>(
    alloc: Global,
    program: &Program<'a>,
    tried: &[u32],
) -> Result<Option<Timing>, AllocError>
    requires { 0 < length (program_view program.now).state_sets }
    ensures { IfOk result (λ timing. IfSome timing (IsTimingOf (program_view program.now))) }
{
    let copies = copies_of(alloc, program)?;
    let held = copies.held.as_slice();
    let in_functions = longest_in_functions(program.definitions.as_slice(), tried);
    let in_entry = longest_in_block(&program.entry, tried);
    let in_exit = longest_in_block(&program.exit, tried);
    let first = longer_of(in_functions, longer_of(in_entry, in_exit));
    let sets = program.state_sets.as_slice();
    let longests = longests_by(alloc, sets, first, in_functions, tried)?;
    match table_of(alloc, held, longests.as_slice())? {
        Some(sets) if are_short(program, sets.as_slice()) => Ok(Some(Timing { sets })),
        _ => Ok(None),
    }
}

/// What is known of the times of a program: of each state set how many words it has, and, for each of its states, that no `delay` that it
/// may come to in that is longer than so many milliseconds, where each of these has a constant: it is one of those that are tried. None
/// where a program has no state set, or too many words for a number. The only error is that memory ends.
pub fn timing_of<'a>(
    alloc: Global,
    program: &Program<'a>,
    tried: &[u32],
) -> Result<Option<Timing>, AllocError>
    ensures { IfOk result (λ timing. IfSome timing (IsTimingOf (program_view program.now))) }
{
    if program.state_sets.is_empty() {
        return Ok(None);
    }
    match timing_by(alloc, program, tried)? {
        Some(timing) => Ok(Some(timing)),
        None => timing_by(alloc, program, &[]),
    }
}
