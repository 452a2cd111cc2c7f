//! What was seen of a program, as counts with names, in the order of a file of counts.

ghost use Rattle.std.specs.Prelude.{◌≡◌, ◌++◌, ◌∷◌, [], OnOk};
ghost use Rattle.snl_tallies.specs.Counts.{counts_of};

use crate::charts::Chart;
use crate::coverage::Coverage;
use crate::go_lines::go_texts;
use snl_outline::{SetOutline, StateOutline};
use snl_output::{push_all, push_told};
use snl_tallies::Tally;
use std::alloc::{AllocError, Global};

/// What stands behind the blank in front of the text of a line.
fn without_blank(text: &[u8]) -> &[u8] {
    match text {
        [b' ', behind @ ..] => behind,
        _ => text,
    }
}

/// Adds a count whose name is in pieces.
fn push_tally(
    alloc: Global,
    tallies: &mut Vec<Tally>,
    pieces: &[&[u8]],
    count: u64,
) -> Result<(), AllocError>
    ensures { OnOk result (counts_of tallies.new.items ≡ counts_of tallies.old.items
        ++ count ∷ []) }
{
    let mut name = Vec::new(alloc);
    push_all(&mut name, pieces)?;
    tallies.push(Tally { name, count })?;
    Ok(())
}

/// A state, by the numbers of its state set and its own, with the name of the state set.
#[derive(Clone, Copy)]
struct NamedState<'c> {
    set: usize,
    state: usize,
    name: &'c [u8],
}

/// The number of a clause in its state, from 1 on: ` N`.
fn left_ending(alloc: Global, clause: usize) -> Result<Vec<u8>, AllocError> {
    let mut ending = Vec::new(alloc);
    push_told(&mut ending, b" ", (clause as u64).saturating_add(1), b"")?;
    Ok(ending)
}

/// The number of a clause in its state, and where it leads: ` N TO`.
fn taken_ending(alloc: Global, chart: &StateOutline, clause: usize) -> Result<Vec<u8>, AllocError> {
    let mut ending = left_ending(alloc, clause)?;
    ending.extend_from_slice(b" ")?;
    if let Some(arrow) = chart.clauses.get(clause) {
        ending.extend_from_slice(arrow.target.as_slice())?;
    }
    Ok(ending)
}

/// Adds how often a clause led where it says: `taken SET STATE N TO`.
fn push_taken(
    alloc: Global,
    coverage: &Coverage,
    place: NamedState,
    chart: &StateOutline,
    clause: usize,
    tallies: &mut Vec<Tally>,
) -> Result<(), AllocError> {
    let taken = coverage.taken(place.set, place.state, clause);
    let state = chart.name.as_slice();
    let ending = taken_ending(alloc, chart, clause)?;
    push_tally(
        alloc,
        tallies,
        &[b"taken ", place.name, b" ", state, ending.as_slice()],
        taken,
    )
}

/// Adds how often the block of a clause left for another state than that where it leads: `left SET STATE N`.
fn push_left(
    alloc: Global,
    coverage: &Coverage,
    place: NamedState,
    chart: &StateOutline,
    clause: usize,
    tallies: &mut Vec<Tally>,
) -> Result<(), AllocError> {
    let left = coverage.left(place.set, place.state, clause);
    let state = chart.name.as_slice();
    let ending = left_ending(alloc, clause)?;
    push_tally(
        alloc,
        tallies,
        &[b"left ", place.name, b" ", state, ending.as_slice()],
        left,
    )
}

/// Adds how often a state was entered, and what became of its clauses: `entered SET STATE`.
fn push_state(
    alloc: Global,
    coverage: &Coverage,
    place: NamedState,
    chart: &StateOutline,
    tallies: &mut Vec<Tally>,
) -> Result<(), AllocError> {
    let entered = coverage.trail.entered(place.set, place.state);
    let name = chart.name.as_slice();
    push_tally(
        alloc,
        tallies,
        &[b"entered ", place.name, b" ", name],
        entered,
    )?;
    for clause in 0..chart.clauses.len() {
        push_taken(alloc, coverage, place, chart, clause, tallies)?;
        push_left(alloc, coverage, place, chart, clause, tallies)?;
    }
    Ok(())
}

/// Adds what became of the states of a state set.
fn push_set(
    alloc: Global,
    coverage: &Coverage,
    set: usize,
    chart: &SetOutline,
    tallies: &mut Vec<Tally>,
) -> Result<(), AllocError> {
    for (state, one) in chart.states.iter().enumerate() {
        let place = NamedState {
            set,
            state,
            name: chart.name.as_slice(),
        };
        push_state(alloc, coverage, place, one, tallies)?;
    }
    Ok(())
}

/// Adds what became of the states of a program.
fn push_sets(
    alloc: Global,
    coverage: &Coverage,
    tallies: &mut Vec<Tally>,
) -> Result<(), AllocError> {
    for (set, chart) in coverage.chart.outline.sets.iter().enumerate() {
        push_set(alloc, coverage, set, chart, tallies)?;
    }
    Ok(())
}

/// Adds how many puts went to each channel that a `pvPut` names: `put CHANNEL`.
fn push_puts(
    alloc: Global,
    coverage: &Coverage,
    tallies: &mut Vec<Tally>,
) -> Result<(), AllocError> {
    for put in &coverage.puts {
        let count = coverage.trail.puts(put.number);
        push_tally(alloc, tallies, &[b"put ", put.channel.as_slice()], count)?;
    }
    Ok(())
}

/// Adds what became of clauses, states and channels, and how often the program began: `begun`.
pub(crate) fn push_others(
    alloc: Global,
    coverage: &Coverage,
    tallies: &mut Vec<Tally>,
) -> Result<(), AllocError> {
    push_sets(alloc, coverage, tallies)?;
    push_puts(alloc, coverage, tallies)?;
    push_tally(alloc, tallies, &[b"begun"], coverage.begun())
}

/// Adds, for each clause, in how many lines a transition between its two states stands: `go SET FROM TO`.
pub(crate) fn push_lines(
    alloc: Global,
    chart: &Chart,
    shown: &[u64],
    tallies: &mut Vec<Tally>,
) -> Result<(), AllocError>
    ensures { OnOk result (counts_of tallies.new.items ≡ counts_of tallies.old.items
        ++ shown.now) }
{
    let texts = go_texts(alloc, chart)?;
    for (number, count) in shown.iter().enumerate() {
        let text = match texts.get(number) {
            Some(text) => without_blank(text.as_slice()),
            None => b"go".as_slice(),
        };
        push_tally(alloc, tallies, &[text], *count)?;
    }
    Ok(())
}
