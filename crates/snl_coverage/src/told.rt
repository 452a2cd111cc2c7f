//! What became of a program in runs that are known by their counts alone.

use crate::charts::Chart;
use crate::coverage::PutChart;
use crate::puts::no_puts;
use snl_outline::{SetOutline, StateOutline};
use snl_watch::{ClauseTrail, SetTrail, StateTrail, Trail};
use std::alloc::{AllocError, Global};

/// CountReader that are taken one by one.
#[derive(Drop)]
struct CountReader<'c> {
    all: &'c [u64],
    next: usize,
}

impl<'c> CountReader<'c> {
    /// The next count; 0 behind the last.
    fn take(&mut self) -> u64 {
        let count = self.all.get(self.next).copied().unwrap_or(0);
        self.next = self.next.saturating_add(1);
        count
    }
}

/// What became of the clauses of a state.
fn clause_trails(
    alloc: Global,
    chart: &StateOutline,
    counts: &mut CountReader,
) -> Result<Vec<ClauseTrail>, AllocError> {
    let mut clauses = Vec::new(alloc);
    for _clause in &chart.clauses {
        let taken = counts.take();
        let left = counts.take();
        clauses.push(ClauseTrail {
            line: usize::MAX,
            target: None,
            taken,
            left,
        })?;
    }
    Ok(clauses)
}

/// What became of a state.
fn state_trail(
    alloc: Global,
    chart: &StateOutline,
    counts: &mut CountReader,
) -> Result<StateTrail, AllocError> {
    let entered = counts.take();
    let clauses = clause_trails(alloc, chart, counts)?;
    Ok(StateTrail { entered, clauses })
}

/// What became of the states of a state set.
fn set_trail(
    alloc: Global,
    chart: &SetOutline,
    counts: &mut CountReader,
) -> Result<SetTrail, AllocError> {
    let mut states = Vec::new(alloc);
    for state in &chart.states {
        states.push(state_trail(alloc, state, counts)?)?;
    }
    Ok(SetTrail { states })
}

/// What became of the state sets of a program.
fn set_trails(
    alloc: Global,
    chart: &Chart,
    counts: &mut CountReader,
) -> Result<Vec<SetTrail>, AllocError> {
    let mut sets = Vec::new(alloc);
    for set in &chart.outline.sets {
        sets.push(set_trail(alloc, set, counts)?)?;
    }
    Ok(sets)
}

/// How many puts went to each channel, by its number.
fn put_counts(
    alloc: Global,
    puts: &[PutChart],
    counts: &mut CountReader,
) -> Result<Vec<u64>, AllocError> {
    let mut all = no_puts(alloc, puts)?;
    for put in puts {
        let count = counts.take();
        if let Some(place) = all.get_mut(put.number) {
            *place = count;
        }
    }
    Ok(all)
}

/// What became of a program, and how often it began.
#[derive(Drop)]
pub(crate) struct ProgramCoverage {
    /// What became of its clauses, states and channels. In it the program never began: that the first states were entered then is
    /// among their counts.
    pub trail: Trail,
    pub begun: u64,
}

/// What the counts in front of those of lines tell of a program. The only error is that memory ends.
pub(crate) fn told_of(
    alloc: Global,
    chart: &Chart,
    puts: &[PutChart],
    counts: &[u64],
) -> Result<ProgramCoverage, AllocError> {
    let mut counts = CountReader {
        all: counts,
        next: 0,
    };
    let sets = set_trails(alloc, chart, &mut counts)?;
    let puts = put_counts(alloc, puts, &mut counts)?;
    Ok(ProgramCoverage {
        trail: Trail::new(sets, puts),
        begun: counts.take(),
    })
}
