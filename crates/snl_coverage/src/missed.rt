//! What of a program no run showed.

use crate::coverage::Coverage;
use snl_outline::{SetOutline, StateOutline};
use std::alloc::{AllocError, Global};

/// Something that no run showed.
#[derive(Clone, Copy, Debug, PartialEq, Eq)]
pub enum Missed {
    /// A state was never entered; by the numbers of its state set and its own.
    State(usize, usize),
    /// A clause was never taken; by the numbers of its state set, its state and its own.
    Clause(usize, usize, usize),
    /// A channel was never put to; by its number among those that a `pvPut` names.
    Channel(usize),
}

/// How much was seen of what there is.
#[derive(Clone, Copy, Debug, PartialEq, Eq)]
pub struct Share {
    /// How many were seen.
    pub seen: u64,
    /// How many there are.
    pub all: u64,
}

impl Share {
    /// Nothing was counted yet.
    fn none() -> Share {
        Share { seen: 0, all: 0 }
    }

    /// Counts one more, which was seen or not.
    fn count(&mut self, is_seen: bool) {
        self.all = self.all.saturating_add(1);
        if is_seen {
            self.seen = self.seen.saturating_add(1);
        }
    }
}

/// What was missed, by place in the source, and how much there is. Channels come last.
#[derive(Drop)]
pub struct Gaps {
    /// Each state, clause and channel that no run showed.
    pub missed: Vec<Missed>,
    /// Of the clauses, those that were taken.
    pub clauses: Share,
    /// Of the states, those that were entered.
    pub states: Share,
    /// Of the channels that a `pvPut` names, those that were put to.
    pub channels: Share,
}

impl Gaps {
    /// Whether less than so many percent of the clauses were taken.
    pub fn is_below(&self, percent: u32) -> bool {
        100u128 * (self.clauses.seen as u128) < (percent as u128) * (self.clauses.all as u128)
    }
}

/// Looks at the clauses of a state, of which the first has a number among all clauses.
fn look_at_clauses(
    coverage: &Coverage,
    set: usize,
    state: usize,
    chart: &StateOutline,
    first: usize,
    gaps: &mut Gaps,
) -> Result<(), AllocError> {
    for clause in 0..chart.clauses.len() {
        let number = first.saturating_add(clause);
        let is_missed = coverage.is_missed(number, coverage.taken(set, state, clause));
        gaps.clauses.count(!is_missed);
        if is_missed {
            gaps.missed.push(Missed::Clause(set, state, clause))?;
        }
    }
    Ok(())
}

/// Looks at a state.
fn look_at_state(
    coverage: &Coverage,
    set: usize,
    state: usize,
    gaps: &mut Gaps,
) -> Result<(), AllocError> {
    let is_entered = coverage.trail.entered(set, state) > 0;
    gaps.states.count(is_entered);
    if !is_entered {
        gaps.missed.push(Missed::State(set, state))?;
    }
    Ok(())
}

/// Looks at a state set, whose first clause has a number among all clauses; answers the number behind its last.
fn look_at_set(
    coverage: &Coverage,
    set: usize,
    chart: &SetOutline,
    first: usize,
    gaps: &mut Gaps,
) -> Result<usize, AllocError> {
    let mut next = first;
    for (state, one) in chart.states.iter().enumerate() {
        look_at_state(coverage, set, state, gaps)?;
        look_at_clauses(coverage, set, state, one, next, gaps)?;
        next = next.saturating_add(one.clauses.len());
    }
    Ok(next)
}

/// Looks at the channels that a `pvPut` names.
fn look_at_channels(coverage: &Coverage, gaps: &mut Gaps) -> Result<(), AllocError> {
    for (number, put) in coverage.puts.iter().enumerate() {
        let is_put = coverage.trail.puts(put.number) > 0;
        gaps.channels.count(is_put);
        if !is_put {
            gaps.missed.push(Missed::Channel(number))?;
        }
    }
    Ok(())
}

/// What was missed of a program. The only error is that memory ends.
pub fn gaps_of(alloc: Global, coverage: &Coverage) -> Result<Gaps, AllocError> {
    let mut gaps = Gaps {
        missed: Vec::new(alloc),
        clauses: Share::none(),
        states: Share::none(),
        channels: Share::none(),
    };
    let mut next = 0usize;
    for (set, chart) in coverage.chart.outline.sets.iter().enumerate() {
        next = look_at_set(coverage, set, chart, next, &mut gaps)?;
    }
    look_at_channels(coverage, &mut gaps)?;
    Ok(gaps)
}
