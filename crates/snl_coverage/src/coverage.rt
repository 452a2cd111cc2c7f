//! What of a program was seen in runs, and what was not.

ghost use Rattle.std.specs.Prelude.{◌≡◌, ◌++◌, List, ℕ, IfOk, OnErr, OnOk, length};
ghost use Rattle.snl_tallies.specs.Counts.{counts_of};
ghost use Rattle.snl_coverage.specs.Coverage.{both};

use crate::charts::Chart;
use crate::seen::RunCoverage;
use crate::tallies::{push_lines, push_others};
use crate::told::{ProgramCoverage, told_of};
use snl_tallies::Tally;
use snl_watch::Trail;
use std::alloc::{AllocError, Global};

/// A channel that a `pvPut` names.
#[derive(Drop)]
pub struct PutChart {
    /// Its number, from 0 on, in the order in which `assign` definitions first name channels.
    pub number: usize,
    /// Its name, after macros.
    pub channel: Vec<u8>,
    /// The variable, with the number of its element where its elements have channels of their own.
    pub variable: Vec<u8>,
    /// The line of the variable's declaration.
    pub line: usize,
}

/// What was seen of a program. Counts stop at the largest number of 64 bits.
#[derive(Drop)]
pub struct Coverage {
    /// The program's state sets, states and clauses.
    pub chart: Chart,
    /// The channels that a `pvPut` names, in the order in which `assign` definitions first name them.
    pub puts: Vec<PutChart>,
    /// In how many lines a transition between the two states of each clause stands, in the order of the clauses.
    pub shown: Vec<u64>,
    /// What became of each clause, state and channel.
    pub trail: Trail,
    /// How often the program began in the runs of other calls, which are known by their counts alone.
    pub begun: u64,
}

/// Adds counts to others, one by one.
fn add_counts(counts: &mut Vec<u64>, others: &[u64])
    ensures { counts.new.items ≡ both counts.old.items others.now }
{
    for (number, other) in others.iter().enumerate() {
        if let Some(count) = counts.get_mut(number) {
            *count = count.saturating_add(*other);
        }
    }
}

impl Coverage {
    /// Adds what was seen of the same program in another run.
    pub(crate) fn add(&mut self, other: &RunCoverage)
        ensures shown { self.new.shown.items ≡ both self.old.shown.items other.now.shown.items }
        ensures chart { self.new.chart ≡ self.old.chart }
    {
        add_counts(&mut self.shown, other.shown.as_slice());
        self.trail.add(&other.trail);
    }

    /// Adds the counts of other runs of the same program, in the order of `tallies`. The only error is that memory ends; nothing was
    /// added then.
    pub(crate) fn add_counts(&mut self, alloc: Global, counts: &[u64]) -> Result<(), AllocError>
        ensures shown { OnOk result ((others lines : List ℕ) → counts.now ≡ others ++ lines →
            length lines ≡ length self.old.shown.items →
            self.new.shown.items ≡ both self.old.shown.items lines) }
        ensures chart { self.new.chart ≡ self.old.chart }
        ensures err { OnErr result (self.new ≡ self.old) }
    {
        let place = counts.len().saturating_sub(self.shown.len());
        let (others, lines) = counts.split_at(place);
        let ProgramCoverage { trail, begun } = told_of(
            alloc,
            &self.chart,
            self.puts.as_slice(),
            others,
        )?;
        add_counts(&mut self.shown, lines);
        self.trail.add(&trail);
        self.begun = self.begun.saturating_add(begun);
        Ok(())
    }

    /// What was counted, each with its name: what became of states, clauses and channels, and then the lines of each clause. The only
    /// error is that memory ends.
    pub fn tallies(&self, alloc: Global) -> Result<Vec<Tally>, AllocError>
        ensures { IfOk result (λ tallies. (others : List ℕ) × (counts_of tallies.items
            ≡ others ++ self.now.shown.items)) }
    {
        let mut tallies = Vec::new(alloc);
        push_others(alloc, self, &mut tallies)?;
        push_lines(alloc, &self.chart, self.shown.as_slice(), &mut tallies)?;
        Ok(tallies)
    }

    /// How often the program began.
    pub(crate) fn begun(&self) -> u64 {
        self.trail.begun().saturating_add(self.begun)
    }

    /// How often a clause led where it says.
    pub(crate) fn taken(&self, set: usize, state: usize, clause: usize) -> u64 {
        match self.trail.clause(set, state, clause) {
            Some(trail) => trail.taken,
            None => 0,
        }
    }

    /// How often the block of a clause left for another state.
    pub(crate) fn left(&self, set: usize, state: usize, clause: usize) -> u64 {
        match self.trail.clause(set, state, clause) {
            Some(trail) => trail.left,
            None => 0,
        }
    }

    /// Whether a clause is named as never taken: no line shows a transition between its two states, or the lines that do are
    /// those of other clauses. `number` is that among all clauses.
    pub(crate) fn is_missed(&self, number: usize, taken: u64) -> bool {
        taken == 0 || self.shown.get(number).copied().unwrap_or(0) == 0
    }
}
