//! Where the state sets of a run stand, and how much has happened.

use snl_output::Went;
use std::alloc::{AllocError, Global};

/// Where a state set stands.
#[derive(Clone, Copy, Debug, PartialEq, Eq)]
pub struct SetStanding {
    /// The number of its state, from 0 on, in the order of the source.
    pub state: usize,
    /// Since when, in milliseconds.
    pub since: u64,
}

/// Where the state sets of a run stand, and counts of its lines. Counts stop at the largest number of 64 bits.
#[derive(Drop)]
pub struct Standing {
    /// By state set.
    sets: Vec<SetStanding>,
    has_begun: bool,
    lines: u64,
    transitions: u64,
    puts: u64,
    refused: u64,
}

/// One more.
fn count(number: &mut u64) {
    *number = number.saturating_add(1);
}

impl Standing {
    /// Nothing was written yet, of a run with so many state sets. Fails only where memory ran out.
    pub fn new(alloc: Global, sets: usize) -> Result<Self, AllocError> {
        let first = SetStanding { state: 0, since: 0 };
        Ok(Standing {
            sets: vec![in alloc; first; sets]?,
            has_begun: false,
            lines: 0,
            transitions: 0,
            puts: 0,
            refused: 0,
        })
    }

    /// The program begins: all state sets stand in their first states.
    pub(crate) fn begin(&mut self, ms: u64) {
        self.has_begun = true;
        for standing in &mut self.sets {
            standing.since = ms;
        }
    }

    /// A line has ended.
    pub(crate) fn end_line(&mut self) {
        count(&mut self.lines);
    }

    /// Hears of a transition. Where it leads out of the program, its state set stays where it is.
    pub(crate) fn go(&mut self, transition: Went) {
        count(&mut self.transitions);
        if let Some(state) = transition.to {
            if let Some(standing) = self.sets.get_mut(transition.set) {
                standing.state = state;
                standing.since = transition.ms;
            }
        }
    }

    /// Hears of a put.
    pub(crate) fn put(&mut self) {
        count(&mut self.puts);
    }

    /// Hears that a put was refused.
    pub(crate) fn refuse(&mut self) {
        count(&mut self.refused);
    }

    /// Whether the program began.
    pub fn has_begun(&self) -> bool {
        self.has_begun
    }

    /// Where each state set stands.
    pub fn sets(&self) -> &[SetStanding] {
        self.sets.as_slice()
    }

    /// How many transitions there were.
    pub fn transitions(&self) -> u64 {
        self.transitions
    }

    /// How many puts there were.
    pub fn puts(&self) -> u64 {
        self.puts
    }

    /// How many puts were refused.
    pub fn refused(&self) -> u64 {
        self.refused
    }

    /// How many lines there were behind the first, which says that the program began, that are neither of a transition nor of a
    /// put: those that were printed, and one that says how the program ended, where it did.
    pub fn others(&self) -> u64 {
        self.lines
            .saturating_sub(1)
            .saturating_sub(self.transitions)
            .saturating_sub(self.puts)
    }
}
