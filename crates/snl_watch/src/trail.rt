//! What became of the states, the clauses and the channels of a program while it ran.

use snl_output::{Fired, Put, Went};

/// What became of a clause.
#[derive(Clone, Copy, Debug, PartialEq, Eq)]
pub struct ClauseTrail {
    /// The number of its line among those that are counted, from 0 on.
    pub line: usize,
    /// The number of the state that it leads to, among those of its state set; None where it leads out of the program.
    pub target: Option<usize>,
    /// How often it led there.
    pub taken: u64,
    /// How often its block left for another state.
    pub left: u64,
}

/// What became of a state.
#[derive(Drop)]
pub struct StateTrail {
    /// How often a transition led to it.
    pub entered: u64,
    /// By the numbers of its clauses.
    pub clauses: Vec<ClauseTrail>,
}

/// What became of a state set.
#[derive(Drop)]
pub struct SetTrail {
    /// Its states, in the order of the source.
    pub states: Vec<StateTrail>,
}

/// What became of a program. Counts stop at the largest number of 64 bits.
#[derive(Drop)]
pub struct Trail {
    sets: Vec<SetTrail>,
    /// How many puts went to a channel, by its number.
    puts: Vec<u64>,
    /// How often the program began.
    begun: u64,
    /// The clause that fired last, until it leads to a state.
    fired: Option<Fired>,
}

/// One more.
fn count(number: &mut u64) {
    *number = number.saturating_add(1);
}

/// Adds numbers to others, one by one.
fn add_all(numbers: &mut Vec<u64>, others: &[u64]) {
    for (place, other) in others.iter().enumerate() {
        if let Some(number) = numbers.get_mut(place) {
            *number = number.saturating_add(*other);
        }
    }
}

impl ClauseTrail {
    /// It led to a state, or out of the program.
    fn lead(&mut self, to: Option<usize>) {
        if to == self.target {
            count(&mut self.taken);
        } else {
            count(&mut self.left);
        }
    }
}

impl StateTrail {
    /// Adds what became of the same state in another run.
    fn add(&mut self, other: &StateTrail) {
        self.entered = self.entered.saturating_add(other.entered);
        for (number, clause) in other.clauses.iter().enumerate() {
            if let Some(mine) = self.clauses.get_mut(number) {
                mine.taken = mine.taken.saturating_add(clause.taken);
                mine.left = mine.left.saturating_add(clause.left);
            }
        }
    }
}

impl SetTrail {
    /// Hears of a transition of this state set.
    fn go(&mut self, transition: Went) {
        if let Some(state) = self.states.get_mut(transition.from) {
            if let Some(clause) = state.clauses.get_mut(transition.clause) {
                clause.lead(transition.to);
            }
        }
        if let Some(to) = transition.to {
            if let Some(state) = self.states.get_mut(to) {
                count(&mut state.entered);
            }
        }
    }

    /// Adds what became of the same state set in another run.
    fn add(&mut self, other: &SetTrail) {
        for (number, state) in other.states.iter().enumerate() {
            if let Some(mine) = self.states.get_mut(number) {
                mine.add(state);
            }
        }
    }
}

impl Trail {
    /// Nothing came yet. The trails of state sets, states and clauses, and the puts to each channel, have the numbers that a run
    /// tells.
    pub fn new(sets: Vec<SetTrail>, puts: Vec<u64>) -> Trail {
        Trail {
            sets,
            puts,
            begun: 0,
            fired: None,
        }
    }

    /// Hears what is written: with the first byte the program begins.
    pub(crate) fn begin(&mut self, piece: &[u8]) {
        if !piece.is_empty() {
            self.begun = 1;
        }
    }

    /// Hears that a clause fired.
    pub(crate) fn fire(&mut self, fired: Fired) {
        self.fired = Some(fired);
    }

    /// The number of the line of the clause that fired last, until it leads to a state.
    pub(crate) fn expected(&self) -> Option<usize> {
        let fired = self.fired?;
        let clause = self.clause(fired.set, fired.state, fired.clause)?;
        Some(clause.line)
    }

    /// Hears of a transition.
    pub(crate) fn go(&mut self, transition: Went) {
        self.fired = None;
        if let Some(set) = self.sets.get_mut(transition.set) {
            set.go(transition);
        }
    }

    /// Hears of a put.
    pub(crate) fn put(&mut self, put: Put) {
        if let Some(puts) = self.puts.get_mut(put.channel) {
            count(puts);
        }
    }

    /// What became of a clause, by the numbers of its state set, its state and its own; None where there is no such clause.
    pub fn clause(&self, set: usize, state: usize, clause: usize) -> Option<ClauseTrail> {
        let state = self.sets.get(set)?.states.get(state)?;
        state.clauses.get(clause).copied()
    }

    /// How often a state was entered, by the numbers of its state set and its own. The first state of a state set is entered
    /// where the program begins.
    pub fn entered(&self, set: usize, state: usize) -> u64 {
        let begun = if state == 0 { self.begun } else { 0 };
        let Some(set) = self.sets.get(set) else {
            return 0;
        };
        match set.states.get(state) {
            Some(state) => state.entered.saturating_add(begun),
            None => 0,
        }
    }

    /// How many puts went to a channel, by its number; 0 where there is no such channel.
    pub fn puts(&self, channel: usize) -> u64 {
        match self.puts.get(channel) {
            Some(puts) => *puts,
            None => 0,
        }
    }

    /// How often the program began.
    pub fn begun(&self) -> u64 {
        self.begun
    }

    /// Adds what became of the same program in another run.
    pub fn add(&mut self, other: &Trail) {
        self.begun = self.begun.saturating_add(other.begun);
        add_all(&mut self.puts, other.puts.as_slice());
        for (number, set) in other.sets.iter().enumerate() {
            if let Some(mine) = self.sets.get_mut(number) {
                mine.add(set);
            }
        }
    }
}
