//! What is asked for of a walk along a trace, and what comes of it.

use crate::history::RunHistory;
use snl_trace::End;
use snl_vm::Store;

/// What is asked for.
#[derive(Clone, Copy)]
pub enum Asked<'t> {
    /// What the program is at some times, in milliseconds, none before the one in front of it.
    Times(&'t [u64]),
    /// What it is where it faults.
    Trip,
    /// What it is where it came last into a state of a state set, by their numbers.
    Into(usize, usize),
}

/// The same, without the times.
#[derive(Clone, Copy, Debug, PartialEq, Eq)]
pub enum Sort {
    /// Some times.
    Times,
    /// Where it faults.
    Trip,
    /// Where it came last into a state.
    Into,
}

/// What a moment is.
#[derive(Clone, Copy, Debug, PartialEq, Eq)]
pub enum Kind {
    /// That of a time: all lines up to it were done, and all wakes.
    At(u64),
    /// That of a time which was not reached, since a line of the trace is bad: behind the line in front of that.
    Before(u64),
    /// That at which the program faulted.
    Trip,
    /// That at which it came into a state.
    Into,
}

/// What a program is at a moment.
#[derive(Drop)]
pub struct Moment {
    /// Which one it is.
    pub kind: Kind,
    /// All that a run changes, but for the names of channels and what links are tied to.
    pub store: Store,
    /// What was heard of the run up to then.
    pub heard: RunHistory,
}

/// How a walk ended.
#[derive(Clone, Copy, Debug, PartialEq, Eq)]
pub enum Close {
    /// All times that were asked for are told; the trace was read no further.
    Told,
    /// The trace came to its end, and so all times are told.
    Over,
    /// As the run ends, in front of that.
    Ended(End),
}
