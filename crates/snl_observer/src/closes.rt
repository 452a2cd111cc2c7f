//! How a program ends at a line, and how a run does that is watched.

use snl_machine::Fault;
use snl_trace::{End, TraceFault};

/// How a program ends at a line.
#[derive(Clone, Copy, Debug, PartialEq, Eq)]
pub enum Ending {
    /// It came to its end by itself.
    Exited,
    /// It faulted: with the line of its source that the fault is charged to.
    Faulted(Fault, usize),
    /// It can't take the line.
    Refused(TraceFault),
    /// What it wrote was not taken, or memory ended.
    Stopped,
}

/// How a run ends that is watched.
#[derive(Clone, Copy, Debug, PartialEq, Eq)]
pub enum Close {
    /// As the run of the program ends.
    Run(End),
    /// By a mistake of the requirement.
    Watch(Ending),
    /// The requirement came into a state that must not be: the number of that state among those that were named, from 0 on.
    Never(usize),
    /// Memory ran out.
    Memory,
}
