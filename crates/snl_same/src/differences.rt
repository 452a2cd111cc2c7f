//! What two runs differ in, and how a comparison ends.

use snl_trace::End;

/// How two runs are apart at a line of a trace.
#[derive(Debug, Drop)]
pub enum Apart {
    /// The first two lines of the output, at one place, that differ, without their newlines; None where a run wrote no more there.
    Lines(Option<Vec<u8>>, Option<Vec<u8>>),
    /// They wrote the same, and do not end alike: one ends and the other does not, or each ends in its own way.
    Ends,
}

/// Where two runs differ first.
#[derive(Debug, Drop)]
pub struct Difference {
    /// The number of the line of the trace, from 1.
    pub number: u128,
    /// How they are apart there.
    pub apart: Apart,
}

/// How a comparison ended.
#[derive(Clone, Copy, Debug, PartialEq, Eq)]
pub enum Close {
    /// The trace came to its end first.
    TraceEnded,
    /// A run ended, or both: how the old one did, and the new one; None where it goes on.
    RunEnded(Option<End>, Option<End>),
    /// The line of this number, from 1, has more bytes than a line of a trace may have.
    LineTooLong(u128),
    /// No more of the trace could be read.
    SourceFailed,
}
