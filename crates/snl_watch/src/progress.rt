//! How far a run is: what of its trace was given to it, and whether its program has begun.

use crate::line_ends::count_lines;
use crate::zero::Zero;

/// What of a trace was given to a run, and whether its program has begun. The source tells the one, and the sink the other.
#[derive(Clone, Copy, Debug)]
pub struct Progress {
    /// How many lines were given.
    lines: u64,
    /// The date of 0 ms.
    zero: Zero,
    has_begun: bool,
}

impl Progress {
    /// Before the first line.
    pub fn new() -> Progress {
        Progress {
            lines: 0,
            zero: Zero::new(),
            has_begun: false,
        }
    }

    /// Lines are given, the last of them perhaps without a newline.
    pub(crate) fn give(&mut self, lines: &[u8]) {
        self.lines = self.lines.saturating_add(count_lines(lines));
    }

    /// The date of 0 ms, as far as the lines that were given tell it.
    pub(crate) fn date(&mut self, zero: Zero) {
        self.zero = zero;
    }

    /// The program has begun.
    pub(crate) fn begin(&mut self) {
        self.has_begun = true;
    }

    /// How many lines were given, and so the number of the last one.
    pub(crate) fn lines(&self) -> u64 {
        self.lines
    }

    /// The date of 0 ms, as far as the lines that were given tell it.
    pub(crate) fn zero(&self) -> Zero {
        self.zero
    }

    /// Whether the program has begun.
    pub(crate) fn has_begun(&self) -> bool {
        self.has_begun
    }
}
