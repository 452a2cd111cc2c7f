//! The last lines of a run that is watched, for what is told of its end.

use std::alloc::{AllocError, Global};
use std::mem;

/// The last three lines that a program wrote, the line of the trace at which its run ended, and a line that the requirement could
/// not take.
#[derive(Drop)]
pub(crate) struct Trail {
    /// The oldest first.
    first: Vec<u8>,
    second: Vec<u8>,
    third: Vec<u8>,
    at: Vec<u8>,
    refused: Vec<u8>,
    /// Whether one of them is missing, since memory was refused.
    ran_out: bool,
}

/// Puts a text in the place of another. Where memory is refused, none stands there.
fn replace(place: &mut Vec<u8>, text: &[u8]) -> Result<(), AllocError> {
    place.clear();
    place.extend_from_slice(text)
}

impl Trail {
    /// Nothing was written yet.
    pub(crate) fn new(alloc: Global) -> Self {
        Trail {
            first: Vec::new(alloc),
            second: Vec::new(alloc),
            third: Vec::new(alloc),
            at: Vec::new(alloc),
            refused: Vec::new(alloc),
            ran_out: false,
        }
    }

    /// Notes a line that the program wrote.
    pub(crate) fn note(&mut self, line: &[u8]) {
        mem::swap(&mut self.first, &mut self.second);
        mem::swap(&mut self.second, &mut self.third);
        if replace(&mut self.third, line).is_err() {
            self.ran_out = true;
        }
    }

    /// Notes the line of the trace at which the run ended.
    pub(crate) fn end_at(&mut self, line: &[u8]) {
        if replace(&mut self.at, line).is_err() {
            self.ran_out = true;
        }
    }

    /// Notes a line that the requirement could not take.
    pub(crate) fn refuse(&mut self, line: &[u8]) {
        if replace(&mut self.refused, line).is_err() {
            self.ran_out = true;
        }
    }

    /// Whether a line is missing, since memory was refused.
    pub(crate) fn ran_out(&self) -> bool {
        self.ran_out
    }

    /// The last lines, the oldest first; an empty one is none.
    pub(crate) fn lines(&self) -> [&[u8]; 3] {
        [
            self.first.as_slice(),
            self.second.as_slice(),
            self.third.as_slice(),
        ]
    }

    /// The line of the trace at which the run ended.
    pub(crate) fn at(&self) -> &[u8] {
        self.at.as_slice()
    }

    /// The line that the requirement could not take.
    pub(crate) fn refused(&self) -> &[u8] {
        self.refused.as_slice()
    }
}
