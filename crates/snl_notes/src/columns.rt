//! The columns of the places of notes: each is counted on from the one before.

ghost use Rattle.snl_lints.specs.Columns.{IsCounted};

use snl_lints::{Counted, column_at};

/// A source, and the place of it whose column was counted last.
#[derive(Drop)]
pub struct Columns<'s> {
    source: &'s [u8],
    last: Counted,
    ghost counted: { IsCounted source.now last },
}

impl<'s> Columns<'s> {
    /// Those of a source, of which none was counted.
    pub fn new(source: &'s [u8]) -> Columns<'s> {
        Columns {
            source,
            last: Counted::start(),
        }
    }

    /// The column at an offset, in bytes from 1 on: quick where it does not stand in front of the last one.
    pub fn column(&mut self, offset: usize) -> usize {
        self.last = column_at(self.source, self.last, offset);
        self.last.column
    }
}
