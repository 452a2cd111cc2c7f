//! A line of a table: a time, and a value for each of several channels.

ghost use Rattle.std.specs.Prelude.{◌<◌, length, IfSome};

use crate::fields::{first_field, unquoted};
use crate::samples::{Sample, SampleValue, Severity, Stamp};

/// A line of a table: a time, and a cell for each column.
#[derive(Clone, Copy, Debug)]
pub struct Row<'l> {
    stamp: Stamp,
    /// The channels of the columns that are left.
    columns: &'l [Vec<u8>],
    /// Their cells.
    cells: &'l [u8],
    /// What stands between cells.
    mark: u8,
}

impl<'l> Row<'l> {
    /// The cells of columns at a time.
    pub fn new(stamp: Stamp, columns: &'l [Vec<u8>], cells: &'l [u8], mark: u8) -> Row<'l> {
        Row {
            stamp,
            columns,
            cells,
            mark,
        }
    }

    /// The same row by another clock, so many nanoseconds later or earlier.
    pub fn moved(self, nanos: i64) -> Row<'l> {
        Row {
            stamp: self.stamp.moved(nanos),
            ..self
        }
    }

    /// When.
    pub fn stamp(&self) -> Stamp {
        self.stamp
    }

    /// What the next column says: its channel has the value of its cell, or nothing is said of it. None behind the last column.
    pub fn next_cell(&mut self) -> Option<Option<Sample<'l>>>
        ensures { IfSome result (λ cell.
            length self.new.columns.now < length self.old.columns.now) }
    {
        let (name, columns) = self.columns.split_first()?;
        let (cell, cells) = match first_field(self.cells, self.mark) {
            Some(cut) => cut,
            None => (self.cells, &self.cells[self.cells.len()..]),
        };
        self.columns = columns;
        self.cells = cells;
        Some(sample_of(name.as_slice(), self.stamp, unquoted(cell)))
    }
}

/// What a cell says of a channel, if it has a value.
fn sample_of<'l>(name: &'l [u8], stamp: Stamp, cell: &'l [u8]) -> Option<Sample<'l>> {
    if name.is_empty() || cell.is_empty() || cell == b"#N/A".as_slice() {
        return None;
    }
    Some(Sample {
        name,
        stamp,
        said: SampleValue::Value(cell, Severity::None),
    })
}
