//! Where a trace of logs begins.

ghost use Rattle.std.specs.Prelude.{◌≡◌};
ghost use Rattle.snl_import.specs.Opening as spec;

use indexmap::IndexSet;
use snl_logs::{LogLine, Row, Sample, Stamp};
use std::alloc::{AllocError, Global};

/// The first samples of logs, from which it follows where the trace begins: a first value has the time at which it came about, perhaps
/// days ago, and stands at the begin then.
#[derive(Drop)]
pub struct Opening {
    seen: IndexSet<Vec<u8>>,
    /// The earliest first sample of a channel, in nanoseconds.
    first: u64,
    /// The latest one.
    latest: u64,
    /// The earliest sample that is not the first of its channel.
    second: Option<u64>,
}

impl Opening {
    /// Nothing was read.
    pub fn new(alloc: Global) -> Opening {
        Opening {
            seen: IndexSet::new(alloc),
            first: u64::MAX,
            latest: 0,
            second: None,
        }
    }

    /// Takes in a line of a log. Behind the first sample of a channel that is not its first one, lines change nothing.
    pub fn look(&mut self, alloc: Global, line: &LogLine) -> Result<(), AllocError> {
        match line {
            LogLine::Sample(sample) => self.look_at(alloc, sample),
            LogLine::Row(row) => self.look_along(alloc, *row),
            LogLine::Silent | LogLine::Unknown => Ok(()),
        }
    }

    /// Takes in a line of a table.
    fn look_along(&mut self, alloc: Global, row: Row) -> Result<(), AllocError> {
        let mut row = row;
        while let Some(cell) = row.next_cell() {
            if let Some(sample) = cell {
                self.look_at(alloc, &sample)?;
            }
        }
        Ok(())
    }

    /// Whether nothing that comes changes the begin.
    pub fn is_over(&self) -> bool {
        self.second.is_some()
    }

    /// Takes in a sample.
    fn look_at(&mut self, alloc: Global, sample: &Sample) -> Result<(), AllocError> {
        let Stamp::At(time) = sample.stamp else {
            return Ok(());
        };
        if self.is_over() {
            return Ok(());
        }
        if self.seen.contains(sample.name) {
            self.second = Some(time);
            return Ok(());
        }
        self.first = self.first.min(time);
        self.latest = self.latest.max(time);
        self.seen.insert(Vec::from_slice(alloc, sample.name)?)?;
        Ok(())
    }

    /// Where the trace begins, in nanoseconds: at most `lead` of them before something changed.
    pub fn begin(&self, lead: u64) -> u64
        ensures { result ≡ spec.begin_of self.now.first self.now.second self.now.latest lead }
    {
        match self.second {
            Some(second) => self.first.max(second.saturating_sub(lead)),
            None => self.latest,
        }
    }

    /// What was seen of several logs, together.
    pub fn join(&mut self, other: &Opening)
        ensures { self.new.second ≡ spec.earlier self.old.second other.now.second }
    {
        self.first = self.first.min(other.first);
        self.latest = self.latest.max(other.latest);
        self.second = earlier(self.second, other.second);
    }
}

/// The earlier one of two times, of which there may be none.
fn earlier(left: Option<u64>, right: Option<u64>) -> Option<u64>
    ensures { result ≡ spec.earlier left right }
{
    match (left, right) {
        (Some(left), Some(right)) => Some(left.min(right)),
        (Some(time), None) | (None, Some(time)) => Some(time),
        (None, None) => None,
    }
}
