//! The begin of a trace, and the clock.

ghost use Rattle.std.specs.Prelude.{◌≡◌};

use super::{Importer, MILLISECOND, SECOND};
use crate::channel::{Begun, News};
use crate::counts::Left;
use crate::errors::ImportError;
use crate::happenings::Happening;
use crate::programs::Program;

/// The most seconds of the clock that are told between two events.
const SECONDS: u64 = 1_000_000;

/// The channel of the clock.
const CLOCK: &[u8] = b"CLOCK";

impl<P: Program + Drop> Importer<P> {
    /// Begins the trace: each channel that is connected is so at 0 ms, and has the value that it had last. Behind all logs, where they
    /// end before that time.
    pub fn begin(&mut self) -> Result<(), ImportError>
        ensures lines { self.new.counts.lines ≡ self.old.counts.lines }
        ensures first { self.new.recorder.first ≡ self.old.recorder.first }
        ensures before { self.new.recorder.before ≡ self.old.recorder.before }
        ensures program { self.new.recorder.program ≡ self.old.recorder.program }
    {
        if !self.is_holding {
            return Ok(());
        }
        self.is_holding = false;
        self.begin_clock()?;
        for place in 0..self.channels.len() {
            self.begin_at(place)?;
        }
        Ok(())
    }

    /// The clock begins, where it is told.
    fn begin_clock(&mut self) -> Result<(), ImportError>
        ensures lines { self.new.counts.lines ≡ self.old.counts.lines }
        ensures first { self.new.recorder.first ≡ self.old.recorder.first }
        ensures before { self.new.recorder.before ≡ self.old.recorder.before }
        ensures program { self.new.recorder.program ≡ self.old.recorder.program }
    {
        if !self.channels.tells_clock() {
            return Ok(());
        }
        let second = self.begin.time / SECOND;
        self.recorder.add(0, CLOCK, Happening::Up)?;
        self.second = Some(second);
        self.write_beside(0, CLOCK, second)
    }

    /// Tells each second of the clock up to a time, where it is told.
    pub(super) fn write_clock(&mut self, ms: u64) -> Result<(), ImportError>
        ensures lines { self.new.counts.lines ≡ self.old.counts.lines }
        ensures first { self.new.recorder.first ≡ self.old.recorder.first }
        ensures before { self.new.recorder.before ≡ self.old.recorder.before }
        ensures program { self.new.recorder.program ≡ self.old.recorder.program }
    {
        let Some(told) = self.second else {
            return Ok(());
        };
        let time = self
            .begin
            .time
            .saturating_add(ms.saturating_mul(MILLISECOND));
        let now = time / SECOND;
        let first = told.saturating_add(1).max(now.saturating_sub(SECONDS));
        for second in first..now.saturating_add(1) {
            let time = second.saturating_mul(SECOND);
            let ms = time.saturating_sub(self.begin.time) / MILLISECOND;
            self.write_beside(ms, CLOCK, second)?;
        }
        self.second = Some(told.max(now));
        Ok(())
    }

    /// The channel at a place begins.
    fn begin_at(&mut self, place: usize) -> Result<(), ImportError>
        ensures lines { self.new.counts.lines ≡ self.old.counts.lines }
        ensures first { self.new.recorder.first ≡ self.old.recorder.first }
        ensures before { self.new.recorder.before ≡ self.old.recorder.before }
        ensures program { self.new.recorder.program ≡ self.old.recorder.program }
    {
        let Some(begun) = self.channels.begun(self.alloc, place, &mut self.values)? else {
            return Ok(());
        };
        if begun.is_up {
            self.write_begun(&begun)
        } else if begun.has_value {
            self.leave(Left::Early)
        } else {
            Ok(())
        }
    }

    /// Writes that a channel is connected, its alarm and its value.
    fn write_begun(&mut self, begun: &Begun) -> Result<(), ImportError>
        ensures lines { self.new.counts.lines ≡ self.old.counts.lines }
        ensures first { self.new.recorder.first ≡ self.old.recorder.first }
        ensures before { self.new.recorder.before ≡ self.old.recorder.before }
        ensures program { self.new.recorder.program ≡ self.old.recorder.program }
    {
        let name = begun.name.as_slice();
        let news = News {
            is_up: true,
            may_be_old: true,
            alarm: begun.alarm,
            tells_time: begun.tells_time,
            why: None,
        };
        self.write_state(0, name, news)?;
        if begun.has_value {
            self.write_values(0, name)
        } else {
            Ok(())
        }
    }
}
