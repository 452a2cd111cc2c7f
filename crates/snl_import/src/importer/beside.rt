//! What is written beside the values of a channel: that it is connected or not, its alarm and its time, as channels of their own.

ghost use Rattle.std.specs.Prelude.{◌≡◌};

use super::{Importer, MILLISECOND, SECOND};
use crate::channel::{Losses, News};
use crate::errors::ImportError;
use crate::happenings::Happening;
use crate::programs::Program;
use snl_logs::{Severity, Stamp};
use std::alloc::{AllocError, Global};

/// What stands behind the name of a channel, of its alarm and of its time.
const ALARM: &[u8] = b".SEVR";

const TIME: &[u8] = b".TIME";

/// The number of an alarm.
fn number_of(severity: Severity) -> u64 {
    match severity {
        Severity::None => 0,
        Severity::Minor => 1,
        Severity::Major => 2,
        Severity::Invalid => 3,
    }
}

/// The name of a channel that tells something of another one.
fn with_suffix(alloc: Global, name: &[u8], suffix: &[u8]) -> Result<Vec<u8>, AllocError> {
    let mut suffixed = Vec::from_slice(alloc, name)?;
    suffixed.extend_from_slice(suffix)?;
    Ok(suffixed)
}

impl<P: Program + Drop> Importer<P> {
    /// Writes that the channels of an alarm and of a time are not connected, which are told of another one.
    pub(super) fn write_losses(
        &mut self,
        ms: u64,
        name: &[u8],
        losses: Losses,
    ) -> Result<(), ImportError>
        ensures lines { self.new.counts.lines ≡ self.old.counts.lines }
        ensures first { self.new.recorder.first ≡ self.old.recorder.first }
        ensures before { self.new.recorder.before ≡ self.old.recorder.before }
        ensures program { self.new.recorder.program ≡ self.old.recorder.program }
    {
        if losses.had_alarm {
            let alarm = with_suffix(self.alloc, name, ALARM)?;
            self.recorder.add(ms, alarm.as_slice(), Happening::Down)?;
        }
        if losses.was_up && losses.tells_time {
            let time = with_suffix(self.alloc, name, TIME)?;
            self.recorder.add(ms, time.as_slice(), Happening::Down)?;
        }
        Ok(())
    }

    /// Writes that a channel is connected, where that is new.
    fn write_up(&mut self, ms: u64, name: &[u8], is_up: bool) -> Result<(), ImportError>
        ensures lines { self.new.counts.lines ≡ self.old.counts.lines }
        ensures first { self.new.recorder.first ≡ self.old.recorder.first }
        ensures before { self.new.recorder.before ≡ self.old.recorder.before }
        ensures program { self.new.recorder.program ≡ self.old.recorder.program }
    {
        if is_up {
            self.recorder.add(ms, name, Happening::Up)?;
        }
        Ok(())
    }

    /// Writes an alarm, with that its channel is connected, where that is new.
    fn write_alarm(
        &mut self,
        ms: u64,
        name: &[u8],
        alarm: Severity,
        is_up: bool,
    ) -> Result<(), ImportError>
        ensures lines { self.new.counts.lines ≡ self.old.counts.lines }
        ensures first { self.new.recorder.first ≡ self.old.recorder.first }
        ensures before { self.new.recorder.before ≡ self.old.recorder.before }
        ensures program { self.new.recorder.program ≡ self.old.recorder.program }
    {
        let name = with_suffix(self.alloc, name, ALARM)?;
        self.write_up(ms, name.as_slice(), is_up)?;
        self.write_beside(ms, name.as_slice(), number_of(alarm))
    }

    /// Writes that the channel of a time is connected.
    fn write_time_up(&mut self, ms: u64, name: &[u8]) -> Result<(), ImportError>
        ensures lines { self.new.counts.lines ≡ self.old.counts.lines }
        ensures first { self.new.recorder.first ≡ self.old.recorder.first }
        ensures before { self.new.recorder.before ≡ self.old.recorder.before }
        ensures program { self.new.recorder.program ≡ self.old.recorder.program }
    {
        let name = with_suffix(self.alloc, name, TIME)?;
        self.write_up(ms, name.as_slice(), true)
    }

    /// Writes that a channel is connected, with those that are told beside it, and its alarm, where that is new.
    pub(super) fn write_state(
        &mut self,
        ms: u64,
        name: &[u8],
        news: News,
    ) -> Result<(), ImportError>
        ensures lines { self.new.counts.lines ≡ self.old.counts.lines }
        ensures first { self.new.recorder.first ≡ self.old.recorder.first }
        ensures before { self.new.recorder.before ≡ self.old.recorder.before }
        ensures program { self.new.recorder.program ≡ self.old.recorder.program }
    {
        self.write_up(ms, name, news.is_up)?;
        if let Some(alarm) = news.alarm {
            self.write_alarm(ms, name, alarm, news.is_up)?;
        }
        if news.is_up && news.tells_time {
            return self.write_time_up(ms, name);
        }
        Ok(())
    }

    /// Writes the time of a value, in seconds since 1970, as the value of a channel.
    pub(super) fn write_time(
        &mut self,
        ms: u64,
        name: &[u8],
        stamp: Stamp,
    ) -> Result<(), ImportError>
        ensures lines { self.new.counts.lines ≡ self.old.counts.lines }
        ensures first { self.new.recorder.first ≡ self.old.recorder.first }
        ensures before { self.new.recorder.before ≡ self.old.recorder.before }
        ensures program { self.new.recorder.program ≡ self.old.recorder.program }
    {
        let time = match stamp {
            Stamp::At(time) => time,
            Stamp::Untold => self
                .begin
                .time
                .saturating_add(self.recorder.last().saturating_mul(MILLISECOND)),
        };
        let name = with_suffix(self.alloc, name, TIME)?;
        self.write_beside(ms, name.as_slice(), time / SECOND)
    }

    /// Writes what is told beside a value, as the value of a channel.
    pub(super) fn write_beside(
        &mut self,
        ms: u64,
        name: &[u8],
        number: u64,
    ) -> Result<(), ImportError>
        ensures lines { self.new.counts.lines ≡ self.old.counts.lines }
        ensures first { self.new.recorder.first ≡ self.old.recorder.first }
        ensures before { self.new.recorder.before ≡ self.old.recorder.before }
        ensures program { self.new.recorder.program ≡ self.old.recorder.program }
    {
        self.beside.clear();
        self.beside.push(i64::try_from(number).unwrap_or(i64::MAX))?;
        let written = self.counts.with_written()?;
        if self
            .recorder
            .add(ms, name, Happening::Values(&self.beside))?
        {
            self.counts = written;
            self.channels.note_written(name);
            Ok(())
        } else {
            let left = self.recorder.refusal(name, &self.beside);
            self.leave(left)
        }
    }
}
