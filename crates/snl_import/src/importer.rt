//! What logs say of channels, written as a trace.

mod beginning;
mod beside;

ghost use Rattle.std.specs.Prelude.{◌≡◌, ◌+◌, OnOk};
ghost use Rattle.snl_import.specs.Taken.{AreTaken};
ghost use Rattle.snl_import.specs.Trace.{AreEvents};

use crate::channels::Channels;
use crate::counts::{Counts, Left};
use crate::errors::ImportError;
use crate::happenings::Happening;
use crate::programs::Program;
use crate::recorder::Recorder;
use snl_logs::{Cause, LogLine, Row, Sample, SampleValue, Severity, Stamp, Values};
use std::alloc::Global;

/// Nanoseconds of a millisecond.
const MILLISECOND: u64 = 1_000_000;

/// Nanoseconds of a second.
const SECOND: u64 = 1_000_000_000;

/// How many milliseconds a time may be before that of the line in front of it, and nothing is told.
const USUAL: u64 = 10_000;

/// Where a trace begins.
#[derive(Clone, Copy, Debug, PartialEq, Eq)]
pub struct Begin {
    /// The time of 0 ms, in the nanoseconds of the logs.
    pub time: u64,
    /// Whether of what comes before it only the last value of each channel is written. Else all of that stands at 0 ms.
    pub is_cut: bool,
}

/// What logs say of channels, written as a trace. Whatever the lines of the logs are, each was understood or is counted, each of their
/// values is one `val` line or is counted as left out, and what was written are events that a run takes.
#[derive(Drop)]
pub struct Importer<P: Program> {
    alloc: Global,
    recorder: Recorder<P>,
    counts: Counts,
    channels: Channels,
    /// The values of the sample that is written.
    values: Values,
    /// The number of what is told beside it: an alarm, a time.
    beside: Values,
    begin: Begin,
    /// Whether the trace has not begun: values are held until it does.
    is_holding: bool,
    /// The second of the clock that was told last, where the clock is told.
    second: Option<u64>,
    /// How many samples had numbers.
    numbers: u64,
    /// How many times were more than some seconds before that of the line in front, and by how many milliseconds at most.
    late: u64,
    latest: u64,
    ghost agree: { counts.written ≡ recorder.written },
}

impl<P: Program + Drop> Importer<P> {
    /// Nothing was read. What is known of channels is theirs when the trace begins. What the program does not take is left out.
    pub fn new(alloc: Global, channels: Channels, begin: Begin, program: P) -> Importer<P>
        ensures program { result.recorder.program ≡ program }
        ensures first { result.recorder.first ≡ 0 }
        ensures before { result.recorder.before ≡ 0 }
        ensures lines { result.counts.lines ≡ 0 }
    {
        Importer {
            alloc,
            recorder: Recorder::new(alloc, program),
            counts: Counts::new(),
            channels,
            values: Values::new(alloc),
            beside: Values::new(alloc),
            begin,
            is_holding: true,
            second: None,
            numbers: 0,
            late: 0,
            latest: 0,
        }
    }

    /// Takes in a line of a log: what it says is written. An error leaves it counted, or not; what was written stays a trace.
    pub fn take(&mut self, line: LogLine) -> Result<(), ImportError>
        ensures lines { OnOk result (self.new.counts.lines ≡ self.old.counts.lines + 1) }
        ensures first { self.new.recorder.first ≡ self.old.recorder.first }
        ensures before { self.new.recorder.before ≡ self.old.recorder.before }
        ensures program { self.new.recorder.program ≡ self.old.recorder.program }
    {
        match line {
            LogLine::Sample(sample) => {
                self.counts = self.counts.with_understood()?;
                self.write_sample(&sample)
            }
            LogLine::Row(row) => {
                self.counts = self.counts.with_understood()?;
                self.write_row(row)
            }
            LogLine::Silent => {
                self.counts = self.counts.with_understood()?;
                Ok(())
            }
            LogLine::Unknown => {
                self.counts = self.counts.with_unknown()?;
                Ok(())
            }
        }
    }

    /// A time in the milliseconds of the trace. One that the log does not tell is that of the event before.
    fn ms_of(&self, stamp: Stamp) -> u64 {
        match stamp {
            Stamp::At(nanos) => nanos.saturating_sub(self.begin.time) / MILLISECOND,
            Stamp::Untold => 0,
        }
    }

    /// Notes a time that is far before that of the event in front.
    fn note_late(&mut self, stamp: Stamp)
        ensures counts { self.new.counts ≡ self.old.counts }
        ensures first { self.new.recorder.first ≡ self.old.recorder.first }
        ensures before { self.new.recorder.before ≡ self.old.recorder.before }
        ensures program { self.new.recorder.program ≡ self.old.recorder.program }
    {
        let Stamp::At(nanos) = stamp else {
            return;
        };
        let last = self.recorder.last().saturating_mul(MILLISECOND);
        let late = self.begin.time.saturating_add(last).saturating_sub(nanos) / MILLISECOND;
        if late > USUAL {
            self.late = self.late.saturating_add(1);
            self.latest = self.latest.max(late);
        }
    }

    /// Writes what a line of a table says.
    fn write_row(&mut self, row: Row) -> Result<(), ImportError>
        ensures lines { self.new.counts.lines ≡ self.old.counts.lines }
        ensures first { self.new.recorder.first ≡ self.old.recorder.first }
        ensures before { self.new.recorder.before ≡ self.old.recorder.before }
        ensures program { self.new.recorder.program ≡ self.old.recorder.program }
    {
        let mut row = row;
        while let Some(cell) = row.next_cell() {
            if let Some(sample) = cell {
                self.write_sample(&sample)?;
            }
        }
        Ok(())
    }

    /// Writes what a sample says. No line is counted.
    pub fn write_sample(&mut self, sample: &Sample) -> Result<(), ImportError>
        ensures lines { self.new.counts.lines ≡ self.old.counts.lines }
        ensures first { self.new.recorder.first ≡ self.old.recorder.first }
        ensures before { self.new.recorder.before ≡ self.old.recorder.before }
        ensures program { self.new.recorder.program ≡ self.old.recorder.program }
    {
        if self.is_holding && self.is_begun_by(sample.stamp) {
            self.begin()?;
        }
        match sample.said {
            SampleValue::Lost => self.write_lost(sample),
            SampleValue::Value(_, severity) | SampleValue::Items(_, severity) => self.write_said(
                sample, severity,
            ),
        }
    }

    /// Whether the trace begins at a time, or before.
    fn is_begun_by(&self, stamp: Stamp) -> bool {
        match stamp {
            Stamp::At(time) => !self.begin.is_cut || time >= self.begin.time,
            Stamp::Untold => !self.begin.is_cut,
        }
    }

    /// The channel of a sample is not connected: that is written, if it was.
    fn write_lost(&mut self, sample: &Sample) -> Result<(), ImportError>
        ensures lines { self.new.counts.lines ≡ self.old.counts.lines }
        ensures first { self.new.recorder.first ≡ self.old.recorder.first }
        ensures before { self.new.recorder.before ≡ self.old.recorder.before }
        ensures program { self.new.recorder.program ≡ self.old.recorder.program }
    {
        let Some(channel) = self.channels.channel(self.alloc, sample.name)? else {
            return Ok(());
        };
        let losses = channel.lose();
        if self.is_holding {
            return Ok(());
        }
        let ms = self.ms_of(sample.stamp);
        self.write_clock(ms)?;
        if losses.was_up {
            self.recorder.add(ms, sample.name, Happening::Down)?;
        }
        self.write_losses(ms, sample.name, losses)
    }

    /// Writes what a sample says that has a value, or holds that until the trace begins.
    fn write_said(&mut self, sample: &Sample, severity: Severity) -> Result<(), ImportError>
        ensures lines { self.new.counts.lines ≡ self.old.counts.lines }
        ensures first { self.new.recorder.first ≡ self.old.recorder.first }
        ensures before { self.new.recorder.before ≡ self.old.recorder.before }
        ensures program { self.new.recorder.program ≡ self.old.recorder.program }
    {
        let Some(channel) = self.channels.channel(self.alloc, sample.name)? else {
            return self.leave(Left::Unfit);
        };
        if channel.is_dropped() {
            channel.foreign = channel.foreign.saturating_add(1);
            self.numbers = self.numbers.saturating_add(1);
            return self.leave(Left::Foreign);
        }
        let news = channel.take(self.alloc, &sample.said, severity, &mut self.values)?;
        self.numbers = self.numbers.saturating_add(u64::from(news.why.is_none()));
        if self.is_holding {
            return self.hold(sample.name, news.why);
        }
        if !news.may_be_old {
            self.note_late(sample.stamp);
        }
        let ms = self.ms_of(sample.stamp);
        self.write_clock(ms)?;
        self.write_state(ms, sample.name, news)?;
        if news.tells_time {
            self.write_time(ms, sample.name, sample.stamp)?;
        }
        match news.why {
            Some(cause) => self.leave(Left::NoValue(cause)),
            None => self.write_values(ms, sample.name),
        }
    }

    /// Holds the values that were read until the trace begins, or counts why there are none.
    fn hold(&mut self, name: &[u8], why: Option<Cause>) -> Result<(), ImportError>
        ensures lines { self.new.counts.lines ≡ self.old.counts.lines }
        ensures first { self.new.recorder.first ≡ self.old.recorder.first }
        ensures before { self.new.recorder.before ≡ self.old.recorder.before }
        ensures program { self.new.recorder.program ≡ self.old.recorder.program }
    {
        if let Some(cause) = why {
            return self.leave(Left::NoValue(cause));
        }
        let Some(channel) = self.channels.channel(self.alloc, name)? else {
            return self.leave(Left::Unfit);
        };
        if channel.hold(self.alloc, self.values.as_slice())? {
            return self.leave(Left::Early);
        }
        Ok(())
    }

    /// Counts a value that is left out.
    fn leave(&mut self, left: Left) -> Result<(), ImportError>
        ensures lines { self.new.counts.lines ≡ self.old.counts.lines }
        ensures recorder { self.new.recorder ≡ self.old.recorder }
    {
        self.counts = self.counts.with_left(left)?;
        Ok(())
    }

    /// Writes the values that were read, or counts that they were left out.
    fn write_values(&mut self, ms: u64, name: &[u8]) -> Result<(), ImportError>
        ensures lines { self.new.counts.lines ≡ self.old.counts.lines }
        ensures first { self.new.recorder.first ≡ self.old.recorder.first }
        ensures before { self.new.recorder.before ≡ self.old.recorder.before }
        ensures program { self.new.recorder.program ≡ self.old.recorder.program }
    {
        let written = self.counts.with_written()?;
        if self
            .recorder
            .add(ms, name, Happening::Values(&self.values))?
        {
            self.counts = written;
            self.channels.note_written(name);
            Ok(())
        } else {
            let left = self.recorder.refusal(name, &self.values);
            self.channels.note_left(name, left, &self.values);
            self.leave(left)
        }
    }

    /// What was written since the text was taken the last time: events that a run takes.
    pub fn text(&self) -> &[u8]
        ensures value { result.now ≡ self.now.recorder.text.items }
        ensures events { AreEvents (self.now.recorder.first, self.now.recorder.before) result.now
            (self.now.recorder.last, self.now.counts.written) }
        ensures taken { AreTaken (P.taken self.now.recorder.program) result.now }
    {
        self.recorder.text()
    }

    /// Takes the text away, once it was handed on: what comes goes on behind it.
    pub fn clear(&mut self)
        ensures counts { self.new.counts ≡ self.old.counts }
        ensures first { self.new.recorder.first ≡ self.old.recorder.last }
        ensures before { self.new.recorder.before ≡ self.old.counts.written }
        ensures program { self.new.recorder.program ≡ self.old.recorder.program }
        ensures last { self.new.recorder.last ≡ self.old.recorder.last }
    {
        self.recorder.clear();
    }

    /// What was read of the channels.
    pub fn channels(&self) -> &Channels {
        &self.channels
    }

    /// How many lines were read, and what became of their values.
    pub fn counts(&self) -> Counts
        ensures { result ≡ self.now.counts }
    {
        self.counts
    }

    /// The time of the last event, in milliseconds.
    pub fn last(&self) -> u64
        ensures { result ≡ self.now.recorder.last }
    {
        self.recorder.last()
    }

    /// How many samples had numbers.
    pub fn numbers(&self) -> u64 {
        self.numbers
    }

    /// How many times were far before that of the line in front, and by how many milliseconds at most.
    pub fn lateness(&self) -> (u64, u64) {
        (self.late, self.latest)
    }
}
