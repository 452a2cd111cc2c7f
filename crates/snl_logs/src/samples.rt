//! What a line of a log says.

use crate::rows::Row;

/// When something happened, as a log tells it.
#[derive(Clone, Copy, Debug, PartialEq, Eq)]
pub enum Stamp {
    /// Nanoseconds since 1970, or since the log begins.
    At(u64),
    /// The log tells no time: it is that of the line before.
    Untold,
}

impl Stamp {
    /// The same time by another clock, so many nanoseconds later or earlier.
    pub fn moved(self, nanos: i64) -> Stamp {
        match self {
            Stamp::At(time) => Stamp::At(time.saturating_add_signed(nanos)),
            Stamp::Untold => Stamp::Untold,
        }
    }
}

/// How severe an alarm is.
#[derive(Clone, Copy, Debug, PartialEq, Eq)]
pub enum Severity {
    /// No alarm.
    None,
    /// `MINOR`.
    Minor,
    /// `MAJOR`.
    Major,
    /// `INVALID`.
    Invalid,
}

/// What is said of a channel.
#[derive(Clone, Copy, Debug)]
pub enum SampleValue<'l> {
    /// Its value as the log spells it, and its alarm. Of several values their number comes first.
    Value(&'l [u8], Severity),
    /// Its values, with commas between them, and its alarm.
    Items(&'l [u8], Severity),
    /// It is not connected.
    Lost,
}

/// What a line says of a channel.
#[derive(Clone, Copy, Debug)]
pub struct Sample<'l> {
    /// The name of the channel.
    pub name: &'l [u8],
    /// When.
    pub stamp: Stamp,
    /// What.
    pub said: SampleValue<'l>,
}

impl<'l> Sample<'l> {
    /// The same by another clock, so many nanoseconds later or earlier.
    pub fn moved(self, nanos: i64) -> Sample<'l> {
        Sample {
            stamp: self.stamp.moved(nanos),
            ..self
        }
    }
}

/// A line of a log.
#[derive(Clone, Copy, Debug)]
pub enum LogLine<'l> {
    /// It says something of a channel.
    Sample(Sample<'l>),
    /// It says something of several channels.
    Row(Row<'l>),
    /// It says nothing, as a blank line or a heading.
    Silent,
    /// It is not understood.
    Unknown,
}

impl<'l> LogLine<'l> {
    /// The same line by another clock, so many nanoseconds later or earlier.
    pub fn moved(self, nanos: i64) -> LogLine<'l> {
        match self {
            LogLine::Sample(sample) => LogLine::Sample(sample.moved(nanos)),
            LogLine::Row(row) => LogLine::Row(row.moved(nanos)),
            LogLine::Silent | LogLine::Unknown => self,
        }
    }

    /// When what it says happened, in nanoseconds, if it tells that.
    pub fn time(&self) -> Option<u64> {
        let stamp = match self {
            LogLine::Sample(sample) => sample.stamp,
            LogLine::Row(row) => row.stamp(),
            LogLine::Silent | LogLine::Unknown => Stamp::Untold,
        };
        match stamp {
            Stamp::At(time) => Some(time),
            Stamp::Untold => None,
        }
    }
}

/// Why a value of a log is no number of a trace.
#[derive(Clone, Copy, Debug, PartialEq, Eq)]
pub enum Cause {
    /// It is `nan` or `inf`.
    NotFinite,
    /// It is beyond 64 bits.
    TooLarge,
    /// It is a text that stands for no number.
    NoNumber,
    /// It is an array or a text of no elements.
    Empty,
}
