//! What is known of a channel of logs.

use crate::roles::Role;
use snl_logs::{
    Cause, Pattern, Read, SampleValue, Scale, Severity, Units, Values, items_of, values_of,
};
use snl_units::{TextNumber, Unit};
use std::alloc::{AllocError, Global};

/// How many bytes of a text are held, to be told.
const SHOWN: usize = 60;

/// What is new by a sample of a channel.
#[derive(Clone, Copy, Debug, PartialEq, Eq)]
pub struct News {
    /// Whether the channel was not connected before.
    pub is_up: bool,
    /// Whether its time may be one of long ago: it is the first sample, or the first one since the channel was lost.
    pub may_be_old: bool,
    /// Its alarm, where that is told and another one than before.
    pub alarm: Option<Severity>,
    /// Whether its time is told.
    pub tells_time: bool,
    /// Why the sample has no number, if it has none.
    pub why: Option<Cause>,
}

/// What is lost where a channel is not connected any more.
#[derive(Clone, Copy, Debug, PartialEq, Eq)]
pub struct Losses {
    /// Whether the channel was connected before.
    pub was_up: bool,
    /// Whether its alarm was told.
    pub had_alarm: bool,
    /// Whether its time is told.
    pub tells_time: bool,
}

/// What is known of a channel.
#[derive(Drop)]
pub struct Channel {
    /// Its units.
    pub units: Units,
    /// Whether it is connected, as far as the logs told.
    pub is_up: bool,
    /// The alarm that was told last; None where none was, or the channel was lost since.
    pub alarm: Option<Severity>,
    /// How many of its values were rounded.
    pub rounded: u64,
    /// The first of its texts that stands for no number.
    pub unknown: Option<Vec<u8>>,
    /// What its first sample has in the place of a value, as `nan`, where it has none.
    pub unread: Option<Vec<u8>>,
    /// What it is to the program that the trace is made for.
    pub role: Role,
    /// How many of its values were left out, since the program does not have it.
    pub foreign: u64,
    /// The first number of those values that the variables of the program cannot hold.
    pub misfit: Option<i64>,
    /// Whether a value of it was written.
    pub is_written: bool,
    /// Whether its alarm is told, as a channel of its own.
    pub tells_alarm: bool,
    /// Whether its time is told, as a channel of its own.
    pub tells_time: bool,
    /// Whether a sample was read, and whether one had a value, or the call gives one.
    is_seen: bool,
    is_valued: bool,
    /// Its last value before the trace begins, until that is written.
    held: Option<Vec<i64>>,
}

/// Puts the values that a sample spells into `values`.
fn values_in(said: &SampleValue, units: &Units, values: &mut Values) -> Result<Read, AllocError> {
    match said {
        SampleValue::Value(text, _) => values_of(text, units, values),
        SampleValue::Items(text, _) => items_of(text, units, values),
        SampleValue::Lost => Ok(Err(Cause::Empty)),
    }
}

/// Puts numbers into `values`. Answers whether there are some.
fn fill(values: &mut Values, numbers: &[i64]) -> Result<bool, AllocError> {
    values.clear();
    for number in numbers {
        values.push(*number)?;
    }
    Ok(!numbers.is_empty())
}

/// The bytes of a text that are told.
fn front_of(text: &[u8]) -> &[u8] {
    &text[..text.len().min(SHOWN)]
}

/// The text of a sample.
fn text_in<'l>(said: &SampleValue<'l>) -> &'l [u8] {
    match *said {
        SampleValue::Value(text, _) | SampleValue::Items(text, _) => text,
        SampleValue::Lost => b"",
    }
}

/// The pieces of a pattern, once more.
fn pattern_of(alloc: Global, pieces: &[Vec<u8>]) -> Result<Pattern, AllocError> {
    let mut all = Vec::new(alloc);
    for piece in pieces {
        all.push(Vec::from_slice(alloc, piece.as_slice())?)?;
    }
    Ok(Pattern::new(all))
}

/// Lets texts stand for numbers.
fn add_numbers(alloc: Global, units: &mut Units, numbers: &[TextNumber]) -> Result<(), AllocError> {
    for one in numbers {
        units.add(alloc, one.text.as_slice(), one.number)?;
    }
    Ok(())
}

impl Channel {
    /// A channel of which nothing was read.
    pub fn new(alloc: Global, role: Role) -> Channel {
        Channel {
            units: Units::new(alloc),
            is_up: false,
            alarm: None,
            rounded: 0,
            unknown: None,
            unread: None,
            role,
            foreign: 0,
            misfit: None,
            is_written: false,
            tells_alarm: false,
            tells_time: false,
            is_seen: false,
            is_valued: false,
            held: None,
        }
    }

    /// Notes what a file of units says of its values.
    pub fn set_unit(&mut self, alloc: Global, unit: &Unit) -> Result<(), AllocError> {
        match unit {
            Unit::Scale(top, bottom) => self.units.scale = Scale::of_ratio(*top, *bottom),
            Unit::Text(pieces) => {
                self.units.pattern = Some(pattern_of(alloc, pieces.as_slice())?);
            }
            Unit::Enum(numbers) => {
                return add_numbers(alloc, &mut self.units, numbers.as_slice());
            }
            Unit::Severity | Unit::Time => {}
        }
        Ok(())
    }

    /// Notes that it is not connected.
    pub fn lose(&mut self) -> Losses {
        let losses = Losses {
            was_up: self.is_up,
            had_alarm: self.alarm.is_some(),
            tells_time: self.tells_time,
        };
        self.is_up = false;
        self.is_seen = true;
        self.alarm = None;
        losses
    }

    /// Notes a sample with its alarm; its values are put into `values`.
    pub fn take(
        &mut self,
        alloc: Global,
        said: &SampleValue,
        severity: Severity,
        values: &mut Values,
    ) -> Result<News, AllocError> {
        let is_up = !self.is_up;
        let may_be_old = is_up || !self.is_seen;
        self.is_up = true;
        self.is_seen = true;
        Ok(News {
            is_up,
            may_be_old,
            alarm: self.new_alarm(severity),
            tells_time: self.tells_time,
            why: self.read(alloc, said, values)?,
        })
    }

    /// Notes an alarm, if that is told; answers it where it is another one than before.
    fn new_alarm(&mut self, severity: Severity) -> Option<Severity> {
        if !self.tells_alarm || self.alarm == Some(severity) {
            return None;
        }
        self.alarm = Some(severity);
        self.alarm
    }

    /// Puts the values of a sample into `values`; answers why there is none where there is none.
    fn read(
        &mut self,
        alloc: Global,
        said: &SampleValue,
        values: &mut Values,
    ) -> Result<Option<Cause>, AllocError> {
        match values_in(said, &self.units, values)? {
            Ok(is_cut) => {
                self.rounded = self.rounded.saturating_add(u64::from(is_cut));
                self.is_valued = true;
                Ok(None)
            }
            Err(cause) => {
                self.note_unread(alloc, cause, text_in(said))?;
                Ok(Some(cause))
            }
        }
    }

    /// Notes a text that has no value: the first one that stands for no number, and what stands before all values.
    fn note_unread(&mut self, alloc: Global, cause: Cause, text: &[u8]) -> Result<(), AllocError> {
        if cause == Cause::NoNumber {
            if self.unknown.is_none() {
                self.unknown = Some(Vec::from_slice(alloc, text)?);
            }
        } else if !self.is_valued && self.unread.is_none() {
            self.unread = Some(Vec::from_slice(alloc, front_of(text))?);
        }
        Ok(())
    }

    /// Gives it a value, with which it is connected when the trace begins.
    pub fn give(&mut self, alloc: Global, value: i64) -> Result<(), AllocError> {
        self.is_up = true;
        self.is_valued = true;
        self.hold(alloc, &[value])?;
        Ok(())
    }

    /// Whether nothing that is read of it is written.
    pub fn is_dropped(&self) -> bool {
        self.role == Role::Foreign && !self.tells_alarm && !self.tells_time
    }

    /// Whether the program begins with a value of it, and none was written.
    pub fn lacks_value(&self) -> bool {
        self.role == Role::Monitored && !self.is_written
    }

    /// The channel of a name as it is when the trace begins; the value that was held stands in `values` then.
    pub fn begun(&mut self, name: Vec<u8>, values: &mut Values) -> Result<Begun, AllocError> {
        let (is_up, alarm) = (self.is_up, self.alarm);
        let has_value = match self.held.take() {
            Some(held) => fill(values, held.as_slice())?,
            None => false,
        };
        Ok(Begun {
            name,
            is_up,
            alarm,
            tells_time: self.tells_time,
            has_value,
        })
    }

    /// Holds values until the trace begins. Answers whether others were held, in whose place they are.
    pub fn hold(&mut self, alloc: Global, values: &[i64]) -> Result<bool, AllocError> {
        let held = Vec::from_slice(alloc, values)?;
        let were_others = self.held.is_some();
        self.held = Some(held);
        Ok(were_others)
    }
}

/// A channel as it is when the trace begins.
#[derive(Drop)]
pub struct Begun {
    /// Its name.
    pub name: Vec<u8>,
    /// Whether it is connected.
    pub is_up: bool,
    /// Its alarm, where that is told.
    pub alarm: Option<Severity>,
    /// Whether its time is told.
    pub tells_time: bool,
    /// Whether it has a value.
    pub has_value: bool,
}
