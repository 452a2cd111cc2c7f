//! Values that a person gives, as the whole numbers of a trace.

ghost use Rattle.std.specs.Prelude.{◌≡◌, IfOk};
ghost use Rattle.snl_units.specs.Values as spec;

use crate::exact::scaled;
use crate::faults::ValueFault;
use crate::same::number_in;
use crate::units::{ChannelUnits, Unit};

/// The number of the word of an alarm, if it is one.
fn alarm_in(text: &[u8]) -> Option<i64>
    ensures { result ≡ spec.alarm_in text.now }
{
    if text == b"NO_ALARM".as_slice() {
        Some(0)
    } else if text == b"MINOR".as_slice() {
        Some(1)
    } else if text == b"MAJOR".as_slice() {
        Some(2)
    } else if text == b"INVALID".as_slice() {
        Some(3)
    } else {
        None
    }
}

/// The number that a unit gives a text, if it does.
pub(crate) fn number_by(unit: &Unit, text: &[u8]) -> Option<i64>
    ensures { result ≡ spec.number_by unit.now text.now }
{
    match unit {
        Unit::Enum(numbers) => number_in(numbers.as_slice(), text),
        Unit::Severity => alarm_in(text),
        Unit::Scale(_, _) | Unit::Text(_) | Unit::Time => None,
    }
}

/// The number that what is said of one channel gives a text of that of a name, if it does.
fn number_of(one: &ChannelUnits, name: &[u8], text: &[u8]) -> Option<i64>
    ensures { result ≡ spec.number_of one.now name.now text.now }
{
    if one.name.as_slice() == name {
        number_by(&one.unit, text)
    } else {
        None
    }
}

/// The number that units give a text of a channel, if they do.
pub(crate) fn text_number(units: &[ChannelUnits], name: &[u8], text: &[u8]) -> Option<i64>
    ensures { result ≡ spec.text_number units.now name.now text.now }
{
    for one in units {
        if let Some(number) = number_of(one, name, text) {
            return Some(number);
        }
    }
    None
}

/// By what a unit multiplies and divides, if it does.
pub(crate) fn scale_by(unit: &Unit) -> Option<(u64, u64)>
    ensures { result ≡ spec.scale_by unit.now }
{
    match unit {
        Unit::Scale(top, bottom) => Some((*top, *bottom)),
        Unit::Enum(_) | Unit::Severity | Unit::Text(_) | Unit::Time => None,
    }
}

/// By what that which is said of one channel multiplies and divides the numbers of that of a name, if it does.
fn scale_of(one: &ChannelUnits, name: &[u8]) -> Option<(u64, u64)>
    ensures { result ≡ spec.scale_of one.now name.now }
{
    if one.name.as_slice() == name {
        scale_by(&one.unit)
    } else {
        None
    }
}

/// By what units multiply and divide the numbers of a channel, if they do.
fn scale_told(units: &[ChannelUnits], name: &[u8]) -> Option<(u64, u64)>
    ensures { result ≡ spec.scale_told units.now name.now }
{
    for one in units {
        if let Some(scale) = scale_of(one, name) {
            return Some(scale);
        }
    }
    None
}

/// By what units multiply and divide the numbers of a channel: by 1, where they do not say.
fn scale_in(units: &[ChannelUnits], name: &[u8]) -> (u64, u64)
    ensures { result ≡ spec.scale_in units.now name.now }
{
    scale_told(units, name).unwrap_or((1, 1))
}

/// Whether units say something of a channel.
pub(crate) fn are_of(units: &[ChannelUnits], name: &[u8]) -> bool {
    units.iter().any(|one| one.name.as_slice() == name)
}

/// The whole number of a trace that a value of a channel is: the number of its text, where the units give it one, or else the decimal
/// number, exactly in the channel's unit.
///
/// `NoNumber` where it is neither; `NotWhole` where it is no whole number in that unit, since nothing is rounded; `TooLarge` where that
/// is beyond 64 bits, or the text has more digits than are read.
pub fn value_of(units: &[ChannelUnits], name: &[u8], text: &[u8]) -> Result<i64, ValueFault>
    ensures { IfOk result (λ n. spec.IsValue units.now name.now text.now n) }
{
    match text_number(units, name, text) {
        Some(number) => Ok(number),
        None => {
            let (top, bottom) = scale_in(units, name);
            scaled(text, top, bottom)
        }
    }
}
