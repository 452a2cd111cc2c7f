//! Numbers of a trace, as what they stand for.

ghost use Rattle.std.specs.Prelude.{IfSome, IfOk};
ghost use Rattle.snl_units.specs.Values as spec;

use crate::exact::scaled;
use crate::faults::ValueFault;
use crate::units::{ChannelUnits, TextNumber, Unit};
use crate::values::{number_by, scale_by};
use arrayvec::ArrayVec;
use itoa::Buffer;

/// How many bytes a value that is shown has at most.
pub const SHOWN: usize = 64;

/// How many digits stand behind a point at most.
const PLACES: u32 = 18;

/// A text of few bytes; None where there are more.
fn short(text: &[u8]) -> Option<ArrayVec<u8, SHOWN>> {
    let mut shown = ArrayVec::new();
    shown.try_extend_from_slice(text).ok()?;
    Some(shown)
}

/// Whether a text has only bytes that a terminal shows as they are.
fn is_printable(text: &[u8]) -> bool {
    text.iter().all(|byte| (b' '..=b'~').contains(byte))
}

/// The first text that stands for a number.
fn text_in(numbers: &[TextNumber], number: i64) -> Option<&[u8]> {
    for one in numbers {
        if one.number == number && is_printable(one.text.as_slice()) {
            return Some(one.text.as_slice());
        }
    }
    None
}

/// The word of an alarm.
fn alarm_word(number: i64) -> Option<&'static [u8]> {
    match number {
        0 => Some(b"NO_ALARM"),
        1 => Some(b"MINOR"),
        2 => Some(b"MAJOR"),
        3 => Some(b"INVALID"),
        _ => None,
    }
}

/// A quotient as a whole number of parts of ten to a power, with the least power; None where no decimal of few places is exact.
fn parts_of(over: u128, under: u128) -> Option<(u128, u32)> {
    let mut over = over;
    for places in 0..=PLACES {
        if over.checked_rem(under)? == 0 {
            return Some((over.checked_div(under)?, places));
        }
        over = over.checked_mul(10)?;
    }
    None
}

/// Adds digits with zeros in front, so that there are as many as wanted at least.
fn add_padded(text: &mut ArrayVec<u8, SHOWN>, digits: &[u8], wanted: usize) -> Option<()> {
    for _ in digits.len()..wanted {
        text.try_push(b'0').ok()?;
    }
    text.try_extend_from_slice(digits).ok()
}

/// The decimal number of so many parts of ten to a power.
fn decimal(is_negative: bool, parts: u128, places: u32) -> Option<ArrayVec<u8, SHOWN>> {
    let mut text = ArrayVec::new();
    if is_negative {
        text.try_push(b'-').ok()?;
    }
    let one = 10u128.checked_pow(places)?;
    let mut digits = Buffer::new();
    add_padded(
        &mut text,
        digits.format(parts.checked_div(one)?).as_bytes(),
        1,
    )?;
    if places > 0 {
        let mut fraction = Buffer::new();
        text.try_push(b'.').ok()?;
        add_padded(
            &mut text,
            fraction.format(parts.checked_rem(one)?).as_bytes(),
            places as usize,
        )?;
    }
    Some(text)
}

/// What a number divided by `top` and multiplied by `bottom` is, where that is a decimal of few places.
fn quotient(number: i64, top: u64, bottom: u64) -> Option<ArrayVec<u8, SHOWN>> {
    let over = u128::from(number.unsigned_abs()).checked_mul(u128::from(bottom))?;
    let (parts, places) = parts_of(over, u128::from(top))?;
    decimal(number < 0, parts, places)
}

/// What a number of a trace may stand for by a unit.
fn candidate(unit: &Unit, number: i64) -> Option<ArrayVec<u8, SHOWN>> {
    match unit {
        Unit::Scale(top, bottom) => quotient(number, *top, *bottom),
        Unit::Enum(numbers) => short(text_in(numbers.as_slice(), number)?),
        Unit::Severity => short(alarm_word(number)?),
        Unit::Text(_) | Unit::Time => None,
    }
}

/// The whole number of a trace that a value is by a unit.
fn value_by(unit: &Unit, text: &[u8]) -> Result<i64, ValueFault>
    ensures { IfOk result (λ n. spec.IsValueBy unit.now text.now n) }
{
    match number_by(unit, text) {
        Some(number) => Ok(number),
        None => {
            let (top, bottom) = scale_by(unit).unwrap_or((1, 1));
            scaled(text, top, bottom)
        }
    }
}

impl ChannelUnits {
    /// What a number of a trace of this channel stands for: the first of the texts that have it, or a decimal number. Whoever gives
    /// that as a value of the channel gives the number. None where nothing but the number says it: one without a text, or one that no
    /// decimal of 18 places is exactly, as 1/3.
    pub fn shown(&self, number: i64) -> Option<ArrayVec<u8, SHOWN>>
        ensures { IfSome result (λ text. spec.IsValueBy self.now.unit text.items number) }
    {
        let text = candidate(&self.unit, number)?;
        match value_by(&self.unit, text.as_slice()) {
            Ok(found) if found == number => Some(text),
            _ => None,
        }
    }

    /// By what a number of a trace of this channel is divided, where its unit says so.
    pub fn divisor(&self) -> Option<u64> {
        match self.unit {
            Unit::Scale(top, _) => Some(top),
            _ => None,
        }
    }
}
