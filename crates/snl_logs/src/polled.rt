//! Values that `caget -t` wrote: alone, or behind a time that a script wrote in front.

use crate::numbers::number_of;
use crate::samples::{Cause, Sample, SampleValue, Severity, Stamp};
use crate::scales::Scale;
use crate::stamps::{date_at, time_of};
use crate::texts::{digits_of, is_blank, trimmed_end, trimmed_start, word_of};

/// The fewest digits in front of the point of a time in seconds since 1970.
const DIGITS: usize = 9;

/// A word that is a time in seconds since 1970: with so many digits that it is no value.
fn seconds_in(word: &[u8]) -> Option<u64> {
    let (digits, _behind) = digits_of(word);
    if digits.len() < DIGITS {
        return None;
    }
    time_of(word)
}

/// The time that a text begins with, and what stands behind it.
fn time_in_front(text: &[u8]) -> Option<(u64, &[u8])> {
    if let Some((time, behind)) = date_at(text) {
        return Some((time, behind.strip_prefix(b"Z").unwrap_or(behind)));
    }
    let (word, behind) = word_of(text);
    Some((seconds_in(word)?, behind))
}

/// A time, and the value behind it.
fn timed(text: &[u8]) -> Option<(u64, &[u8])> {
    let (time, behind) = time_in_front(text)?;
    let value = trimmed_start(behind);
    if !value.is_empty() && is_blank(*behind.first()?) {
        Some((time, value))
    } else {
        None
    }
}

/// Whether a text is one word, which is a number, or `nan`.
fn is_number(text: &[u8]) -> bool {
    let (word, behind) = word_of(text);
    behind.is_empty() && !matches!(number_of(word, Scale::of_power(0)), Err(Cause::NoNumber))
}

/// What a line says that names no channel, of the one that the file is named after; None where it is no such line.
pub fn polled_sample<'l>(name: &'l [u8], line: &'l [u8]) -> Option<Sample<'l>> {
    let text = trimmed_end(trimmed_start(line));
    let (stamp, value) = match timed(text) {
        Some((time, value)) => (Stamp::At(time), value),
        None if is_number(text) => (Stamp::Untold, text),
        None => return None,
    };
    Some(Sample {
        name,
        stamp,
        said: SampleValue::Value(value, Severity::None),
    })
}
