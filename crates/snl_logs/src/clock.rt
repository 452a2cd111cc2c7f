//! Times as a person writes them.

use crate::dates::date_of;
use crate::stamps::is_relative;
use std::alloc::{AllocError, Global};

/// Nanoseconds of a millisecond.
const MILLISECOND: u64 = 1_000_000;

/// Milliseconds of a day.
const DAY: u64 = 86_400_000;

/// The last digit of a number.
fn digit(number: u64) -> u8 {
    b'0' + (number % 10) as u8
}

/// A day behind 1 January 1970 as a date: `2026-03-02`. None behind the year 2500.
pub fn date_digits(days: u64) -> Option<[u8; 10]> {
    let (year, month, day) = date_of(days)?;
    Some([
        digit(year / 1000),
        digit(year / 100),
        digit(year / 10),
        digit(year),
        b'-',
        digit(month / 10),
        digit(month),
        b'-',
        digit(day / 10),
        digit(day),
    ])
}

/// A time in milliseconds as a time of day: `09:15:00.100`.
pub fn day_digits(ms: u64) -> [u8; 12] {
    let hours = ms / 3_600_000 % 24;
    let minutes = ms / 60_000 % 60;
    let seconds = ms / 1000 % 60;
    [
        digit(hours / 10),
        digit(hours),
        b':',
        digit(minutes / 10),
        digit(minutes),
        b':',
        digit(seconds / 10),
        digit(seconds),
        b'.',
        digit(ms / 100),
        digit(ms / 10),
        digit(ms),
    ]
}

/// A time of a log, in nanoseconds, as a date and a time of day: `2026-03-02T09:15:00.100`. None where the log tells no date.
pub fn time_text(alloc: Global, nanos: u64) -> Result<Option<Vec<u8>>, AllocError> {
    let ms = nanos / MILLISECOND;
    let Some(date) = date_digits(ms / DAY) else {
        return Ok(None);
    };
    if is_relative(nanos) {
        return Ok(None);
    }
    let mut text = Vec::from_slice(alloc, date.as_slice())?;
    text.push(b'T')?;
    text.extend_from_slice(day_digits(ms).as_slice())?;
    Ok(Some(text))
}
