//! The times of a log.

ghost use Rattle.std.specs.Prelude.{◌≡◌, ◌≤◌, ◌<◌, ◌+◌, ◌^◌, IfSome, length};

use crate::dates::day_of;
use crate::texts::{digits_of, spelled, trimmed_start};

/// Nanoseconds of a second.
const SECOND: u64 = 1_000_000_000;

/// Where the time of a log begins that tells no date: behind it there is room for what came before.
const RELATIVE: u64 = 1_000_000_000_000_000_000;

/// The number in some bytes of a text.
fn part(text: &[u8], from: usize, to: usize) -> Option<u64> {
    spelled(text.get(from..to)?)
}

/// Whether a text has a byte at a place.
fn has(text: &[u8], place: usize, byte: u8) -> bool {
    text.get(place) == Some(&byte)
}

/// Whether a text has a byte at two places.
fn has_both(text: &[u8], first: usize, second: usize, byte: u8) -> bool {
    has(text, first, byte) && has(text, second, byte)
}

/// The seconds from 1970 to a date, as `2026-11-26`.
fn date_seconds(text: &[u8]) -> Option<u64>
    ensures { IfSome result (λ n. n < 2 ^ 35) }
{
    if !has_both(text, 4, 7, b'-') && !has_both(text, 4, 7, b'/') {
        return None;
    }
    let day = day_of(part(text, 0, 4)?, part(text, 5, 7)?, part(text, 8, 10)?)?;
    Some(day * 86_400)
}

/// The seconds of a time of day, as `21:29:52`.
fn clock_seconds(text: &[u8]) -> Option<u64>
    ensures { IfSome result (λ n. n < 2 ^ 17) }
{
    if !has_both(text, 2, 5, b':') {
        return None;
    }
    let hours = part(text, 0, 2)?;
    let minutes = part(text, 3, 5)?;
    let seconds = part(text, 6, 8)?;
    if hours > 23 || minutes > 59 || seconds > 60 {
        return None;
    }
    Some(hours * 3600 + minutes * 60 + seconds)
}

/// The nanoseconds of the digits behind the point of a second.
fn nanos_of(digits: &[u8]) -> Option<u64>
    ensures { IfSome result (λ n. n < 2 ^ 30) }
{
    if digits.len() > 9 {
        return None;
    }
    let mut nanos = spelled(digits)?;
    for _ in digits.len()..9 {
        nanos = nanos.checked_mul(10)?;
    }
    if nanos < SECOND { Some(nanos) } else { None }
}

/// The nanoseconds of a fraction that a text begins with, as `.108293`, and the text behind it; 0 where it begins with none.
fn fraction(text: &[u8]) -> Option<(u64, &[u8])>
    ensures { IfSome result (λ found. found.0 < 2 ^ 30) }
{
    match text {
        [b'.', behind @ ..] => {
            let (digits, rest) = digits_of(behind);
            Some((nanos_of(digits)?, rest))
        }
        _ => Some((0, text)),
    }
}

/// The time that a text begins with, as `2026-11-26 21:29:52.108293`, and the text behind it.
pub fn date_at(text: &[u8]) -> Option<(u64, &[u8])> {
    if !has(text, 10, b' ') && !has(text, 10, b'T') {
        return None;
    }
    let seconds = date_seconds(text)? + clock_seconds(text.get(11..)?)?;
    let (nanos, rest) = fraction(text.get(19..)?)?;
    Some((seconds.checked_mul(SECOND)?.checked_add(nanos)?, rest))
}

/// The nanoseconds that a text begins with, as `1.741776`, and the text behind it.
fn seconds(text: &[u8]) -> Option<(u64, &[u8])> {
    let (digits, behind) = digits_of(text);
    let whole = spelled(digits)?.checked_mul(SECOND)?;
    let (nanos, rest) = fraction(behind)?;
    Some((whole.checked_add(nanos)?, rest))
}

/// Whether microseconds end what was taken of a text, as `.741776`.
fn has_micros(text: &[u8], rest: &[u8]) -> bool {
    match text.len().saturating_sub(rest.len()).checked_sub(7) {
        Some(place) => has(text, place, b'.'),
        None => false,
    }
}

/// The nanoseconds in front of which a sign stood, and the text behind them. What has no microseconds, or nothing behind it, is a value
/// and no time.
fn signed_seconds(text: &[u8]) -> Option<(u64, &[u8])> {
    let (nanos, rest) = seconds(text)?;
    if has_micros(text, rest) && !trimmed_start(rest).is_empty() {
        Some((nanos, rest))
    } else {
        None
    }
}

/// The time that a text begins with which counts from the begin of the log, as `+1.741776`, and the text behind it.
fn relative(text: &[u8]) -> Option<(u64, &[u8])> {
    match text {
        [b'+', behind @ ..] => {
            let (nanos, rest) = signed_seconds(behind)?;
            Some((RELATIVE.checked_add(nanos)?, rest))
        }
        [b'-', behind @ ..] => {
            let (nanos, rest) = signed_seconds(behind)?;
            Some((RELATIVE.checked_sub(nanos)?, rest))
        }
        _ => None,
    }
}

/// The time that a text begins with, and the text behind it.
pub fn time_at(text: &[u8]) -> Option<(u64, &[u8])> {
    match date_at(text) {
        Some(found) => Some(found),
        None => relative(text),
    }
}

/// The time in brackets that a text begins with, as `(2026-11-26 21:30:29.810807)` or `(   +1.741776)`, and the text behind it.
pub fn time_in_brackets(text: &[u8]) -> Option<(u64, &[u8])> {
    match text {
        [b'(', behind @ ..] => {
            let (time, rest) = time_at(trimmed_start(behind))?;
            match rest {
                [b')', rest @ ..] => Some((time, rest)),
                _ => None,
            }
        }
        _ => None,
    }
}

/// The time that a text is: a date and a time of day, or seconds since 1970.
pub fn time_of(text: &[u8]) -> Option<u64> {
    let (time, rest) = match date_at(text) {
        Some(found) => found,
        None => seconds(text)?,
    };
    match rest {
        b"" | b"Z" => Some(time),
        _ => None,
    }
}

/// The time that a word of a call is: a date and a time of day, seconds since 1970, or with a `+` seconds since a log begins that tells no
/// date.
pub fn moment_of(word: &[u8]) -> Option<u64> {
    match word {
        [b'+', behind @ ..] => match seconds(behind)? {
            (nanos, b"") => RELATIVE.checked_add(nanos),
            _ => None,
        },
        _ => time_of(word),
    }
}

/// Whether a time is of a log that tells no date: these count from a time in September 2001, some months at most to
/// each side.
pub fn is_relative(time: u64) -> bool {
    time.abs_diff(RELATIVE) < 10_000_000 * SECOND
}
