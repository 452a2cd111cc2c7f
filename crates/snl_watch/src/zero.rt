//! The date of 0 ms, which a trace tells in its first comments, and the time of day by it.

use arrayvec::ArrayVec;
use bstr::ByteSlice;
use snl_logs::{date_digits, day_digits, moment_of};

/// How many bytes a time of day has at most, with its date and a comma in front.
pub const BESIDE: usize = 25;

/// What stands in front of the date in its comment.
const WORD: &[u8] = b"# zero ";

/// Milliseconds of a day.
const DAY: u64 = 86_400_000;

/// Nanoseconds of a millisecond.
const MILLISECOND: u64 = 1_000_000;

/// The date of 0 ms, where the first comments of a trace tell it.
#[derive(Clone, Copy, Debug, PartialEq, Eq)]
pub struct Zero {
    /// In milliseconds since 1970, by the clock that the comment is written by.
    ms: Option<u64>,
    /// Whether an event came: comments behind it tell no date.
    is_over: bool,
}

/// A date without its zone: without `Z`, `+HH:MM` or `-HH:MM` at its end.
fn without_zone(date: &[u8]) -> &[u8] {
    match date {
        [front @ .., b'Z'] => front,
        [front @ .., b'+' | b'-', _, _, b':', _, _] => front,
        _ => date,
    }
}

/// Whether a text has the form of a date and a time of day, as `2026-03-02T09:15:00.100`.
fn is_dated(date: &[u8]) -> bool {
    matches!(date, [_, _, _, _, b'-', _, _, b'-', _, _, b'T', _, ..])
}

/// The date of 0 ms that a line tells, in milliseconds since 1970; None where it tells none.
fn told_by(line: &[u8]) -> Option<u64> {
    let date = without_zone(line.strip_prefix(WORD)?.trim_ascii_end());
    if !is_dated(date) {
        return None;
    }
    Some(moment_of(date)? / MILLISECOND)
}

/// Adds bytes, as far as there is room.
fn add(text: &mut ArrayVec<u8, BESIDE>, bytes: &[u8]) {
    let _added = text.try_extend_from_slice(bytes);
}

impl Zero {
    /// Of a trace of which no line came yet.
    pub fn new() -> Zero {
        Zero {
            ms: None,
            is_over: false,
        }
    }

    /// Hears a line of the trace; whether it is an event.
    pub(crate) fn note(&mut self, line: &[u8], is_event: bool) {
        if self.is_over || self.ms.is_some() {
            return;
        }
        self.is_over = is_event;
        self.ms = told_by(line);
    }

    /// The time of day of a time of the trace, behind a comma: `, 09:15:10.300`. On another day than that of 0 ms the date stands in
    /// front of it: `, 2026-03-03T09:15:10.300`. Nothing where the trace tells no date.
    #[inline(always)]
    pub fn beside(self, ms: u64) -> ArrayVec<u8, BESIDE> {
        match self.ms {
            Some(zero) => beside_date(zero, ms),
            None => ArrayVec::new(),
        }
    }
}

/// The same, by the date of 0 ms in milliseconds since 1970.
fn beside_date(zero: u64, ms: u64) -> ArrayVec<u8, BESIDE> {
    let mut text = ArrayVec::new();
    let there = zero.saturating_add(ms);
    let Some(date) = date_digits(there / DAY) else {
        return text;
    };
    add(&mut text, b", ");
    if there / DAY != zero / DAY {
        add(&mut text, date.as_slice());
        add(&mut text, b"T");
    }
    add(&mut text, day_digits(there).as_slice());
    text
}
