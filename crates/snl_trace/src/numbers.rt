//! Times and values, as fields spell them. A field of digits is cut and read in one pass.

ghost use Rattle.std.specs.Prelude.{◌≡◌, ◌≤◌, None, Some, IfSome, IfNone};
ghost use Rattle.snl_trace.specs.Reading as reading;
ghost use Rattle.snl_trace.specs.Numbers as spec;
ghost use Rattle.snl_trace.specs.Numbers.{spelled_number, time_of, spelled_value};
ghost use Rattle.snl_trace.specs.Reading.{front, IsRun, Reads};

use crate::fields::{begins_with, is_blank};
use crate::trace_faults::TIME_LIMIT;
use core::dec2flt::read_digits;

/// The number that the digits spell with which a text begins, and how many these are; None where they are more than
/// `most`.
#[inline(always)]
pub fn digits(text: &[u8], most: usize) -> Option<(u64, usize)>
    requires { most ≤ 19 }
    ensures some { IfSome result (λ n. IsRun n.0 n.1 most text.now) }
    ensures none { IfNone result (spelled_number most (front text.now) ≡ None) }
{
    let mut number = 0u64;
    let mut count = 0;
    while count < text.len() && text[count].is_ascii_digit() {
        if count == most {
            return None;
        }
        number = number * 10 + u64::from(text[count] - b'0');
        count += 1;
    }
    Some((number, count))
}

/// The same, where there are mostly many: eight are read at once. That takes no longer than three by `digits`.
#[inline(always)]
pub fn many_digits(text: &[u8], most: usize) -> Option<(u64, usize)>
    requires { most ≤ 19 }
    ensures some { IfSome result (λ n. IsRun n.0 n.1 most text.now) }
    ensures none { IfNone result (spelled_number most (front text.now) ≡ None) }
{
    let (count, number) = read_digits(text, 0, 0);
    if count > most {
        return None;
    }
    Some((number, count))
}

/// Whether no field goes on here.
#[inline(always)]
fn at_end(text: &[u8]) -> bool
    ensures { result ≡ reading.at_end text.now }
{
    match text {
        [] => true,
        [byte, ..] => is_blank(*byte),
    }
}

/// The number that one digit or more spell, but not more than `most`, and the text behind it: what stands in front of the
/// first blank is cut and read in one pass.
fn number(text: &[u8], most: usize) -> Option<(u64, &[u8])>
    requires { most ≤ 19 }
    ensures { Reads (spelled_number most (front text.now)) text.now result }
{
    let (number, count) = digits(text, most)?;
    if count == 0 {
        return None;
    }
    let rest = &text[count..];
    if !at_end(rest) {
        return None;
    }
    Some((number, rest))
}

/// The time that the front of a text spells, by 1 to 16 digits, and the text behind it.
pub fn time(text: &[u8]) -> Option<(u64, &[u8])>
    ensures { Reads (time_of (front text.now)) text.now result }
{
    let (ms, rest) = number(text, 16)?;
    if ms > TIME_LIMIT {
        return None;
    }
    Some((ms, rest))
}

/// The value that the front of a text spells, by an optional `-` and 1 to 19 digits, and the text behind it.
pub fn value(text: &[u8]) -> Option<(i64, &[u8])>
    ensures { Reads (spelled_value (front text.now)) text.now result }
{
    if begins_with(text, b'-') {
        negative(&text[1..])
    } else {
        positive(text)
    }
}

/// The value that digits spell, and the text behind them.
fn positive(text: &[u8]) -> Option<(i64, &[u8])>
    ensures { Reads (spec.from_zero (spelled_number 19 (front text.now))) text.now result }
{
    let (size, rest) = number(text, 19)?;
    Some((from_zero(size)?, rest))
}

/// The value that digits behind a `-` spell, and the text behind them.
fn negative(text: &[u8]) -> Option<(i64, &[u8])>
    ensures { Reads (spec.below_zero (spelled_number 19 (front text.now))) text.now result }
{
    let (size, rest) = number(text, 19)?;
    Some((below_zero(size)?, rest))
}

/// The value of a size that is not below zero.
#[inline(always)]
pub fn from_zero(size: u64) -> Option<i64>
    ensures { result ≡ spec.from_zero (Some size) }
{
    i64::try_from(size).ok()
}

/// The value below zero of a size, which may be 2^63.
#[inline(always)]
pub fn below_zero(size: u64) -> Option<i64>
    ensures { result ≡ spec.below_zero (Some size) }
{
    0i64.checked_sub_unsigned(size)
}
