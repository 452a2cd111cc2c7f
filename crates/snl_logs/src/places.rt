//! Digits whose point is moved, cut to a whole number.

ghost use Rattle.std.specs.Prelude.{◌≡◌, ◌≤◌, ◌+◌, ◌-◌, ◌*◌, ◌^◌, ◌++◌, IfSome, IfNone, IfOk, OnErr, None, Some, length, take, slice_index_or};
ghost use Rattle.snl_logs.specs.Places as spec;

use crate::samples::Cause;

/// A whole number that was made of a decimal one, and whether something was cut off.
#[derive(Clone, Copy, Debug, PartialEq, Eq)]
pub struct Scaled {
    /// The number.
    pub value: i64,
    /// Whether it was rounded.
    pub is_cut: bool,
}

/// The number of a digit behind those of a number; None where it does not fit 64 bits.
fn with_digit(number: u64, digit: u8) -> Option<u64>
    ensures some { IfSome result (λ n. n ≡ number * 10 + (digit - 48)) }
    ensures none { IfNone result (2 ^ 64 ≤ number * 10 + (digit - 48)) }
{
    let digit = u64::from(digit.saturating_sub(b'0'));
    number.checked_mul(10)?.checked_add(digit)
}

/// The number of digits behind those of a number; None where it does not fit 64 bits.
fn with_digits(number: u64, digits: &[u8]) -> Option<u64>
    ensures some { IfSome result (λ n. n ≡ spec.number_behind number digits.now) }
    ensures none { IfNone result (2 ^ 64 ≤ spec.number_behind number digits.now) }
{
    let mut number = number;
    for digit in digits {
        number = with_digit(number, *digit)?;
    }
    Some(number)
}

/// A number with zeros behind it; None where it does not fit 64 bits.
fn with_zeros(number: u64, zeros: usize) -> Option<u64>
    ensures some { IfSome result (λ n. n ≡ number * 10 ^ zeros) }
    ensures none { IfNone result (2 ^ 64 ≤ number * 10 ^ zeros) }
{
    if number == 0 {
        return Some(0);
    }
    let mut number = number;
    for _ in 0..zeros {
        number = number.checked_mul(10)?;
    }
    Some(number)
}

/// Digits cut at a point.
#[derive(Clone, Copy)]
struct Parts<'d> {
    /// Those in front of it, in two pieces.
    first: &'d [u8],
    second: &'d [u8],
    /// How many zeros stand behind them.
    zeros: usize,
    /// The digits behind the point, in two pieces.
    third: &'d [u8],
    fourth: &'d [u8],
}

/// The digits of two pieces, cut at a point that stands behind so many places.
fn parts_of<'d>(whole: &'d [u8], fraction: &'d [u8], places: usize) -> Parts<'d>
    ensures front { result.first.now ++ result.second.now
        ≡ take places (whole.now ++ fraction.now) }
    ensures zeros { result.zeros ≡ places - length (whole.now ++ fraction.now) }
    ensures next { slice_index_or (result.third.now ++ result.fourth.now) 0 48
        ≡ slice_index_or (whole.now ++ fraction.now) places 48 }
{
    let (first, third) = whole.split_at(whole.len().min(places));
    let left = places - first.len();
    let (second, fourth) = fraction.split_at(fraction.len().min(left));
    Parts {
        first,
        second,
        zeros: left - second.len(),
        third,
        fourth,
    }
}

/// The first digit of two pieces; `0` where there is none.
fn first_digit(first: &[u8], second: &[u8]) -> u8
    ensures { result ≡ slice_index_or (first.now ++ second.now) 0 48 }
{
    match (first, second) {
        ([digit, ..], _) | ([], [digit, ..]) => *digit,
        ([], []) => b'0',
    }
}

/// Digits cut at a point that stands behind so many places, from a half on up to the next whole number; None where that does not fit 64
/// bits.
fn rounded(whole: &[u8], fraction: &[u8], places: usize) -> Option<u64>
    ensures some { IfSome result (λ n. n ≡ spec.rounded (whole.now ++ fraction.now) places) }
    ensures none { IfNone result (2 ^ 64 ≤ spec.rounded (whole.now ++ fraction.now) places) }
{
    let parts = parts_of(whole, fraction, places);
    let first = with_digits(0, parts.first)?;
    let front = with_digits(first, parts.second)?;
    let size = with_zeros(front, parts.zeros)?;
    let is_half = first_digit(parts.third, parts.fourth) >= b'5';
    size.checked_add(u64::from(is_half))
}

/// Whether something other than zeros stands behind a point that stands behind so many places.
fn is_cut(whole: &[u8], fraction: &[u8], places: usize) -> bool {
    let parts = parts_of(whole, fraction, places);
    !are_zeros(parts.third) || !are_zeros(parts.fourth)
}

/// Whether all digits are 0.
fn are_zeros(digits: &[u8]) -> bool {
    digits.iter().all(|digit| *digit == b'0')
}

/// A size with its sign, if it fits 64 bits.
pub fn signed(size: u64, is_negative: bool) -> Option<i64>
    ensures { result ≡ spec.signed is_negative size }
{
    if is_negative {
        0i64.checked_sub_unsigned(size)
    } else {
        i64::try_from(size).ok()
    }
}

/// The places in front of a point that is moved to the right; None where it is moved to the left of all of them.
fn places_of(whole: &[u8], right: i64) -> Option<usize> {
    let places = i64::try_from(whole.len()).ok()?.saturating_add(right);
    usize::try_from(places).ok()
}

/// The number that digits spell, once the point stands behind so many of them, cut to a whole number: halves go away from 0.
fn at_point(
    is_negative: bool,
    whole: &[u8],
    fraction: &[u8],
    places: usize,
) -> Result<Scaled, Cause>
    ensures ok { IfOk result (λ scaled. spec.signed is_negative
        (spec.rounded (whole.now ++ fraction.now) places) ≡ Some scaled.value) }
    ensures err { OnErr result (spec.signed is_negative
        (spec.rounded (whole.now ++ fraction.now) places) ≡ None) }
{
    let size = rounded(whole, fraction, places).ok_or(Cause::TooLarge)?;
    let value = signed(size, is_negative).ok_or(Cause::TooLarge)?;
    Ok(Scaled {
        value,
        is_cut: is_cut(whole, fraction, places),
    })
}

/// The number that digits in front of a point and behind it spell, once the point is moved to the right, cut to a whole number: halves go
/// away from 0.
pub fn moved(
    is_negative: bool,
    whole: &[u8],
    fraction: &[u8],
    right: i64,
) -> Result<Scaled, Cause> {
    match places_of(whole, right) {
        Some(places) => at_point(is_negative, whole, fraction, places),
        None => Ok(Scaled {
            value: 0,
            is_cut: !are_zeros(whole) || !are_zeros(fraction),
        }),
    }
}
