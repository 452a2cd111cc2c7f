//! The values of numbers, as functions of their text.

ghost use Rattle.snl_text.specs.Numbers.{decimal_value, digit_value, is_exact, thousandths_of, value_in, numeral_value, whole_value, without_suffix};
ghost use Rattle.std.specs.List.{list_all};
ghost use Rattle.std.specs.Prelude.{◌+◌, ◌≡◌, ◌^◌, ◌≤◌, ◌<◌, option_map, pos, slice_index, slice_index_or, IfSome};

use crate::classes::{ByteClass, Digit, Zero, byte_at, run};

/// The largest whole number.
const LARGEST: u128 = 0x7FFF_FFFF_FFFF_FFFF;

/// What a digit is worth in the bases that have it; 16 for a byte that is no digit.
fn digit_value(byte: u8) -> u8
    ensures { result ≡ digit_value byte }
{
    match byte {
        b'0'..=b'9' => byte - b'0',
        b'a'..=b'f' => byte - b'a' + 10,
        b'A'..=b'F' => byte - b'A' + 10,
        _ => 16,
    }
}

/// The value of digits of a base; None where there is another byte, or the value is above 2^63 - 1.
pub fn numeral_value(base: u8, digits: &[u8]) -> Option<u64>
    requires low { 1 ≤ base }
    requires high { base ≤ 16 }
    ensures value { result ≡ numeral_value base digits.now }
    ensures small { IfSome result (λ value. value < 2 ^ 63) }
{
    let mut value = 0u128;
    for byte in digits {
        let digit = digit_value(*byte);
        if digit >= base {
            return None;
        }
        value = value * u128::from(base) + u128::from(digit);
        if value > LARGEST {
            return None;
        }
    }
    Some(value as u64)
}

/// The same of at least one digit.
#[tactic(auto, unfolding(crate::specs::Numbers::value_in))]
fn value_in(base: u8, digits: &[u8]) -> Option<u64>
    requires low { 1 ≤ base }
    requires high { base ≤ 16 }
    ensures value { result ≡ value_in base digits.now }
    ensures small { IfSome result (λ value. value < 2 ^ 63) }
{
    if digits.is_empty() {
        return None;
    }
    numeral_value(base, digits)
}

/// The text without an `L` or `l` at its end.
#[tactic(auto, unfolding(crate::specs::Numbers::without_suffix))]
fn without_suffix(text: &[u8]) -> &[u8]
    ensures { result.now ≡ without_suffix text.now }
{
    let front = text.len().saturating_sub(1);
    let last = byte_at(text, front);
    if last == b'L' || last == b'l' {
        &text[..front]
    } else {
        text
    }
}

/// The value of a whole number as it is spelled: decimal without leading zeros, octal after `0`, or
/// hexadecimal after `0x` or `0X`, with an `L` or `l` at the end or without. None where the text is no such
/// number or its value is above 2^63 - 1.
pub fn whole_value(text: &[u8]) -> Option<i64>
    ensures { result ≡ option_map pos (whole_value text.now) }
{
    let value = whole_number(text)?;
    Some(value as i64)
}

/// The same, without a sign.
#[tactic(auto, unfolding(crate::specs::Numbers::whole_value))]
fn whole_number(text: &[u8]) -> Option<u64>
    ensures value { result ≡ whole_value text.now }
    ensures small { IfSome result (λ value. value < 2 ^ 63) }
{
    let digits = without_suffix(text);
    if byte_at(digits, 0) != b'0' {
        return value_in(10, digits);
    }
    let second = byte_at(digits, 1);
    if second == b'x' || second == b'X' {
        value_in(16, &digits[2..])
    } else {
        value_in(8, digits)
    }
}

/// Whether all bytes are of a class.
fn is_all<C: ByteClass>(bytes: &[u8]) -> bool
    ensures { result ≡ list_all C.has bytes.now }
{
    bytes.iter().all(|byte| C::has(*byte))
}

/// What a decimal constant is worth.
#[derive(Clone, Copy, Debug, PartialEq, Eq)]
pub struct DecimalValue {
    /// Thousandths, with the digits after the third left out.
    pub thousandths: u64,
    /// No digit after the third is other than 0.
    pub is_exact: bool,
}

/// The largest whole part of a decimal constant.
const LARGEST_WHOLE: u64 = 1_000_000_000_000;

/// What a digit is worth after the point; 0 where there is none.
fn decimal_at(fraction: &[u8], place: usize) -> u64
    ensures value { result ≡ digit_value (slice_index_or fraction.now place 48) }
    ensures small { result ≤ 16 }
{
    if place < fraction.len() {
        u64::from(digit_value(fraction[place]))
    } else {
        0
    }
}

/// What the digits after the point are worth in thousandths, those after the third left out.
fn thousandths_of(fraction: &[u8]) -> u64
    ensures value { result ≡ thousandths_of fraction.now }
    ensures small { result < 2000 }
{
    decimal_at(fraction, 0) * 100 + decimal_at(fraction, 1) * 10 + decimal_at(fraction, 2)
}

/// Whether no digit after the third is other than 0.
fn is_exact(fraction: &[u8]) -> bool
    ensures { result ≡ is_exact fraction.now }
{
    if fraction.len() > 3 {
        is_all::<Zero>(&fraction[3..])
    } else {
        true
    }
}

/// The value of a decimal constant as it is spelled: digits with one point, and a whole part of at most 10^12.
/// None where the text is no such constant.
#[tactic(auto, unfolding(crate::specs::Numbers::decimal_value))]
pub fn decimal_value(text: &[u8]) -> Option<DecimalValue>
    ensures { result ≡ decimal_value text.now }
{
    let point = run::<Digit>(text);
    if point >= text.len() || text[point] != b'.' {
        return None;
    }
    let fraction = &text[point + 1..];
    if !is_all::<Digit>(fraction) || text.len() < 2 {
        return None;
    }
    let whole = numeral_value(10, &text[..point])?;
    if whole > LARGEST_WHOLE {
        return None;
    }
    Some(DecimalValue {
        thousandths: whole * 1000 + thousandths_of(fraction),
        is_exact: is_exact(fraction),
    })
}
