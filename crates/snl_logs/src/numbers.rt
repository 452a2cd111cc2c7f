//! The numbers that a log spells.

use crate::places::{Scaled, moved};
use crate::ratios::multiplied;
use crate::samples::Cause;
use crate::scales::Scale;
use crate::texts::{digits_of, spelled};
use itoa::Buffer;

/// Whether a text begins with `-`, and the text behind its sign.
fn sign_of(text: &[u8]) -> (bool, &[u8]) {
    match text {
        [b'-', behind @ ..] => (true, behind),
        [b'+', behind @ ..] => (false, behind),
        _ => (false, text),
    }
}

/// Whether a word is one of those for what is no number, as `nan` and `inf`.
fn is_not_finite(word: &[u8]) -> bool {
    word.eq_ignore_ascii_case(b"nan")
        || word.eq_ignore_ascii_case(b"inf")
        || word.eq_ignore_ascii_case(b"infinity")
}

/// The value of a digit in a base.
fn digit_in(base: u64, byte: u8) -> Option<u64> {
    let digit = match byte {
        b'0'..=b'9' => byte - b'0',
        b'a'..=b'f' => byte - b'a' + 10,
        b'A'..=b'F' => byte - b'A' + 10,
        _ => return None,
    };
    let digit = u64::from(digit);
    if digit < base { Some(digit) } else { None }
}

/// The number that digits in a base spell.
fn number_in(base: u64, digits: &[u8]) -> Result<u64, Cause> {
    if digits.is_empty() {
        return Err(Cause::NoNumber);
    }
    let mut number = 0u64;
    for byte in digits {
        let digit = digit_in(base, *byte).ok_or(Cause::NoNumber)?;
        number = number
            .checked_mul(base)
            .and_then(|more| more.checked_add(digit))
            .ok_or(Cause::TooLarge)?;
    }
    Ok(number)
}

/// The base that a text names, as `0x`, and its digits.
fn based(text: &[u8]) -> Option<(u64, &[u8])> {
    match text {
        [b'0', b'x' | b'X', digits @ ..] => Some((16, digits)),
        [b'0', b'o', digits @ ..] => Some((8, digits)),
        [b'0', b'b', digits @ ..] => Some((2, digits)),
        _ => None,
    }
}

/// The digits behind a point that a text begins with, and the text behind them.
fn fraction_of(text: &[u8]) -> (&[u8], &[u8]) {
    match text {
        [b'.', behind @ ..] => digits_of(behind),
        _ => (b"", text),
    }
}

/// What the exponent says that a text is, as `e-07`; 0 where the text is empty.
fn exponent_of(text: &[u8]) -> Result<i64, Cause> {
    match text {
        [] => Ok(0),
        [b'e' | b'E', behind @ ..] => {
            let (is_negative, digits) = sign_of(behind);
            let size = spelled(digits).ok_or(Cause::NoNumber)?;
            let size = i64::try_from(size).map_err(|_| Cause::TooLarge)?;
            Ok(if is_negative {
                0i64.saturating_sub(size)
            } else {
                size
            })
        }
        _ => Err(Cause::NoNumber),
    }
}

/// The number that digits in front of a point and behind it spell times a power of ten, in the scale of a channel.
fn scaled(
    is_negative: bool,
    whole: &[u8],
    fraction: &[u8],
    exponent: i64,
    scale: Scale,
) -> Result<Scaled, Cause> {
    let right = scale.power.saturating_add(exponent);
    if scale.is_power() {
        moved(is_negative, whole, fraction, right)
    } else {
        multiplied(is_negative, whole, fraction, right, scale)
    }
}

/// The decimal number of a word behind its sign, in the scale of a channel.
fn decimal(is_negative: bool, word: &[u8], scale: Scale) -> Result<Scaled, Cause> {
    let (whole, behind) = digits_of(word);
    let (fraction, behind) = fraction_of(behind);
    if whole.is_empty() && fraction.is_empty() {
        return Err(Cause::NoNumber);
    }
    let exponent = exponent_of(behind)?;
    scaled(is_negative, whole, fraction, exponent, scale)
}

/// The number of a word in the scale of a channel, as a whole number: halves go away from 0. A decimal number may have a sign, a point
/// and an exponent; `0x`, `0o` and `0b` name a base.
pub fn number_of(word: &[u8], scale: Scale) -> Result<Scaled, Cause> {
    let (is_negative, bare) = sign_of(word);
    if is_not_finite(bare) {
        return Err(Cause::NotFinite);
    }
    match based(bare) {
        Some((base, digits)) => {
            let mut room = Buffer::new();
            let number = number_in(base, digits)?;
            let digits = room.format(number).as_bytes();
            scaled(is_negative, digits, b"", 0, scale)
        }
        None => decimal(is_negative, bare, scale),
    }
}
