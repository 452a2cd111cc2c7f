//! Decimal numbers times one number by another, as whole numbers. They have room for 38 digits on the way.

use crate::places::{Scaled, signed};
use crate::samples::Cause;
use crate::scales::Scale;

/// A number with digits behind its own, where there is room for them.
fn with_digits(number: u128, digits: &[u8]) -> Option<u128> {
    let mut number = number;
    for digit in digits {
        let digit = u128::from(digit.saturating_sub(b'0'));
        number = number.checked_mul(10)?.checked_add(digit)?;
    }
    Some(number)
}

/// A number times ten to the power of an exponent, where there is room for it.
fn with_zeros(number: u128, exponent: u64) -> Option<u128> {
    if number == 0 {
        return Some(0);
    }
    let mut number = number;
    for _ in 0..exponent {
        number = number.checked_mul(10)?;
    }
    Some(number)
}

/// The number of digits times `top`, and what it is divided by, once the point of the digits is moved to the right.
fn fraction_of(whole: &[u8], fraction: &[u8], right: i64, scale: Scale) -> Option<(u128, u128)> {
    let digits = with_digits(with_digits(0, whole)?, fraction)?;
    let top = digits.checked_mul(u128::from(scale.top))?;
    let bottom = u128::from(scale.bottom);
    let places = right.saturating_sub(i64::try_from(fraction.len()).ok()?);
    if places < 0 {
        Some((top, with_zeros(bottom, places.unsigned_abs())?))
    } else {
        Some((with_zeros(top, places.unsigned_abs())?, bottom))
    }
}

/// A number by another, from a half on up to the next whole number, and whether it is no whole number.
fn rounded(top: u128, bottom: u128) -> Option<(u64, bool)> {
    let doubled = top.checked_mul(2)?.checked_add(bottom)?;
    let size = doubled.checked_div(bottom.checked_mul(2)?)?;
    let is_cut = top.checked_rem(bottom)? != 0;
    Some((u64::try_from(size).ok()?, is_cut))
}

/// The number that digits in front of a point and behind it spell, once the point is moved to the right, times the scale, as a whole number:
/// halves go away from 0.
pub fn multiplied(
    is_negative: bool,
    whole: &[u8],
    fraction: &[u8],
    right: i64,
    scale: Scale,
) -> Result<Scaled, Cause> {
    let (top, bottom) = fraction_of(whole, fraction, right, scale).ok_or(Cause::TooLarge)?;
    let (size, is_cut) = rounded(top, bottom).ok_or(Cause::TooLarge)?;
    let value = signed(size, is_negative).ok_or(Cause::TooLarge)?;
    Ok(Scaled { value, is_cut })
}
