//! The numbers of a file of units.

use crate::faults::LineFault;

/// How many digits a number has at most.
const DIGITS: usize = 19;

/// The number that 1 to 19 digits spell.
fn spelled(digits: &[u8]) -> Option<u64> {
    if digits.is_empty() || digits.len() > DIGITS {
        return None;
    }
    let mut number = 0u64;
    for digit in digits {
        if !digit.is_ascii_digit() {
            return None;
        }
        number = number
            .checked_mul(10)?
            .checked_add(u64::from(*digit - b'0'))?;
    }
    Some(number)
}

/// A whole number from 1 on, whose first digit is not 0.
fn whole(digits: &[u8]) -> Result<u64, LineFault> {
    if digits.first() == Some(&b'0') {
        return Err(LineFault::BadNumber);
    }
    spelled(digits).ok_or(LineFault::BadNumber)
}

/// The two numbers of a scale: `K`, which is K by 1, or `1/N`.
pub(crate) fn scale_of(text: &[u8]) -> Result<(u64, u64), LineFault> {
    match text {
        [b'1', b'/', digits @ ..] => Ok((1, whole(digits)?)),
        _ => Ok((whole(text)?, 1)),
    }
}

/// A whole number of 64 bits, with or without `-` in front.
pub(crate) fn number_of(text: &[u8]) -> Result<i64, LineFault> {
    let number = match text {
        [b'-', digits @ ..] => spelled(digits).and_then(|size| 0i64.checked_sub_unsigned(size)),
        _ => spelled(text).and_then(|size| i64::try_from(size).ok()),
    };
    number.ok_or(LineFault::BadNumber)
}
