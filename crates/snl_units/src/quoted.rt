//! Texts of a file of units: most bytes other than letters and digits stand as `\xNN`.

use crate::faults::{LineFault, Refusal};
use std::alloc::Global;

/// Whether a byte stands as it is.
fn is_plain(byte: u8) -> bool {
    byte.is_ascii_alphanumeric() || b"_.+*?/()[]-".contains(&byte)
}

/// The value of a digit to the base of 16, in lower case.
fn digit(byte: u8) -> Option<u8> {
    match byte {
        b'0'..=b'9' => Some(byte - b'0'),
        b'a'..=b'f' => Some(byte - b'a' + 10),
        _ => None,
    }
}

/// The byte that two digits spell.
fn byte_of(high: u8, low: u8) -> Option<u8> {
    digit(high)?.checked_mul(16)?.checked_add(digit(low)?)
}

/// The byte that a text begins with, and what stands behind it.
fn first_byte(text: &[u8]) -> Result<(u8, &[u8]), LineFault> {
    match text {
        [b'\\', b'x', high, low, behind @ ..] => match byte_of(*high, *low) {
            Some(byte) => Ok((byte, behind)),
            None => Err(LineFault::BadText),
        },
        [byte, behind @ ..] if is_plain(*byte) => Ok((*byte, behind)),
        _ => Err(LineFault::BadText),
    }
}

/// What a text stands for.
pub(crate) fn unquoted(alloc: Global, text: &[u8]) -> Result<Vec<u8>, Refusal> {
    let mut bytes = Vec::new(alloc);
    let mut rest = text;
    for _ in 0..text.len() {
        if rest.is_empty() {
            return Ok(bytes);
        }
        let (byte, behind) = first_byte(rest)?;
        bytes.push(byte)?;
        rest = behind;
    }
    Ok(bytes)
}
