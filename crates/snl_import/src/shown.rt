//! Texts and numbers as a user is told them.

use crate::preface::hexadecimal;
use itoa::Buffer;
use std::alloc::AllocError;

/// Adds pieces to a text.
pub fn push_all(text: &mut Vec<u8>, pieces: &[&[u8]]) -> Result<(), AllocError> {
    for piece in pieces {
        text.extend_from_slice(piece)?;
    }
    Ok(())
}

/// Whether a byte is a printable ASCII character, or a blank.
fn is_printed(byte: u8) -> bool {
    byte.is_ascii() && !byte.is_ascii_control()
}

/// Whether all bytes are such.
pub fn are_printed(bytes: &[u8]) -> bool {
    bytes.iter().all(|byte| is_printed(*byte))
}

/// Adds the bytes of a log, with `\xNN` in the place of each that is no printable ASCII character: no terminal is asked to read another one.
pub fn push_shown(text: &mut Vec<u8>, bytes: &[u8]) -> Result<(), AllocError> {
    for byte in bytes {
        if is_printed(*byte) {
            text.push(*byte)?;
        } else {
            let (high, low) = (hexadecimal(*byte >> 4), hexadecimal(*byte & 15));
            push_all(text, &[b"\\x", &[high, low]])?;
        }
    }
    Ok(())
}

/// Adds a number.
pub fn push_number(text: &mut Vec<u8>, number: u64) -> Result<(), AllocError> {
    let mut digits = Buffer::new();
    text.extend_from_slice(digits.format(number).as_bytes())
}
