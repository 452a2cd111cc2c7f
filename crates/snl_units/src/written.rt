//! What units say, as it stands in a line of a file of units.

use crate::units::{TextNumber, Unit};
use itoa::Buffer;
use std::alloc::AllocError;

/// A digit to the base of 16, in lower case.
fn hexadecimal(digit: u8) -> u8 {
    match b"0123456789abcdef".get(usize::from(digit)) {
        Some(byte) => *byte,
        None => b'?',
    }
}

/// Whether a byte of a text stands as it is, in a pattern, too.
fn is_plain(byte: u8) -> bool {
    byte.is_ascii_alphanumeric() || b"_.+?/()[]-".contains(&byte)
}

/// Adds a text as it stands in a file of units. A star is written as `\x2a`, so that it stands for itself.
pub fn push_quoted(line: &mut Vec<u8>, text: &[u8]) -> Result<(), AllocError> {
    for byte in text {
        if is_plain(*byte) {
            line.push(*byte)?;
        } else {
            line.extend_from_slice(b"\\x")?;
            line.push(hexadecimal(*byte >> 4))?;
            line.push(hexadecimal(*byte & 15))?;
        }
    }
    Ok(())
}

/// Adds a number.
fn push_number(line: &mut Vec<u8>, number: u64) -> Result<(), AllocError> {
    let mut digits = Buffer::new();
    line.extend_from_slice(digits.format(number).as_bytes())
}

/// Adds a scale: `1000`, or `1/60`.
fn push_scale(line: &mut Vec<u8>, top: u64, bottom: u64) -> Result<(), AllocError> {
    push_number(line, top)?;
    if bottom == 1 {
        return Ok(());
    }
    line.push(b'/')?;
    push_number(line, bottom)
}

/// Adds a text and its number.
fn push_text_number(line: &mut Vec<u8>, one: &TextNumber) -> Result<(), AllocError> {
    let mut digits = Buffer::new();
    push_quoted(line, one.text.as_slice())?;
    line.push(b':')?;
    line.extend_from_slice(digits.format(one.number).as_bytes())
}

/// Adds texts and their numbers, as `On:1,Off:0`.
fn push_enum(line: &mut Vec<u8>, numbers: &[TextNumber]) -> Result<(), AllocError> {
    for (place, one) in numbers.iter().enumerate() {
        if place > 0 {
            line.push(b',')?;
        }
        push_text_number(line, one)?;
    }
    Ok(())
}

/// Adds a pattern, with a star between its pieces.
fn push_pattern(line: &mut Vec<u8>, pieces: &[Vec<u8>]) -> Result<(), AllocError> {
    for (place, piece) in pieces.iter().enumerate() {
        if place > 0 {
            line.push(b'*')?;
        }
        push_quoted(line, piece.as_slice())?;
    }
    Ok(())
}

/// Adds what is said of a channel, without its name: the word, and what stands behind the name.
pub(crate) fn push_unit(line: &mut Vec<u8>, unit: &Unit) -> Result<(), AllocError> {
    line.extend_from_slice(unit.word())?;
    match unit {
        Unit::Severity | Unit::Time => return Ok(()),
        _ => line.push(b' ')?,
    }
    match unit {
        Unit::Scale(top, bottom) => push_scale(line, *top, *bottom),
        Unit::Enum(numbers) => push_enum(line, numbers.as_slice()),
        Unit::Text(pieces) => push_pattern(line, pieces.as_slice()),
        Unit::Severity | Unit::Time => Ok(()),
    }
}
