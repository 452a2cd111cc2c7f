//! The line of a place, as it is shown, with a caret.

use std::alloc::AllocError;

/// How many bytes of a line are shown on each side of a place at most.
const SIDE: usize = 80;

/// Where the bytes begin that are shown in front of a place: with its line, or nearer.
fn begin_of(source: &[u8], place: usize) -> usize {
    let least = place.saturating_sub(SIDE);
    for at in (least..place).rev() {
        if matches!(source.get(at), Some(b'\n')) {
            return at.saturating_add(1);
        }
    }
    least
}

/// Where the bytes end that are shown from a place on: with its line, or nearer.
fn end_of(source: &[u8], place: usize) -> usize {
    let most = place.saturating_add(SIDE).min(source.len());
    for at in place..most {
        if matches!(source.get(at), Some(b'\n')) {
            return at;
        }
    }
    most
}

/// A byte as it is shown: a control byte as a blank.
fn shown(byte: u8) -> u8 {
    if byte < 32 || byte == 127 { b' ' } else { byte }
}

/// Whether a character goes on with a byte.
fn goes_on(byte: u8) -> bool {
    byte & 0xC0 == 0x80
}

/// Adds bytes as they are shown.
fn push_shown(out: &mut Vec<u8>, bytes: &[u8]) -> Result<(), AllocError> {
    for byte in bytes {
        out.push(shown(*byte))?;
    }
    Ok(())
}

/// Adds a blank for each character.
fn push_blanks(out: &mut Vec<u8>, bytes: &[u8]) -> Result<(), AllocError> {
    for byte in bytes {
        if !goes_on(*byte) {
            out.push(b' ')?;
        }
    }
    Ok(())
}

/// Adds the number of a line, in five columns.
fn push_number(out: &mut Vec<u8>, digits: &[u8]) -> Result<(), AllocError> {
    for _ in digits.len()..5 {
        out.push(b' ')?;
    }
    out.extend_from_slice(digits)?;
    out.extend_from_slice(b" | ")
}

/// Adds the line of a place, at most 160 bytes of it, and a caret below the place. Adds nothing where the line is empty.
pub fn push_excerpt(
    out: &mut Vec<u8>,
    source: &[u8],
    place: usize,
    digits: &[u8],
) -> Result<(), AllocError> {
    let place = place.min(source.len());
    let front = source.get(begin_of(source, place)..place).unwrap_or(&[]);
    let back = source.get(place..end_of(source, place)).unwrap_or(&[]);
    if front.is_empty() && back.is_empty() {
        return Ok(());
    }
    push_number(out, digits)?;
    push_shown(out, front)?;
    push_shown(out, back)?;
    out.extend_from_slice(b"\n      | ")?;
    push_blanks(out, front)?;
    out.extend_from_slice(b"^\n")
}
