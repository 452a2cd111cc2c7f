//! Names from a trace, so that a terminal takes them as they are.

use std::alloc::AllocError;

/// A digit of a number to the base 16.
fn digit(value: u8) -> u8 {
    match value {
        0..=9 => b'0'.wrapping_add(value),
        _ => b'A'.wrapping_add(value.wrapping_sub(10)),
    }
}

/// Adds a name, with `\xNN` in the place of each byte that is not printable ASCII.
pub(crate) fn push_escaped(out: &mut Vec<u8>, name: &[u8]) -> Result<(), AllocError> {
    for byte in name {
        if matches!(byte, b' '..=b'~') {
            out.push(*byte)?;
        } else {
            out.extend_from_slice(&[b'\\', b'x', digit(byte / 16), digit(byte % 16)])?;
        }
    }
    Ok(())
}
