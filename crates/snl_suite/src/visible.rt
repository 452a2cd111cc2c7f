//! Bytes as a person sees them.

use std::alloc::AllocError;

/// The digits of a byte.
const DIGITS: &[u8; 16] = b"0123456789abcdef";

/// Adds a byte by its number, as `\x0d`. The only error is that memory ends.
fn push_number(out: &mut Vec<u8>, byte: u8) -> Result<(), AllocError> {
    let high = DIGITS[(byte >> 4) as usize];
    let low = DIGITS[(byte & 15) as usize];
    out.extend_from_slice(&[b'\\', b'x', high, low])
}

/// Adds a text as a person sees it: control bytes by their numbers, and where it is no UTF-8 also those above 127. The only error is
/// that memory ends.
pub fn push_visible(out: &mut Vec<u8>, text: &[u8]) -> Result<(), AllocError> {
    let is_text = std::str::from_utf8(text).is_ok();
    for byte in text {
        if byte.is_ascii_control() || !is_text && !byte.is_ascii() {
            push_number(out, *byte)?;
        } else {
            out.push(*byte)?;
        }
    }
    Ok(())
}
