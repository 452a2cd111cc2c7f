//! Numbers, as they are told.

use itoa::Buffer;
use snl_output::push_all;
use std::alloc::AllocError;

/// How many elements of a variable are told at most.
const TOLD: usize = 64;

/// Adds a number.
pub(crate) fn push_number(out: &mut Vec<u8>, number: i64) -> Result<(), AllocError> {
    let mut digits = Buffer::new();
    out.extend_from_slice(digits.format(number).as_bytes())
}

/// Adds a count, between two texts.
pub(crate) fn push_count(
    out: &mut Vec<u8>,
    front: &[u8],
    count: usize,
    behind: &[u8],
) -> Result<(), AllocError> {
    let mut digits = Buffer::new();
    push_all(out, &[front, digits.format(count).as_bytes(), behind])
}

/// Adds numbers, with a blank in front of each; of more than 64 the first, and how many there are.
pub(crate) fn push_numbers(out: &mut Vec<u8>, numbers: &[i64]) -> Result<(), AllocError> {
    for (place, number) in numbers.iter().enumerate() {
        if place == TOLD {
            return push_count(out, b" .. (", numbers.len(), b" values)");
        }
        out.push(b' ')?;
        push_number(out, *number)?;
    }
    Ok(())
}

/// Adds a time in seconds, as `1.2 s`.
pub(crate) fn push_seconds(out: &mut Vec<u8>, ms: u64) -> Result<(), AllocError> {
    let mut digits = Buffer::new();
    out.extend_from_slice(digits.format(ms / 1000).as_bytes())?;
    let rest = ms % 1000;
    if rest > 0 {
        let mut digits = Buffer::new();
        let padded = digits.format(rest.saturating_add(1000)).as_bytes();
        let decimals = padded.get(1..).unwrap_or(b"");
        push_all(out, &[b".", without_zeros(decimals)])?;
    }
    out.extend_from_slice(b" s")
}

/// Digits without the zeros at their end.
fn without_zeros(digits: &[u8]) -> &[u8] {
    match digits {
        [front @ .., b'0'] => match front {
            [more @ .., b'0'] => more,
            _ => front,
        },
        _ => digits,
    }
}
