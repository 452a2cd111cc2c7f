//! How many bytes at the front of a text are plain. Sixteen are looked at at once.

ghost use Rattle.std.specs.Prelude.{◌≡◌, ◌≤◌, length};
ghost use Rattle.snl_trace.specs.Plain.{is_plain};
ghost use Rattle.snl_trace.specs.Reading.{IsFront, lowest_of};

use std::simd::prelude::*;

/// How many bytes are looked at at once.
pub const LANES: usize = 16;

/// The number of the lowest bit that is set; where none is, another number.
#[inline(always)]
fn lowest(bits: u64, none: usize) -> usize
    ensures { result ≡ lowest_of none bits }
{
    if bits == 0 {
        none
    } else {
        bits.trailing_zeros() as usize
    }
}

/// How many of the first bytes of a text are plain, up to the first other one.
#[inline(always)]
pub fn plain_lanes(text: &[u8]) -> usize
    requires { 16 ≤ length text.now }
    ensures few { result ≤ 16 }
    ensures front { IsFront is_plain result text.now }
{
    let bytes = u8x16::from_slice(text);
    let others = bytes.simd_lt(u8x16::splat(b'!')) | bytes.simd_gt(u8x16::splat(b'~'));
    lowest(others.to_bitmask(), LANES)
}
