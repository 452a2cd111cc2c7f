//! A decimal number in the unit of a trace, exactly: of one that is no whole number then there is none.

ghost use Rattle.std.specs.Prelude.{◌≡◌, ◌≢◌, ◌≤◌, ◌<◌, ◌+◌, ◌-◌, ◌*◌, ◌^◌, ◌++◌, ℕ, IfOk, IfSome, IfNone};
ghost use Rattle.snl_units.specs.Exact as spec;

use crate::decimals::{Decimal, decimal_of};
use crate::faults::ValueFault;

/// A number times ten to a power; None beyond 128 bits.
fn with_zeros(number: u128, zeros: u32) -> Option<u128>
    ensures some { IfSome result (λ n. n ≡ number * 10 ^ zeros) }
    ensures none { IfNone result (2 ^ 128 ≤ number * 10 ^ zeros) }
{
    if number == 0 {
        return Some(0);
    }
    let mut number = number;
    for _ in 0..zeros {
        number = number.checked_mul(10)?;
    }
    Some(number)
}

/// A number times two others and ten to a power; None beyond 128 bits.
fn multiplied(number: u128, top: u64, zeros: u32) -> Option<u128>
    ensures some { IfSome result (λ n. n ≡ number * top * 10 ^ zeros) }
    ensures none { IfNone result (2 ^ 128 ≤ number * top * 10 ^ zeros) }
{
    with_zeros(number.checked_mul(u128::from(top))?, zeros)
}

/// The whole number that a number above 0 is by another; None where it is no whole one.
fn whole_quotient(over: u128, under: u128) -> Option<u128>
    requires { 0 < over }
    ensures some { IfSome result (λ n. n * under ≡ over) }
    ensures none { IfNone result ((n : ℕ) → n * under ≢ over) }
{
    if under == 0 {
        return None;
    }
    if over % under == 0 {
        Some(over / under)
    } else {
        None
    }
}

/// The whole number that a number above 0 is by another with zeros; None where it is no whole one.
fn divided(over: u128, bottom: u64, zeros: u32) -> Option<u128>
    requires { 0 < over }
    ensures some { IfSome result (λ n. n * (bottom * 10 ^ zeros) ≡ over) }
    ensures none { IfNone result ((n : ℕ) → n * (bottom * 10 ^ zeros) ≢ over) }
{
    match with_zeros(u128::from(bottom), zeros) {
        Some(under) => whole_quotient(over, under),
        None => None,
    }
}

/// The whole number that a decimal one is times `top` by `bottom`. `NotWhole` where it is none, `TooLarge` where it is beyond 64 bits, or
/// its digits times `top` beyond 128.
fn size_of(decimal: Decimal, top: u64, bottom: u64) -> Result<u64, ValueFault>
    ensures { IfOk result (λ n. spec.is_exactly decimal.number decimal.up decimal.down
        top bottom n) }
{
    let over = multiplied(decimal.number, top, decimal.up).ok_or(ValueFault::TooLarge)?;
    if over == 0 {
        return Ok(0);
    }
    let size = divided(over, bottom, decimal.down).ok_or(ValueFault::NotWhole)?;
    u64::try_from(size).map_err(|_| ValueFault::TooLarge)
}

/// A size with its sign, if it fits 64 bits.
fn signed(size: u64, is_negative: bool) -> Option<i64>
    ensures { result ≡ spec.signed is_negative size }
{
    if is_negative {
        0i64.checked_sub_unsigned(size)
    } else {
        i64::try_from(size).ok()
    }
}

/// Whether a text begins with `-`, and the text behind its sign.
fn sign_of(text: &[u8]) -> (bool, &[u8])
    ensures { text.now ≡ spec.signed_text result.0 result.1.now }
{
    match text {
        [b'-', bare @ ..] => (true, bare),
        _ => (false, text),
    }
}

/// The whole number that a decimal text is times `top` by `bottom`, exactly. `NoNumber` where it is no decimal text, `NotWhole` where it
/// is no whole number then, `TooLarge` where that is beyond 64 bits, or the text has more digits than are read.
pub(crate) fn scaled(text: &[u8], top: u64, bottom: u64) -> Result<i64, ValueFault>
    ensures { IfOk result (λ n. spec.IsScaled text.now top bottom n) }
{
    let (is_negative, bare) = sign_of(text);
    let decimal = decimal_of(bare)?;
    let size = size_of(decimal, top, bottom)?;
    signed(size, is_negative).ok_or(ValueFault::TooLarge)
}
