//! Decimal numbers as a person writes them: `2.5`, `-12`, `1e-6`.

ghost use Rattle.std.specs.Prelude.{◌≡◌, ◌≤◌, ◌+◌, ◌-◌, ◌*◌, ◌^◌, ◌++◌, ◌∷◌, IfOk, IfSome, IfNone, true};
ghost use Rattle.std.specs.Bool.{OnTrue};
ghost use Rattle.snl_units.specs.Exact as spec;

use crate::faults::ValueFault;

/// How many digits an exponent has at most.
const EXPONENT: usize = 4;

/// A decimal number without its sign: what its digits spell, those in front of the point and those behind it, and by which powers of
/// ten that is multiplied and divided.
#[derive(Clone, Copy, Debug, PartialEq, Eq)]
pub(crate) struct Decimal {
    /// What the digits spell.
    pub number: u128,
    /// The power of ten that it is multiplied by.
    pub up: u32,
    /// The power of ten that it is divided by.
    pub down: u32,
}

/// Whether all bytes are digits.
fn are_digits(text: &[u8]) -> bool
    ensures { result ≡ spec.are_digits text.now }
{
    text.iter().all(|byte| 48 <= *byte && *byte <= 57)
}

/// The digits that a text begins with, and what stands behind them.
fn digits_of(text: &[u8]) -> (&[u8], &[u8])
    ensures { text.now ≡ result.0.now ++ result.1.now }
{
    let mut place = 0;
    while place < text.len() && text[place].is_ascii_digit() {
        place += 1;
    }
    text.split_at(place)
}

/// The digits behind a point that a text begins with, and what stands behind them; none where there is no point.
fn fraction_of(text: &[u8]) -> (&[u8], &[u8])
    ensures { spec.IsPoint text.now result.0.now result.1.now }
{
    match text {
        [b'.', behind @ ..] => digits_of(behind),
        _ => (b"", text),
    }
}

/// The number of a digit behind those of a number; None beyond 128 bits.
fn with_digit(number: u128, digit: u8) -> Option<u128>
    ensures some { IfSome result (λ n. n ≡ number * 10 + (digit - 48)) }
    ensures none { IfNone result (2 ^ 128 ≤ number * 10 + (digit - 48)) }
{
    let digit = u128::from(digit.saturating_sub(b'0'));
    number.checked_mul(10)?.checked_add(digit)
}

/// The number that digits make behind those of a number; None beyond 128 bits.
fn with_digits(number: u128, digits: &[u8]) -> Option<u128>
    ensures some { IfSome result (λ n. n ≡ spec.number_behind number digits.now) }
    ensures none { IfNone result (2 ^ 128 ≤ spec.number_behind number digits.now) }
{
    let mut number = number;
    for digit in digits {
        number = with_digit(number, *digit)?;
    }
    Some(number)
}

/// The number of 1 to 4 digits.
fn exponent_in(digits: &[u8]) -> Result<u32, ValueFault>
    ensures digits { IfOk result (λ _. spec.are_digits digits.now ≡ true) }
    ensures number { IfOk result (λ n. n ≡ spec.number_behind 0 digits.now) }
{
    if digits.is_empty() || digits.len() > EXPONENT || !are_digits(digits) {
        return Err(ValueFault::NoNumber);
    }
    let number = with_digits(0, digits).ok_or(ValueFault::NoNumber)?;
    u32::try_from(number).map_err(|_| ValueFault::NoNumber)
}

/// By which powers of ten an exponent multiplies and divides.
#[derive(Clone, Copy)]
struct Powers {
    up: u32,
    down: u32,
}

/// By which powers of ten that multiplies and divides which stands behind the mark of an exponent, as `-6`.
fn powers_behind(text: &[u8]) -> Result<Powers, ValueFault>
    ensures { IfOk result (λ p. spec.IsPower text.now p.up p.down) }
{
    match text {
        [b'-', digits @ ..] => Ok(Powers {
            up: 0,
            down: exponent_in(digits)?,
        }),
        [b'+', digits @ ..] => Ok(Powers {
            up: exponent_in(digits)?,
            down: 0,
        }),
        _ => Ok(Powers {
            up: exponent_in(text)?,
            down: 0,
        }),
    }
}

/// By which powers of ten an exponent multiplies and divides, as `e-6`; by none where there is none.
fn powers_of(text: &[u8]) -> Result<Powers, ValueFault>
    ensures { IfOk result (λ p. spec.IsExponent text.now p.up p.down) }
{
    match text {
        [] => Ok(Powers { up: 0, down: 0 }),
        [b'e' | b'E', behind @ ..] => powers_behind(behind),
        _ => Err(ValueFault::NoNumber),
    }
}

/// The number that the digits of two pieces spell, of which one has some. `NoNumber` where they are no digits, `TooLarge` beyond 128 bits.
fn number_of(whole: &[u8], fraction: &[u8]) -> Result<u128, ValueFault>
    ensures whole { IfOk result (λ _. spec.are_digits whole.now ≡ true) }
    ensures fraction { IfOk result (λ _. spec.are_digits fraction.now ≡ true) }
    ensures number { IfOk result (λ n. n
        ≡ spec.number_behind (spec.number_behind 0 whole.now) fraction.now) }
{
    if whole.is_empty() && fraction.is_empty() {
        return Err(ValueFault::NoNumber);
    }
    if !are_digits(whole) || !are_digits(fraction) {
        return Err(ValueFault::NoNumber);
    }
    let front = with_digits(0, whole).ok_or(ValueFault::TooLarge)?;
    with_digits(front, fraction).ok_or(ValueFault::TooLarge)
}

/// The decimal number that a text without a sign is.
pub(crate) fn decimal_of(text: &[u8]) -> Result<Decimal, ValueFault>
    ensures { IfOk result (λ d. spec.IsDecimal text.now d.number d.up d.down) }
{
    let (whole, behind) = digits_of(text);
    let (fraction, exponent) = fraction_of(behind);
    let number = number_of(whole, fraction)?;
    let powers = powers_of(exponent)?;
    let places = u32::try_from(fraction.len()).map_err(|_| ValueFault::TooLarge)?;
    let down = powers.down.checked_add(places).ok_or(ValueFault::TooLarge)?;
    Ok(Decimal {
        number,
        up: powers.up,
        down,
    })
}
