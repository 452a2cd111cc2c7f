//! Arithmetic over -2^63 .. 2^63-1, with its faults.

ghost use Rattle.std.specs.Prelude.{◌≡◌, ◌<◌, ◌^◌, pos, ◌*ℤ◌, ok_or};
ghost use Rattle.snl_arithmetic.specs.Arithmetic as spec;

use snl_text::Kind;

/// What may go wrong with an operation.
#[derive(Clone, Copy)]
pub enum ArithmeticFault {
    /// The result leaves -2^63 .. 2^63-1.
    Overflow,
    /// `/` or `%` by 0.
    Division,
    /// A shift count outside of 0 .. 63.
    Shift,
}

/// The fault of what leaves the range. It is not put in place: a sum that stays in the range then costs one test, and no choice
/// between two answers.
#[inline(never)]
fn overflowed() -> ArithmeticFault
    ensures { result ≡ ArithmeticFault.Overflow }
{
    ArithmeticFault::Overflow
}

/// What a checked operation gave, if it stays in the range.
#[inline(always)]
fn checked(number: Option<i64>) -> Result<i64, ArithmeticFault>
    ensures { result ≡ ok_or number ArithmeticFault.Overflow }
{
    match number {
        Some(number) => Ok(number),
        None => Err(overflowed()),
    }
}

fn divided(left: i64, right: i64) -> Result<i64, ArithmeticFault>
    ensures { result ≡ spec.computed Kind.Slash left right }
{
    if right == 0 {
        return Err(ArithmeticFault::Division);
    }
    left.checked_div(right).ok_or(ArithmeticFault::Overflow)
}

fn remainder(left: i64, right: i64) -> Result<i64, ArithmeticFault>
    ensures { result ≡ spec.computed Kind.Percent left right }
{
    if right == 0 {
        return Err(ArithmeticFault::Division);
    }
    if right == -1 {
        return Ok(0);
    }
    Ok(left % right)
}

fn multiplied(left: i64, right: i64) -> Result<i64, ArithmeticFault>
    ensures { result ≡ spec.in_range (left *ℤ right) }
{
    left.checked_mul(right).ok_or(ArithmeticFault::Overflow)
}

/// A power of two.
fn power(count: u64) -> i64
    requires { count < 63 }
    ensures { result ≡ pos (2 ^ count) }
{
    (1u64 << count) as i64
}

fn shifted_left(left: i64, count: i64) -> Result<i64, ArithmeticFault>
    ensures { result ≡ spec.computed Kind.LessLess left count }
{
    match u64::try_from(count) {
        Ok(count) => {
            if count < 63 {
                multiplied(left, power(count))
            } else if count == 63 {
                match left {
                    0 => Ok(0),
                    -1 => Ok(i64::MIN),
                    _ => Err(ArithmeticFault::Overflow),
                }
            } else {
                Err(ArithmeticFault::Shift)
            }
        }
        Err(_) => Err(ArithmeticFault::Shift),
    }
}

fn shifted_right(left: i64, count: i64) -> Result<i64, ArithmeticFault>
    ensures { result ≡ spec.computed Kind.GreaterGreater left count }
{
    if count < 0 || 63 < count {
        return Err(ArithmeticFault::Shift);
    }
    Ok(left >> (count as u32))
}

/// What a binary operator makes of both of its operands (SNL Reference, "Expressions"): any one but
/// `&&` and `||`. Kinds that are no such operator give the right operand, as the comma does.
#[inline(always)]
pub fn computed(operator: Kind, left: i64, right: i64) -> Result<i64, ArithmeticFault>
    ensures { result ≡ spec.computed operator left right }
{
    match operator {
        Kind::Bar => Ok(left | right),
        Kind::Caret => Ok(left ^ right),
        Kind::Ampersand => Ok(left & right),
        Kind::EqualEqual => Ok(i64::from(left == right)),
        Kind::BangEqual => Ok(i64::from(left != right)),
        Kind::Less => Ok(i64::from(left < right)),
        Kind::LessEqual => Ok(i64::from(left <= right)),
        Kind::Greater => Ok(i64::from(left > right)),
        Kind::GreaterEqual => Ok(i64::from(left >= right)),
        Kind::LessLess => shifted_left(left, right),
        Kind::GreaterGreater => shifted_right(left, right),
        Kind::Plus => checked(left.checked_add(right)),
        Kind::Minus => checked(left.checked_sub(right)),
        Kind::Star => checked(left.checked_mul(right)),
        Kind::Slash => divided(left, right),
        Kind::Percent => remainder(left, right),
        _ => Ok(right),
    }
}

/// What a prefix operator other than `++` and `--` makes of its operand. Other kinds give the
/// operand, as `+` does.
#[inline(always)]
pub fn computed_prefix(operator: Kind, operand: i64) -> Result<i64, ArithmeticFault>
    ensures { result ≡ spec.computed_prefix operator operand }
{
    match operator {
        Kind::Minus => operand.checked_neg().ok_or(ArithmeticFault::Overflow),
        Kind::Bang => Ok(i64::from(operand == 0)),
        Kind::Tilde => Ok(!operand),
        _ => Ok(operand),
    }
}
