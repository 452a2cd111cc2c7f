//! How long a `delay` is whose argument is a constant.

ghost use Rattle.std.specs.Prelude.{◌≡◌, ◌*ℤ◌, pos, true, int_le, if◌then◌else◌, option_map, IsTrue, Some};
ghost use Rattle.snl_text.specs.Numbers.{decimal_value};
ghost use Rattle.snl_alike.specs.Delays.{IsShort, IsShortAs};
ghost use Rattle.snl_meaning.specs.Value as spec;
ghost use Rattle.snl_syntax.specs.view.Expressions.{view};

use snl_meaning::is_decimal;
use snl_syntax::Expr;
use snl_text::{Kind, Token, character_value, decimal_value, whole_value};

/// A decimal constant in thousandths; 0 where the text is none.
fn thousandths(text: &[u8]) -> i64
    ensures { result ≡ spec.or_none (option_map (λ d. d.thousandths) (decimal_value text.now)) }
{
    match decimal_value(text) {
        Some(value) => value.thousandths as i64,
        None => 0,
    }
}

/// What a constant is worth; a decimal one in thousandths.
fn constant_of(token: Token) -> i64
    ensures { result ≡ spec.constant_of token.entry.kind token.entry.text.now }
{
    match token.kind {
        Kind::Whole => whole_value(token.text).unwrap_or(0),
        Kind::Character => match character_value(token.text) {
            Some(byte) => i64::from(byte),
            None => 0,
        },
        Kind::Decimal => thousandths(token.text),
        _ => 0,
    }
}

/// Whether a number of milliseconds, or of seconds, is at most so many milliseconds.
fn is_at_most(number: i64, in_seconds: bool, longest: u32) -> bool
    ensures { IsTrue result →
        int_le (if in_seconds then number *ℤ pos 1000 else number) (pos longest) ≡ true }
{
    if !in_seconds {
        return number <= i64::from(longest);
    }
    match number.checked_mul(1000) {
        Some(ms) => ms <= i64::from(longest),
        None => false,
    }
}

/// Whether an argument is a constant of at most so many milliseconds; a number without a point counts seconds.
fn is_short_as(longest: u32, in_seconds: bool, argument: &Expr) -> bool
    ensures { IsTrue result → IsShortAs (Some longest) in_seconds (view argument.now) }
{
    match argument {
        Expr::Constant(token) => is_at_most(constant_of(*token), in_seconds, longest),
        Expr::Parenthesized(part) => is_short_as(longest, in_seconds, part),
        _ => false,
    }
}

/// Whether the argument of a `delay` is a constant of at most so many milliseconds.
pub fn is_short(longest: u32, argument: &Expr) -> bool
    ensures { IsTrue result → IsShort (Some longest) (view argument.now) }
{
    is_short_as(longest, !is_decimal(argument), argument)
}
