//! What constants are worth.

ghost use Rattle.std.specs.Prelude.{◌≡◌, option_map};
ghost use Rattle.snl_text.specs.Numbers.{decimal_value};
ghost use Rattle.snl_meaning.specs.Value as spec;

use snl_text::{Kind, Token, character_value, decimal_value, whole_value};

/// A decimal constant in thousandths; 0 where the text is none.
fn thousandths(text: &[u8]) -> i64
    ensures { result ≡ spec.or_none (option_map (λ d. d.thousandths) (decimal_value text.now)) }
{
    match decimal_value(text) {
        Some(value) => value.thousandths as i64,
        None => 0,
    }
}

/// What a constant is worth; a decimal one in thousandths.
pub fn constant_of(token: Token) -> i64
    ensures { result ≡ spec.constant_of token.entry.kind token.entry.text.now }
{
    match token.kind {
        Kind::Whole => whole_value(token.text).unwrap_or(0),
        Kind::Character => match character_value(token.text) {
            Some(byte) => i64::from(byte),
            None => 0,
        },
        Kind::Decimal => thousandths(token.text),
        _ => 0,
    }
}
