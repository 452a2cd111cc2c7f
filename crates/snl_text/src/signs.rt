//! The signs.

ghost use Rattle.snl_text.specs.Signs.{sign_at};
ghost use Rattle.snl_text.specs.SignsByBytes.{sign_of_one, sign_of_two, sign_of_three};
ghost use Rattle.std.specs.Prelude.{◌<◌, ◌≡◌, ◌≢◌, ◌≤◌, IfSome, IsSome, length};

use crate::classes::byte_at;
use crate::kinds::Kind;

/// The sign that a byte is.
#[tactic(auto, unfolding(crate::specs::SignsByBytes::sign_of_one))]
fn sign_of_one(byte: u8) -> Option<Kind>
    ensures { result ≡ sign_of_one byte }
{
    match byte {
        b'{' => Some(Kind::OpenBrace),
        b'}' => Some(Kind::CloseBrace),
        b'(' => Some(Kind::OpenParenthesis),
        b')' => Some(Kind::CloseParenthesis),
        b'[' => Some(Kind::OpenBracket),
        b']' => Some(Kind::CloseBracket),
        b';' => Some(Kind::Semicolon),
        b',' => Some(Kind::Comma),
        b':' => Some(Kind::Colon),
        b'?' => Some(Kind::Question),
        b'=' => Some(Kind::Equal),
        b'|' => Some(Kind::Bar),
        b'^' => Some(Kind::Caret),
        b'&' => Some(Kind::Ampersand),
        b'<' => Some(Kind::Less),
        b'>' => Some(Kind::Greater),
        b'+' => Some(Kind::Plus),
        b'-' => Some(Kind::Minus),
        b'*' => Some(Kind::Star),
        b'/' => Some(Kind::Slash),
        b'%' => Some(Kind::Percent),
        b'!' => Some(Kind::Bang),
        b'~' => Some(Kind::Tilde),
        _ => None,
    }
}

/// The sign that two bytes are.
#[tactic(auto, unfolding(crate::specs::SignsByBytes::sign_of_two))]
fn sign_of_two(first: u8, second: u8) -> Option<Kind>
    ensures value { result ≡ sign_of_two first second }
    ensures some { IsSome result → second ≢ 0 }
{
    match (first, second) {
        (b'+', b'=') => Some(Kind::PlusEqual),
        (b'-', b'=') => Some(Kind::MinusEqual),
        (b'*', b'=') => Some(Kind::StarEqual),
        (b'/', b'=') => Some(Kind::SlashEqual),
        (b'%', b'=') => Some(Kind::PercentEqual),
        (b'&', b'=') => Some(Kind::AmpersandEqual),
        (b'|', b'=') => Some(Kind::BarEqual),
        (b'^', b'=') => Some(Kind::CaretEqual),
        (b'|', b'|') => Some(Kind::BarBar),
        (b'&', b'&') => Some(Kind::AmpersandAmpersand),
        (b'=', b'=') => Some(Kind::EqualEqual),
        (b'!', b'=') => Some(Kind::BangEqual),
        (b'<', b'=') => Some(Kind::LessEqual),
        (b'>', b'=') => Some(Kind::GreaterEqual),
        (b'<', b'<') => Some(Kind::LessLess),
        (b'>', b'>') => Some(Kind::GreaterGreater),
        (b'+', b'+') => Some(Kind::PlusPlus),
        (b'-', b'-') => Some(Kind::MinusMinus),
        _ => None,
    }
}

/// The sign that three bytes are.
#[tactic(auto, unfolding(crate::specs::SignsByBytes::sign_of_three))]
fn sign_of_three(first: u8, second: u8, third: u8) -> Option<Kind>
    ensures value { result ≡ sign_of_three first second third }
    ensures some { IsSome result → third ≢ 0 }
{
    match (first, second, third) {
        (b'<', b'<', b'=') => Some(Kind::LessLessEqual),
        (b'>', b'>', b'=') => Some(Kind::GreaterGreaterEqual),
        _ => None,
    }
}

/// The longest sign that the bytes begin with, and its length.
pub fn sign_at(bytes: &[u8]) -> Option<(Kind, usize)>
    requires { 0 < length bytes.now }
    ensures value { result ≡ sign_at bytes.now }
    ensures within { IfSome result (λ found. (0 < found.1) × (found.1 ≤ length bytes.now)) }
{
    let first = byte_at(bytes, 0);
    let second = byte_at(bytes, 1);
    let third = byte_at(bytes, 2);
    if let Some(kind) = sign_of_three(first, second, third) {
        return Some((kind, 3));
    }
    if let Some(kind) = sign_of_two(first, second) {
        return Some((kind, 2));
    }
    let kind = sign_of_one(first)?;
    Some((kind, 1))
}
