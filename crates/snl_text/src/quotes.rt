//! Strings, character constants, and what stands between two marks.

ghost use Rattle.snl_text.specs.Quotes.{character_at, character_value, escape_value, quoted, through};
ghost use Rattle.std.specs.Prelude.{◌<◌, ◌≡◌, ◌≢◌, ◌≤◌, IfSome, false, length};

use crate::classes::{byte_at, is_control};

/// How many bytes there are through the closing quote, after an opening one. None where a control byte or
/// the end comes first.
pub fn quoted(bytes: &[u8]) -> Option<usize>
    ensures value { result ≡ quoted false bytes.now }
    ensures within { IfSome result (λ count. (0 < count) × (count ≤ length bytes.now)) }
{
    let mut escaped = false;
    for (i, byte) in bytes.iter().enumerate() {
        if is_control(*byte) {
            return None;
        }
        if *byte == b'"' && !escaped {
            return Some(i + 1);
        }
        escaped = *byte == b'\\' && !escaped;
    }
    None
}

/// How many bytes there are through the first two that are `first` and `second` in a row.
pub fn through(first: u8, second: u8, bytes: &[u8]) -> Option<usize>
    requires { second ≢ 0 }
    ensures value { result ≡ through first second bytes.now }
    ensures within { IfSome result (λ count. count ≤ length bytes.now) }
{
    for (i, byte) in bytes.iter().enumerate() {
        if *byte == first && byte_at(bytes, i + 1) == second {
            return Some(i + 2);
        }
    }
    None
}

/// What a backslash and a byte stand for in a character constant.
#[tactic(auto, unfolding(crate::specs::Quotes::escape_value))]
fn escape_value(byte: u8) -> Option<u8>
    ensures { result ≡ escape_value byte }
{
    match byte {
        b'n' => Some(b'\n'),
        b't' => Some(b'\t'),
        b'r' => Some(b'\r'),
        b'0' => Some(0),
        b'\\' => Some(b'\\'),
        b'\'' => Some(b'\''),
        b'"' => Some(b'"'),
        _ => None,
    }
}

/// The value and the length of the character constant at the front, whose opening quote is there.
#[tactic(auto, unfolding(crate::specs::Quotes::character_at))]
pub fn character_at(bytes: &[u8]) -> Option<(u8, usize)>
    ensures value { result ≡ character_at bytes.now }
    ensures within { IfSome result (λ found. (0 < found.1) × (found.1 ≤ length bytes.now)) }
{
    let byte = byte_at(bytes, 1);
    if byte == b'\\' {
        if byte_at(bytes, 3) != b'\'' {
            return None;
        }
        let value = escape_value(byte_at(bytes, 2))?;
        return Some((value, 4));
    }
    let is_plain = matches!(byte, b' '..=b'~') && byte != b'\'';
    if is_plain && byte_at(bytes, 2) == b'\'' {
        Some((byte, 3))
    } else {
        None
    }
}

/// The value of a character constant, given its whole text, quotes included. None where the text is none.
#[tactic(auto, unfolding(crate::specs::Quotes::character_value))]
pub fn character_value(text: &[u8]) -> Option<u8>
    ensures { result ≡ character_value text.now }
{
    if byte_at(text, 0) != b'\'' {
        return None;
    }
    let (value, length) = character_at(text)?;
    if length == text.len() {
        Some(value)
    } else {
        None
    }
}
