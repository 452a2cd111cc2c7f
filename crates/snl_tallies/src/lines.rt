//! A line with a count, as it is read.

ghost use Rattle.std.specs.Prelude.{◌≡◌, ◌≢◌, ◌↔◌, ◌<◌, ◌^◌, ◌++◌, ◌∷◌, ℕ, List, All, IfNone, IfSome, IsTrue, decimal};
ghost use Rattle.snl_tallies.specs.Counts.{line_of};

use itoa::Buffer;
use memchr::memchr;

/// What stands behind the blank that a text begins with; None where it does not.
fn behind_blank(text: &[u8]) -> Option<&[u8]>
    ensures some { IfSome result (λ behind. text.now ≡ 32 ∷ behind.now) }
    ensures none { IfNone result ((behind : List ℕ) → text.now ≢ 32 ∷ behind) }
{
    match text {
        [b' ', behind @ ..] => Some(behind),
        _ => None,
    }
}

/// What stands behind a name and a blank in a text that begins with them; None where it does not.
fn behind_name<'t>(text: &'t [u8], name: &[u8]) -> Option<&'t [u8]>
    ensures some { IfSome result (λ behind. text.now ≡ name.now ++ 32 ∷ behind.now) }
    ensures none { IfNone result ((behind : List ℕ) → text.now ≢ name.now ++ 32 ∷ behind) }
{
    match text.strip_prefix(name) {
        Some(behind) => behind_blank(behind),
        None => None,
    }
}

/// A text cut at its first newline; None where it has none.
fn cut_at_newline(text: &[u8]) -> Option<(&[u8], &[u8])>
    ensures cut { IfSome result (λ cut. text.now ≡ cut.0.now ++ 10 ∷ cut.1.now) }
    ensures first { IfSome result (λ cut. All (λ byte. byte ≢ 10) cut.0.now) }
    ensures none { IfNone result (All (λ byte. byte ≢ 10) text.now) }
{
    let end = memchr(b'\n', text)?;
    Some((&text[..end], &text[end + 1..]))
}

/// Whether a text is a number as it is written.
fn is_decimal(text: &str, number: u64) -> bool
    ensures { IsTrue result ↔ (text.now ≡ decimal number) }
{
    let mut buffer = Buffer::new();
    text == buffer.format(number)
}

/// The number that a text is, with no sign and no zero in front; None where it is none of 64 bits.
fn number_of(text: &str) -> Option<u64>
    ensures some { IfSome result (λ n. text.now ≡ decimal n) }
    ensures none { IfNone result ((n : ℕ) → n < 2 ^ 64 → text.now ≢ decimal n) }
{
    match text.parse::<u64>() {
        Ok(number) => {
            if is_decimal(text, number) {
                Some(number)
            } else {
                None
            }
        }
        Err(_) => None,
    }
}

/// The number that bytes are, with no sign and no zero in front; None where they are none of 64 bits.
fn number_in(digits: &[u8]) -> Option<u64>
    ensures some { IfSome result (λ n. digits.now ≡ decimal n) }
    ensures none { IfNone result ((n : ℕ) → n < 2 ^ 64 → digits.now ≢ decimal n) }
{
    match str::from_utf8(digits) {
        Ok(text) => number_of(text),
        Err(_) => None,
    }
}

/// A line with a count, and what stands behind the line.
#[derive(Clone, Copy)]
pub(crate) struct Counted<'t> {
    /// The count.
    pub count: u64,
    /// The text behind the newline.
    pub rest: &'t [u8],
}

/// The number in front of the first newline of a text; None where something else stands there, or there is no newline.
fn count_in(text: &[u8]) -> Option<Counted<'_>>
    ensures some { IfSome result (λ c. text.now ≡ decimal c.count ++ 10 ∷ c.rest.now) }
    ensures small { IfSome result (λ c. c.count < 2 ^ 64) }
    ensures none { IfNone result ((n : ℕ) (rest : List ℕ) → n < 2 ^ 64 →
        text.now ≢ decimal n ++ 10 ∷ rest) }
{
    match cut_at_newline(text) {
        Some((digits, rest)) => match number_in(digits) {
            Some(count) => Some(Counted { count, rest }),
            None => None,
        },
        None => None,
    }
}

/// The count that the first line of a text has, whose name is known; None where the first line is none of that name.
pub(crate) fn first_count<'t>(text: &'t [u8], name: &[u8]) -> Option<Counted<'t>>
    ensures some { IfSome result (λ c. text.now ≡ line_of name.now c.count ++ c.rest.now) }
    ensures small { IfSome result (λ c. c.count < 2 ^ 64) }
    ensures none { IfNone result ((n : ℕ) (rest : List ℕ) → n < 2 ^ 64 →
        text.now ≢ line_of name.now n ++ rest) }
{
    match behind_name(text, name) {
        Some(behind) => count_in(behind),
        None => None,
    }
}
