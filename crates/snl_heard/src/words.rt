//! The words of a line of the output: `MS put CHANNEL V ..`, `MS go SET FROM TO`, `MS start PROGRAM`.

ghost use Rattle.std.specs.Prelude.{◌≡◌, ◌≢◌, ◌++◌, ◌∷◌, All, IfNone, IfOk, IfSome, bytes_eq, decimal};
ghost use Rattle.snl_heard.specs.Words as spec;

use itoa::Buffer;
use memchr::memchr;
use snl_output::push_all;
use std::alloc::{AllocError, Global};

/// A text cut at its first blank; None where it has none.
fn cut_at_blank(text: &[u8]) -> Option<(&[u8], &[u8])>
    ensures cut { IfSome result (λ cut. text.now ≡ cut.0.now ++ 32 ∷ cut.1.now) }
    ensures first { IfSome result (λ cut. All (λ byte. byte ≢ 32) cut.0.now) }
    ensures none { IfNone result (All (λ byte. byte ≢ 32) text.now) }
{
    let end = memchr(b' ', text)?;
    Some((&text[..end], &text[end + 1..]))
}

/// The bytes of a text before its first blank.
pub fn word(text: &[u8]) -> &[u8]
    ensures { result.now ≡ spec.word text.now }
{
    match cut_at_blank(text) {
        Some((word, _behind)) => word,
        None => text,
    }
}

/// The bytes of a text behind its first blank.
pub fn behind(text: &[u8]) -> &[u8]
    ensures { result.now ≡ spec.behind text.now }
{
    match cut_at_blank(text) {
        Some((_word, behind)) => behind,
        None => b"",
    }
}

/// Whether a line has this time, in milliseconds.
pub fn has_time(line: &[u8], ms: u64) -> bool
    ensures { result ≡ spec.has_time ms line.now }
{
    let mut digits = Buffer::new();
    word(line) == digits.format(ms).as_bytes()
}

/// What follows the time in the line of a transition, without its newline: ` go SET FROM TO`. The only error is that memory ends.
pub fn go_end(alloc: Global, set: &[u8], from: &[u8], to: &[u8]) -> Result<Vec<u8>, AllocError>
    ensures { IfOk result (λ end. end.items ≡ spec.go_end set.now from.now to.now) }
{
    let mut end = Vec::new(alloc);
    push_all(&mut end, &[b" go ", set, b" ", from, b" ", to])?;
    Ok(end)
}
