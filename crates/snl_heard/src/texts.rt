//! Pieces of text, and what stands in front of lines.

ghost use Rattle.std.specs.Prelude.{◌≡◌, ◌≢◌, ◌++◌, ◌∷◌, All, IfNone, IfSome, IsTrue, false};
ghost use Rattle.snl_heard.specs.Printed.{is_note};

use memchr::memchr;

/// What stands in front of each line of a requirement.
pub const WATCH: &[u8] = b"# watch ";

/// The bytes before the first newline, and those behind it; None where there is none.
pub fn first_line(text: &[u8]) -> Option<(&[u8], &[u8])>
    ensures cut { IfSome result (λ cut. text.now ≡ cut.0.now ++ 10 ∷ cut.1.now) }
    ensures first { IfSome result (λ cut. All (λ byte. byte ≢ 10) cut.0.now) }
    ensures none { IfNone result (All (λ byte. byte ≢ 10) text.now) }
{
    let end = memchr(b'\n', text)?;
    Some((&text[..end], &text[end + 1..]))
}

/// Whether a text has no newline.
pub(crate) fn is_line(text: &[u8]) -> bool
    ensures { IsTrue result → All (λ byte. byte ≢ 10) text.now }
{
    memchr(b'\n', text).is_none()
}

/// Whether a line begins with `#`.
fn is_noted(line: &[u8]) -> bool
    ensures { result ≡ is_note line.now }
{
    match line.first() {
        Some(byte) => *byte == b'#',
        None => false,
    }
}

/// Whether a text is a line that does not begin with `#`.
pub(crate) fn is_plain(text: &[u8]) -> bool
    ensures line { IsTrue result → All (λ byte. byte ≢ 10) text.now }
    ensures plain { IsTrue result → is_note text.now ≡ false }
{
    is_line(text) && !is_noted(text)
}
