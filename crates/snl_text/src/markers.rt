//! Lines whose first byte but for spaces and tabs is `#`.

ghost use Rattle.snl_text.specs.Markers.{directive_at, is_parted, marker_at, name_at, number_start};
ghost use Rattle.snl_text.specs.Lexemes.{FitsIn, SortFits};
ghost use Rattle.std.specs.Prelude.{◌≡◌, ◌<◌, ◌≤◌, IfSome, length, slice_index};

use crate::classes::{Digit, InLine, InnerBlank, byte_at, is_blank, run};
use crate::lexemes::{Lexeme, LexemeSort};
use crate::numbers::numeral_value;
use crate::quotes::quoted;

/// Some bytes in a row of a lexeme, counted from its first byte.
#[derive(Clone, Copy, Debug, PartialEq, Eq)]
pub struct Span {
    pub start: usize,
    /// After the last byte.
    pub end: usize,
}

/// What a marker says of the next line.
#[derive(Clone, Copy, Debug, PartialEq, Eq)]
pub struct Marker {
    /// Its number.
    pub line: u32,
    /// Where the name of its file stands, without the quotes; None for the same file.
    pub name: Option<Span>,
}

/// Whether a line ends at a place, or has a blank there.
fn is_parted(line: &[u8], place: usize) -> bool
    ensures { result ≡ is_parted line.now place }
{
    place >= line.len() || is_blank(line[place])
}

/// Where a marker's number begins: after the `#`, blanks, and the word `line` with one blank, if it is there.
#[tactic(auto, unfolding(crate::specs::Markers::number_start))]
fn number_start(line: &[u8]) -> usize
    requires { 0 < length line.now }
    ensures value { result ≡ number_start line.now }
    ensures within { result ≤ length line.now }
{
    let front = 1 + run::<InnerBlank>(&line[1..]);
    let rest = &line[front..];
    if rest.starts_with(b"line") && is_blank(byte_at(rest, 4)) {
        front + 5
    } else {
        front
    }
}

/// Where the name stands after a marker's number, which ends at a place; None where there is no whole string,
/// parted from what follows.
#[tactic(auto, unfolding(crate::specs::Markers::name_at))]
fn name_at(line: &[u8], place: usize) -> Option<Span>
    requires { place ≤ length line.now }
    ensures value { result ≡ name_at line.now place }
    ensures within { IfSome result (λ span. (span.start ≤ span.end)
        × (span.end ≤ length line.now)) }
{
    let quote = place + run::<InnerBlank>(&line[place..]);
    if quote >= line.len() || line[quote] != b'"' {
        return None;
    }
    let length = quoted(&line[quote + 1..])?;
    if is_parted(line, quote + 1 + length) {
        Some(Span {
            start: quote + 1,
            end: quote + length,
        })
    } else {
        None
    }
}

/// What the marker says that a line is; None where it is none.
#[tactic(auto, unfolding(crate::specs::Markers::marker_at))]
fn marker_at(line: &[u8]) -> Option<Marker>
    requires { 0 < length line.now }
    ensures value { result ≡ marker_at line.now }
    ensures fits { IfSome result (λ marker. SortFits (length line.now) (LexemeSort.Marker marker)) }
{
    let start = number_start(line);
    let count = run::<Digit>(&line[start..]);
    let end = start + count;
    if count == 0 || count > 9 || !is_parted(line, end) {
        return None;
    }
    let value = numeral_value(10, &line[start..end])?;
    let number = value as u32;
    Some(Marker {
        line: number,
        name: name_at(line, end),
    })
}

/// The lexeme that a line is, of which the first byte but for spaces and tabs is the `#` at the front.
#[tactic(auto, unfolding(crate::specs::Markers::directive_at))]
pub fn directive_at(bytes: &[u8]) -> Option<Lexeme>
    requires { slice_index bytes.now 0 ≡ 35 }
    ensures value { result ≡ directive_at bytes.now }
    ensures fits { IfSome result (FitsIn (length bytes.now)) }
{
    let length = run::<InLine>(bytes);
    let line = &bytes[..length];
    let says = if line.starts_with(b"#pragma") {
        LexemeSort::LineEnd
    } else {
        LexemeSort::Marker(marker_at(line)?)
    };
    if length == bytes.len() {
        Some(Lexeme {
            sort: LexemeSort::Skipped,
            length,
        })
    } else {
        Some(Lexeme {
            sort: says,
            length: length + 1,
        })
    }
}
