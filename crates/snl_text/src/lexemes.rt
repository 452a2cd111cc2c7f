//! What stands at a place of the source: a blank, a comment, embedded C, a marker or a token.

ghost use Rattle.snl_text.specs.Lexemes.{FitsIn, SortFits, begins_number, block_at, character_lexeme, flaw_at, marked_at, number_at, lexeme, lexeme_at, sign_lexeme, string_at, word_at};
ghost use Rattle.snl_text.specs.Bytes.{is_in_line, is_letter};
ghost use Rattle.std.specs.List.{prefix_len};
ghost use Rattle.std.specs.Prelude.{◌<◌, ◌≡◌, ◌≢◌, IfSome, IsTrue, length, slice_index, ℕ};

use crate::classes::{InLine, NameByte, NumberByte, byte_at, is_digit, is_letter, run};
use crate::faults::Flaw;
use crate::kinds::Kind;
use crate::markers::{Marker, directive_at};
use crate::numbers::{decimal_value, whole_value};
use crate::quotes::{character_at, quoted, through};
use crate::signs::sign_at;
use crate::words::word_kind;

/// What sort of lexeme it is.
#[derive(Clone, Copy, Debug, PartialEq, Eq)]
pub enum LexemeSort {
    /// A space or a tab.
    Blank,
    /// A newline, or a `#pragma` line with the newline after it.
    LineEnd,
    /// Another blank, a comment, or a `#` line that ends the source without a newline.
    Skipped,
    EmbeddedC,
    /// A marker with the newline after it.
    Marker(Marker),
    Token(Kind),
}

/// A lexeme of the source.
#[derive(Clone, Copy, Debug, PartialEq, Eq)]
pub struct Lexeme {
    pub sort: LexemeSort,
    /// In bytes.
    pub length: usize,
}

/// Whether a number word begins here: a digit, or a point before a digit.
pub fn begins_number(bytes: &[u8]) -> bool
    ensures { result ≡ begins_number bytes.now }
{
    let first = byte_at(bytes, 0);
    is_digit(first) || first == b'.' && is_digit(byte_at(bytes, 1))
}

/// The name or the reserved word at the front, whose first letter is there.
#[tactic(auto, unfolding(crate::specs::Lexemes::word_at))]
fn word_at(bytes: &[u8]) -> Lexeme
    requires nonempty { 0 < length bytes.now }
    requires letter { IsTrue (is_letter (slice_index bytes.now 0)) }
    ensures value { result ≡ word_at bytes.now }
    ensures fits { FitsIn (length bytes.now) result }
{
    let length = run::<NameByte>(bytes);
    Lexeme {
        sort: LexemeSort::Token(word_kind(&bytes[..length])),
        length,
    }
}

/// The number at the front, of which the longest run of letters, digits, underscores and points has to be one.
#[tactic(auto, unfolding(crate::specs::Lexemes::number_at))]
fn number_at(bytes: &[u8]) -> Option<Lexeme>
    requires nonempty { 0 < length bytes.now }
    requires number { IsTrue (begins_number bytes.now) }
    ensures value { result ≡ number_at bytes.now }
    ensures fits { IfSome result (FitsIn (length bytes.now)) }
{
    let length = run::<NumberByte>(bytes);
    let word = &bytes[..length];
    if whole_value(word).is_some() {
        return Some(Lexeme {
            sort: LexemeSort::Token(Kind::Whole),
            length,
        });
    }
    if decimal_value(word).is_some() {
        return Some(Lexeme {
            sort: LexemeSort::Token(Kind::Decimal),
            length,
        });
    }
    None
}

/// The string at the front, whose opening quote is there.
#[tactic(auto, unfolding(crate::specs::Lexemes::string_at))]
fn string_at(bytes: &[u8]) -> Option<Lexeme>
    requires { 0 < length bytes.now }
    ensures value { result ≡ string_at bytes.now }
    ensures fits { IfSome result (FitsIn (length bytes.now)) }
{
    let behind = quoted(&bytes[1..])?;
    Some(Lexeme {
        sort: LexemeSort::Token(Kind::Text),
        length: 1 + behind,
    })
}

/// The character constant at the front, whose opening quote is there.
#[tactic(auto, unfolding(crate::specs::Lexemes::character_lexeme))]
fn character_lexeme(bytes: &[u8]) -> Option<Lexeme>
    requires { 0 < length bytes.now }
    ensures value { result ≡ character_lexeme bytes.now }
    ensures fits { IfSome result (FitsIn (length bytes.now)) }
{
    let (_, length) = character_at(bytes)?;
    Some(Lexeme {
        sort: LexemeSort::Token(Kind::Character),
        length,
    })
}

/// The lexeme at the front that two bytes open, through the first two that close it.
#[tactic(auto, unfolding(crate::specs::Lexemes::block_at))]
fn block_at(sort: LexemeSort, first: u8, second: u8, bytes: &[u8]) -> Option<Lexeme>
    requires opened { 1 < length bytes.now }
    requires closes { second ≢ 0 }
    requires plain { (count : ℕ) → SortFits count sort }
    ensures value { result ≡ block_at sort first second bytes.now }
    ensures fits { IfSome result (FitsIn (length bytes.now)) }
{
    let behind = through(first, second, &bytes[2..])?;
    Some(Lexeme {
        sort,
        length: 2 + behind,
    })
}

/// The lexeme at the front that goes on up to the newline or the end.
fn to_line_end(sort: LexemeSort, bytes: &[u8]) -> Lexeme
    requires nonempty { 0 < length bytes.now }
    requires in_line { IsTrue (is_in_line (slice_index bytes.now 0)) }
    requires plain { (count : ℕ) → SortFits count sort }
    ensures value { result ≡ lexeme sort (prefix_len is_in_line bytes.now) }
    ensures fits { FitsIn (length bytes.now) result }
{
    Lexeme {
        sort,
        length: run::<InLine>(bytes),
    }
}

/// The sign at the front, the longest one.
#[tactic(auto, unfolding(crate::specs::Lexemes::sign_lexeme))]
fn sign_lexeme(bytes: &[u8]) -> Option<Lexeme>
    requires { 0 < length bytes.now }
    ensures value { result ≡ sign_lexeme bytes.now }
    ensures fits { IfSome result (FitsIn (length bytes.now)) }
{
    let (kind, length) = sign_at(bytes)?;
    Some(Lexeme {
        sort: LexemeSort::Token(kind),
        length,
    })
}

/// What stands at the front where a `/` or a `%` is there: a comment, embedded C, or a sign.
#[tactic(auto, unfolding(crate::specs::Lexemes::marked_at))]
fn marked_at(bytes: &[u8]) -> Option<Lexeme>
    requires { 0 < length bytes.now }
    ensures value { result ≡ marked_at bytes.now }
    ensures fits { IfSome result (FitsIn (length bytes.now)) }
{
    match (byte_at(bytes, 0), byte_at(bytes, 1)) {
        (b'/', b'*') => block_at(LexemeSort::Skipped, b'*', b'/', bytes),
        (b'/', b'/') => Some(to_line_end(LexemeSort::Skipped, bytes)),
        (b'%', b'{') => block_at(LexemeSort::EmbeddedC, b'}', b'%', bytes),
        (b'%', b'%') => Some(to_line_end(LexemeSort::EmbeddedC, bytes)),
        _ => sign_lexeme(bytes),
    }
}

/// The lexeme that stands at the front; None where none can. `opens_line` says that no more than spaces and
/// tabs stand before it in its line.
#[tactic(auto, unfolding(crate::specs::Lexemes::lexeme_at))]
pub fn lexeme_at(opens_line: bool, bytes: &[u8]) -> Option<Lexeme>
    requires { 0 < length bytes.now }
    ensures value { result ≡ lexeme_at opens_line bytes.now }
    ensures fits { IfSome result (FitsIn (length bytes.now)) }
{
    let first = bytes[0];
    if is_letter(first) {
        return Some(word_at(bytes));
    }
    if begins_number(bytes) {
        return number_at(bytes);
    }
    match first {
        b'\n' => Some(Lexeme {
            sort: LexemeSort::LineEnd,
            length: 1,
        }),
        b' ' | b'\t' => Some(Lexeme {
            sort: LexemeSort::Blank,
            length: 1,
        }),
        b'\r' | 0x0B | 0x0C => Some(Lexeme {
            sort: LexemeSort::Skipped,
            length: 1,
        }),
        b'"' => string_at(bytes),
        b'\'' => character_lexeme(bytes),
        b'#' => {
            if opens_line {
                directive_at(bytes)
            } else {
                None
            }
        }
        _ => marked_at(bytes),
    }
}

/// What is wrong at a place where no lexeme can stand.
pub fn flaw_at(bytes: &[u8]) -> Flaw
    ensures { result ≡ flaw_at bytes.now }
{
    if begins_number(bytes) {
        return Flaw::BadNumber;
    }
    match (byte_at(bytes, 0), byte_at(bytes, 1)) {
        (b'/', b'*') => Flaw::OpenComment,
        (b'%', b'{') => Flaw::OpenEmbeddedC,
        (b'"', _) => Flaw::OpenString,
        _ => Flaw::BadByte,
    }
}
