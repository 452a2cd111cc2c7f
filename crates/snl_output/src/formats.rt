//! A format of `printf`, cut at its numbers when a program is loaded.

ghost use Rattle.std.specs.Prelude.{◌≡◌, ◌++◌, [], ℕ, ℤ, List, drop, false, map, IfOk, IsTrue, OnOk, if◌then◌else◌};
ghost use Rattle.snl_meaning.specs.Printing as spec;
ghost use Rattle.snl_names.specs.Formats as names;
ghost use Rattle.snl_output.specs.Formats.{filled, left_behind, shown_in};
ghost use Rattle.snl_output.specs.Texts.{text_in};

use crate::texts::Text;
use snl_names::formats::{FormatState, converts, next, unquoted};
use std::alloc::{AllocError, Global};

/// A text of a format, and behind it a number.
#[derive(Drop)]
pub struct Part {
    pub(crate) text: Text,
    /// Whether the number is done with then, so that the next one is the one behind it. A format that the rules allow has no other part.
    pub(crate) takes: bool,
}

/// A format of `printf`.
#[derive(Drop)]
pub struct Format {
    /// As it is spelled, with its quotes. It stands in what is promised, and no code reads it.
    spelled: Vec<u8>,
    /// What it writes up to its last number.
    pub(crate) parts: Vec<Part>,
    /// What it writes behind that, and the end of the line.
    pub(crate) rest: Text,
    ghost cut: { (numbers : List ℤ) → shown_in spelled.items numbers
        ≡ filled parts.items numbers (text_in rest) },
}

/// Whether a byte of a format writes a number.
fn writes_number(state: FormatState, byte: u8) -> bool
    ensures number { IsTrue result → (numbers : List ℤ) →
        spec.shown_byte state byte numbers ≡ spec.first_shown numbers }
    ensures text { result ≡ false → (numbers : List ℤ) →
        spec.shown_byte state byte numbers ≡ spec.shown_byte state byte [] }
    ensures stays { result ≡ false → names.converts state byte ≡ false }
{
    match state {
        FormatState::Percent => byte == b'd',
        FormatState::Long => true,
        FormatState::Plain | FormatState::Escaped => false,
    }
}

/// Adds what a byte of a format writes where that is no number. A tab is written as `\t`; what begins an escape or a conversion writes
/// nothing.
fn push_shown(text: &mut Vec<u8>, state: FormatState, byte: u8) -> Result<(), AllocError>
    ensures { OnOk result (text.new.items ≡ text.old.items ++ spec.shown_byte state byte []) }
{
    match state {
        FormatState::Plain => match byte {
            b'\\' | b'%' => Ok(()),
            b'\t' => text.extend_from_slice(b"\\t"),
            _ => text.extend_from_slice(&[byte]),
        },
        FormatState::Escaped => match byte {
            b'"' => text.extend_from_slice(&[byte]),
            _ => text.extend_from_slice(&[b'\\', byte]),
        },
        FormatState::Percent => match byte {
            b'%' => text.extend_from_slice(&[byte]),
            _ => Ok(()),
        },
        FormatState::Long => Ok(()),
    }
}

/// A format up to a place.
#[derive(Drop)]
struct Cut {
    parts: Vec<Part>,
    /// What it writes behind its last number.
    text: Vec<u8>,
}

impl Cut {
    /// Adds what a byte writes. The only error is that memory ends.
    fn add(&mut self, alloc: Global, state: FormatState, byte: u8) -> Result<(), AllocError>
        ensures left { OnOk result ((numbers : List ℤ) → left_behind self.new.parts.items numbers
            ≡ (if names.converts state byte then drop 1 (left_behind self.old.parts.items numbers)
            else left_behind self.old.parts.items numbers)) }
        ensures written { OnOk result ((numbers : List ℤ) (rest : List ℕ) →
            filled self.new.parts.items numbers (self.new.text.items ++ rest)
            ≡ filled self.old.parts.items numbers (self.old.text.items
            ++ (spec.shown_byte state byte (left_behind self.old.parts.items numbers) ++ rest))) }
    {
        if !writes_number(state, byte) {
            push_shown(&mut self.text, state, byte)?;
            return Ok(());
        }
        let text = Text::of(alloc, self.text.as_slice())?;
        self.text.clear();
        let takes = converts(state, byte);
        self.parts.push(Part { text, takes })?;
        Ok(())
    }
}

/// Cuts the text of a format. The only error is that memory ends.
fn cut_text(alloc: Global, text: &[u8]) -> Result<Cut, AllocError>
    ensures { IfOk result (λ c. (numbers : List ℤ) → spec.shown FormatState.Plain numbers text.now
        ≡ filled c.parts.items numbers c.text.items) }
{
    let mut done = Cut {
        parts: Vec::new(alloc),
        text: Vec::new(alloc),
    };
    let mut state = FormatState::Plain;
    for byte in text {
        done.add(alloc, state, *byte)?;
        state = next(state, *byte).unwrap_or(FormatState::Plain);
    }
    Ok(done)
}

impl Format {
    ghost use Rattle.snl_output.specs.Spelled.{spelled_in};

    /// A format, as spelled with its quotes. The only error is that memory ends.
    pub fn of(alloc: Global, spelled: &[u8]) -> Result<Self, AllocError>
        ensures { IfOk result (λ format. spelled_in format ≡ spelled.now) }
    {
        let Cut { parts, mut text } = cut_text(alloc, unquoted(spelled))?;
        text.extend_from_slice(b"\n")?;
        let spelled = Vec::from_slice(alloc, spelled)?;
        Ok(Format {
            spelled,
            parts,
            rest: Text::of(alloc, text.as_slice())?,
        })
    }

    /// Some formats, in their order. The only error is that memory ends.
    pub fn all(alloc: Global, texts: &[Vec<u8>]) -> Result<Vec<Format>, AllocError>
        ensures { IfOk result (λ formats. map spelled_in formats.items
            ≡ map (λ text. text.items) texts.now) }
    {
        let mut formats = Vec::new(alloc);
        for text in texts {
            formats.push(Format::of(alloc, text.as_slice())?)?;
        }
        Ok(formats)
    }
}
