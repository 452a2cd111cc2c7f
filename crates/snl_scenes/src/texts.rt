//! The text of a part of a condition, in pieces between which values are told.

use crate::named::Values;
use crate::sources::{Source, Span};
use crate::steps::Step;
use snl_text::{Kind, Token};
use std::alloc::{AllocError, Global};
use std::mem::replace;

/// How many bytes of the text of a part are told at most.
const TOLD: usize = 200;

/// A piece of the text of a part: bytes, and the value behind them, where one is told.
#[derive(Drop)]
pub(crate) struct TextPiece {
    pub text: Vec<u8>,
    /// The steps of the value; none where none is told.
    pub value: Vec<Step>,
}

/// The text of a part of which not all tokens came yet.
#[derive(Drop)]
struct Begun {
    /// The pieces in front of values.
    pieces: Vec<TextPiece>,
    /// What came behind them.
    text: Vec<u8>,
    /// Where the brackets stand that are open.
    brackets: Vec<usize>,
    /// Where the last token ended.
    end: usize,
}

/// Where a token ends.
fn end_of(token: &Token) -> usize {
    (token.pos.offset as usize).saturating_add(token.text.len())
}

/// Whether a byte is shown as a blank.
fn is_blank(byte: u8) -> bool {
    byte <= b' ' || byte == 127
}

/// Whether a text ends with a blank.
fn is_parted(text: &[u8]) -> bool {
    match text.last() {
        Some(byte) => *byte == b' ',
        None => false,
    }
}

/// Adds what stands between two tokens, with one blank for blanks and line ends; in front of the first token, where nothing stands before
/// it, none.
fn push_between(out: &mut Vec<u8>, between: &[u8], is_first: bool) -> Result<(), AllocError> {
    for byte in between {
        if !is_blank(*byte) {
            out.push(*byte)?;
        } else if !is_parted(out.as_slice()) && !(is_first && out.is_empty()) {
            out.push(b' ')?;
        }
    }
    Ok(())
}

/// The offset by which the value behind a token is found: that of a name itself, or of the `[` that a `]` closes.
fn key_of(token: &Token, brackets: &mut Vec<usize>) -> Result<Option<usize>, AllocError> {
    match token.kind {
        Kind::OpenBracket => {
            brackets.push(token.pos.offset as usize)?;
            Ok(None)
        }
        Kind::CloseBracket => Ok(brackets.pop()),
        Kind::Name => Ok(Some(token.pos.offset as usize)),
        _ => Ok(None),
    }
}

impl Begun {
    /// Nothing came yet of what begins at an offset.
    fn new(alloc: Global, end: usize) -> Begun {
        Begun {
            pieces: Vec::new(alloc),
            text: Vec::new(alloc),
            brackets: Vec::new(alloc),
            end,
        }
    }

    /// Takes the next token of a source, with the comments in front of it. Answers by which offset the value behind it is found.
    fn take(&mut self, source: &[u8], token: &Token) -> Result<Option<usize>, AllocError> {
        let between = source
            .get(self.end..token.pos.offset as usize)
            .unwrap_or(b"");
        push_between(&mut self.text, between, self.pieces.is_empty())?;
        self.text.extend_from_slice(token.text)?;
        self.end = end_of(token);
        key_of(token, &mut self.brackets)
    }

    /// Ends a piece in front of a value.
    fn part(&mut self, alloc: Global, steps: &[Step]) -> Result<(), AllocError> {
        let value = Vec::from_slice(alloc, steps)?;
        let text = replace(&mut self.text, Vec::new(alloc));
        self.pieces.push(TextPiece { text, value })?;
        Ok(())
    }

    /// Ends the last piece, with the comments behind the last token.
    fn finish(&mut self, alloc: Global, behind: &[u8]) -> Result<(), AllocError> {
        push_between(&mut self.text, behind.trim_ascii_end(), false)?;
        self.text.truncate(TOLD);
        self.part(alloc, &[])
    }
}

/// The steps of the value that is found by an offset.
fn value_at(values: &Values, key: Option<usize>) -> Option<&Vec<Step>> {
    match key {
        Some(key) => values.get(&key),
        None => None,
    }
}

/// The text of a part in pieces, each but the last in front of a value, with the comments in it and behind it. The only error is that
/// memory ends.
pub(crate) fn pieces_of(
    alloc: Global,
    source: &Source,
    span: Span,
    values: &Values,
) -> Result<Vec<TextPiece>, AllocError> {
    let tokens = source.tokens(span);
    let first = tokens.first().map_or(0, |first| first.pos.offset as usize);
    let mut begun = Begun::new(alloc, first);
    for token in tokens {
        let key = begun.take(source.text, token)?;
        if let Some(steps) = value_at(values, key) {
            begun.part(alloc, steps.as_slice())?;
        }
    }
    let behind = source.text.get(begun.end..span.end).unwrap_or(b"");
    begun.finish(alloc, behind)?;
    Ok(begun.pieces)
}
