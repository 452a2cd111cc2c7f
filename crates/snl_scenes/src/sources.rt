//! The tokens of a source, and those of the condition of a clause among them.

use indexmap::IndexMap;
use snl_text::{Kind, Token, lex};
use std::alloc::{AllocError, Global};

/// The tokens of a source.
#[derive(Drop)]
pub(crate) struct Source<'s> {
    pub text: &'s [u8],
    tokens: Vec<Token<'s>>,
    /// By the offset of a word `when`, its number among the tokens.
    whens: IndexMap<usize, usize>,
}

/// What joins a part of a condition with the one in front of it.
#[derive(Clone, Copy, PartialEq, Eq)]
pub(crate) enum Joint {
    /// Nothing: it is the first one.
    First,
    /// `&&`
    And,
    /// `||`
    Or,
}

/// Which tokens of a source a part of a condition has.
#[derive(Clone, Copy)]
pub(crate) struct Span {
    /// What joins it with the part in front of it.
    pub joint: Joint,
    /// The number of the first token.
    pub first: usize,
    /// The number behind the last one.
    pub past: usize,
    /// Where what follows it stands in the source.
    pub end: usize,
}

/// By the offset of a word `when`, its number among tokens.
fn whens_of(alloc: Global, tokens: &[Token]) -> Result<IndexMap<usize, usize>, AllocError> {
    let mut whens = IndexMap::new(alloc);
    for (number, token) in tokens.iter().enumerate() {
        if matches!(token.kind, Kind::When) {
            whens.insert(token.pos.offset as usize, number)?;
        }
    }
    Ok(whens)
}

/// The place of the parenthesis that closes the one in front of some tokens.
fn closing(tokens: &[Token]) -> Option<usize> {
    let mut depth = 0usize;
    for (place, token) in tokens.iter().enumerate() {
        match token.kind {
            Kind::OpenParenthesis => depth = depth.saturating_add(1),
            Kind::CloseParenthesis if depth == 0 => return Some(place),
            Kind::CloseParenthesis => depth = depth.saturating_sub(1),
            _ => {}
        }
    }
    None
}

impl<'s> Source<'s> {
    /// The tokens of a source that can be read. The only error is that memory ends.
    pub(crate) fn new(alloc: Global, text: &'s [u8]) -> Result<Source<'s>, AllocError> {
        match lex(alloc, text) {
            Ok(lexed) => {
                let whens = whens_of(alloc, lexed.tokens.as_slice())?;
                Ok(Source {
                    text,
                    tokens: lexed.tokens,
                    whens,
                })
            }
            Err(_) => Err(AllocError),
        }
    }

    /// Those of a part of a condition.
    pub(crate) fn tokens(&self, span: Span) -> &[Token<'s>] {
        let past = span.past.min(self.tokens.len());
        let first = span.first.min(past);
        &self.tokens.as_slice()[first..past]
    }

    /// The tokens behind the parenthesis that follows a word `when` at an offset, in front of the one that closes it.
    fn behind(&self, word: usize) -> Option<Span> {
        let number = *self.whens.get(&word)?;
        let first = number.saturating_add(2);
        let behind = self.tokens.as_slice().get(first..)?;
        let place = closing(behind)?;
        let end = behind.get(place)?.pos.offset as usize;
        Some(Span {
            joint: Joint::First,
            first,
            past: first.saturating_add(place),
            end,
        })
    }

    /// The same; no tokens where there is no such word.
    pub(crate) fn condition(&self, word: usize) -> Span {
        match self.behind(word) {
            Some(span) => span,
            None => Span {
                joint: Joint::First,
                first: 0,
                past: 0,
                end: 0,
            },
        }
    }
}
