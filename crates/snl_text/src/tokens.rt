//! Tokens and places, and what a source is cut into.

use crate::kinds::Kind;

/// A place in the source. Its numbers are short, since places stand everywhere in a tree, and a source has its limit.
#[derive(Clone, Copy, Debug, PartialEq, Eq)]
pub struct Pos {
    /// Bytes before the place.
    pub offset: u32,
    /// 0 for the file that was read; else the number, from 1, of a name in [`Lexed::files`].
    pub file: u32,
    /// Counted from 1; only a newline ends a line.
    pub line: u32,
}

/// One token, with the bytes that spell it.
#[derive(Clone, Copy, Debug, PartialEq, Eq)]
pub struct Token<'a> {
    pub kind: Kind,
    pub pos: Pos,
    /// As spelled, so a string has its quotes.
    pub text: &'a [u8],
}

/// A source cut into its tokens.
#[derive(Debug, Drop)]
pub struct Lexed<'a> {
    /// In the order of the source.
    pub tokens: Vec<Token<'a>>,
    /// Where each lexeme of embedded C begins, in the order of the source.
    pub embedded: Vec<Pos>,
    /// The names of files that markers gave, as spelled between their quotes. The first has number 1.
    pub files: Vec<&'a [u8]>,
    /// Where the source ends.
    pub eof: Pos,
}
