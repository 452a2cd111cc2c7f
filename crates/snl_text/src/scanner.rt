//! The walk over the source, lexeme by lexeme.

ghost use Rattle.snl_text.specs.Cut.{after, along, beyond, newlines, nothing_read, file_number, renamed, with_name};
ghost use Rattle.snl_text.specs.Lexemes.{SortFits};
ghost use Rattle.std.specs.Prelude.{◌+◌, ◌<◌, ◌≡◌, ◌≤◌, ◌^◌, IfOk, OnOk, length, map};

use crate::lexemes::LexemeSort;
use crate::markers::Marker;
use crate::tokens::{Pos, Token};
use indexmap::IndexSet;
use std::alloc::{AllocError, Global};

/// What has been read of a source, up to a place.
#[derive(Drop)]
pub struct Scanner<'a> {
    pub pos: Pos,
    /// No more than spaces and tabs stand before the place in its line.
    pub opens_line: bool,
    pub tokens: Vec<Token<'a>>,
    pub embedded: Vec<Pos>,
    /// The names of files that markers gave, in order of first use.
    pub files: IndexSet<&'a [u8]>,
}

/// How many lines end in a text.
fn newlines(text: &[u8]) -> usize
    ensures value { result ≡ newlines text.now }
    ensures within { result ≤ length text.now }
{
    let mut count = 0;
    for byte in text {
        if *byte == b'\n' {
            count += 1;
        }
    }
    count
}

/// Notes the name of a file, and answers its number, from 1.
fn note_name<'a>(files: &mut IndexSet<&'a [u8]>, name: &'a [u8]) -> Result<u32, AllocError>
    requires { length (map (λ name. name.now) files.old.keys) < 2 ^ 31 }
    ensures number { IfOk result
        (λ number. number ≡ file_number (map (λ name. name.now) files.old.keys) name.now) }
    ensures names { OnOk result (map (λ name. name.now) files.new.keys
        ≡ with_name (map (λ name. name.now) files.old.keys) name.now) }
{
    let (index, _) = files.insert_full(name)?;
    Ok(index as u32 + 1)
}

/// The place after bytes of the same line.
fn along(pos: Pos, text: &[u8]) -> Pos
    requires { pos.offset + length text.now < 2 ^ 32 }
    ensures { result ≡ along pos text.now }
{
    Pos {
        offset: pos.offset + text.len() as u32,
        file: pos.file,
        line: pos.line,
    }
}

/// The place after bytes that may end lines.
fn beyond(pos: Pos, text: &[u8]) -> Pos
    requires offset { pos.offset + length text.now < 2 ^ 32 }
    requires line { pos.line + length text.now < 2 ^ 32 }
    ensures { result ≡ beyond pos text.now }
{
    Pos {
        offset: pos.offset + text.len() as u32,
        file: pos.file,
        line: pos.line + newlines(text) as u32,
    }
}

impl<'a> Scanner<'a> {
    ghost use Rattle.snl_text.specs.Scanning.{reading};

    /// At the begin: line 1 of the file that is read, which is number 0.
    pub fn new(alloc: Global) -> Self
        ensures { reading result ≡ nothing_read }
    {
        Scanner {
            pos: Pos {
                offset: 0,
                file: 0,
                line: 1,
            },
            opens_line: true,
            tokens: Vec::new(alloc),
            embedded: Vec::new(alloc),
            files: IndexSet::new(alloc),
        }
    }

    /// Takes a lexeme, of this sort and text. Fails only where memory ends.
    pub fn take(&mut self, sort: LexemeSort, text: &'a [u8]) -> Result<(), AllocError>
        requires offset { self.old.pos.offset + length text.now < 2 ^ 31 }
        requires line { self.old.pos.line < 2 ^ 31 + self.old.pos.offset }
        requires files { length (reading self.old).files < 2 ^ 31 }
        requires fits { SortFits (length text.now) sort }
        ensures { OnOk result (reading self.new ≡ after (reading self.old) text.now sort) }
    {
        match sort {
            LexemeSort::Blank => self.pos = along(self.pos, text),
            LexemeSort::LineEnd => {
                self.pos = beyond(self.pos, text);
                self.opens_line = true;
            }
            LexemeSort::Skipped => {
                self.pos = beyond(self.pos, text);
                self.opens_line = false;
            }
            LexemeSort::EmbeddedC => {
                self.embedded.push(self.pos)?;
                self.pos = beyond(self.pos, text);
                self.opens_line = false;
            }
            LexemeSort::Marker(marker) => self.take_marker(marker, text)?,
            LexemeSort::Token(kind) => {
                self.tokens.push(Token {
                    kind,
                    pos: self.pos,
                    text,
                })?;
                self.pos = along(self.pos, text);
                self.opens_line = false;
            }
        }
        Ok(())
    }

    /// Takes a marker: the next line has its number, in its file or in the same one.
    fn take_marker(&mut self, marker: Marker, text: &'a [u8]) -> Result<(), AllocError>
        requires offset { self.old.pos.offset + length text.now < 2 ^ 31 }
        requires files { length (reading self.old).files < 2 ^ 31 }
        requires fits { SortFits (length text.now) (LexemeSort.Marker marker) }
        ensures { OnOk result
            (reading self.new ≡ renamed (reading self.old) text.now marker marker.name) }
    {
        let file = match marker.name {
            Some(span) => note_name(&mut self.files, &text[span.start..span.end])?,
            None => self.pos.file,
        };
        self.pos = Pos {
            offset: self.pos.offset + text.len() as u32,
            file,
            line: marker.line,
        };
        self.opens_line = true;
        Ok(())
    }
}
