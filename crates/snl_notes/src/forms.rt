//! How notes are written.

use crate::advice::Advice;
use snl_check::Severity;
use snl_lints::Text;
use snl_text::Pos;
use std::alloc::Global;

/// How notes are written: docs/tools/check.md has each form.
#[derive(Clone, Copy)]
pub enum NoteForm {
    /// A block of lines.
    Text,
    /// A line for a place, and one for what helps, as compilers write them.
    Gcc,
    /// An object of JSON on a line.
    Json,
}

/// What notes are made of and how.
#[derive(Clone, Copy)]
pub struct Sheet<'t, 'a> {
    /// For memory.
    pub alloc: Global,
    /// The source and the names of its files.
    pub text: Text<'t, 'a>,
    /// How they are written.
    pub form: NoteForm,
}

/// What a note is called by.
#[derive(Clone, Copy)]
pub enum Name<'s> {
    /// The number of a message.
    Number(u8),
    /// The name of a lint.
    Lint(&'s [u8]),
}

/// What is said of a place.
#[derive(Clone, Copy)]
pub struct Diagnostic<'s> {
    /// The place.
    pub pos: Pos,
    /// How many bytes it is said of.
    pub length: usize,
    /// Whether it is an error.
    pub severity: Severity,
    /// What it is called by.
    pub name: Name<'s>,
    /// Its text.
    pub text: &'s [u8],
    /// Whether it holds once what stands in front of it is mended.
    pub is_behind: bool,
}

/// What is said, where that is, and what stands below it.
#[derive(Clone, Copy)]
pub struct Note<'s> {
    /// The file of the place.
    pub file: &'s [u8],
    /// The column of the place.
    pub column: usize,
    /// What is said.
    pub said: Diagnostic<'s>,
    /// What stands below it.
    pub advice: Advice<'s>,
}

/// What stands in front of the digits of a number: that of an error has two digits.
pub fn letter_of(severity: Severity, number: u8) -> &'static [u8] {
    match severity {
        Severity::Error if number < 10 => b"E0",
        Severity::Error => b"E",
        Severity::Warning => b"W",
    }
}

/// How grave it is, as compilers call it: what holds only once something is mended is a note.
pub fn severity_of(said: Diagnostic) -> &'static [u8] {
    match said.severity {
        _ if said.is_behind => b"note",
        Severity::Error => b"error",
        Severity::Warning => b"warning",
    }
}

/// What stands in front of a text that holds only once something is mended.
pub fn condition_of(said: Diagnostic) -> &'static [u8] {
    if said.is_behind {
        b"once that is mended, "
    } else {
        b""
    }
}
