//! Notes as blocks of lines, and as lines of a compiler.

use crate::advice::Advice;
use crate::columns::Columns;
use crate::excerpts::push_excerpt;
use crate::forms::{Diagnostic, Name, Note, NoteForm, Sheet, condition_of, letter_of, severity_of};
use crate::helps::{Help, push_all, push_help, push_three, push_words};
use crate::objects::push_object;
use itoa::Buffer;
use snl_lints::file_name;
use std::alloc::AllocError;

/// Adds `FILE:LINE:COLUMN: `.
fn push_place(out: &mut Vec<u8>, note: Note) -> Result<(), AllocError> {
    let mut digits = Buffer::new();
    push_all(out, &[note.file, b":"])?;
    push_all(
        out,
        &[digits.format(note.said.pos.line as usize).as_bytes(), b":"],
    )?;
    push_all(out, &[digits.format(note.column).as_bytes(), b": "])
}

/// Adds the number of a message, or the name of a lint.
fn push_name(out: &mut Vec<u8>, said: Diagnostic) -> Result<(), AllocError> {
    match said.name {
        Name::Lint(name) => push_all(out, &[name]),
        Name::Number(number) => {
            let mut digits = Buffer::new();
            let digits = digits.format(number).as_bytes();
            push_all(out, &[letter_of(said.severity, number), digits])?;
            Ok(())
        }
    }
}

/// Adds what is said, behind its number; what holds only once something is mended is called a note.
fn push_said(out: &mut Vec<u8>, said: Diagnostic) -> Result<(), AllocError> {
    if said.is_behind {
        push_all(out, &[b"note: ", condition_of(said)])?;
    }
    push_name(out, said)?;
    push_all(out, &[b" ", said.text, b"\n"])
}

/// Adds a line of what else there is to know.
fn push_also(out: &mut Vec<u8>, also: Help) -> Result<(), AllocError> {
    push_all(out, &[b"  = note: "])?;
    push_words(out, also)?;
    push_all(out, &[b"\n"])
}

/// Adds what stands below a block.
fn push_advice(out: &mut Vec<u8>, advice: Advice) -> Result<(), AllocError> {
    if let Some(help) = advice.help {
        push_help(out, help)?;
    }
    match advice.also {
        Some(also) => push_also(out, also),
        None => Ok(()),
    }
}

/// Adds a block: an empty line, the place and what is said of it, the line of the source, and what stands below it.
fn push_block(out: &mut Vec<u8>, source: &[u8], note: Note) -> Result<(), AllocError> {
    let mut digits = Buffer::new();
    let line = digits.format(note.said.pos.line as usize).as_bytes();
    push_all(out, &[b"\n"])?;
    push_place(out, note)?;
    push_said(out, note.said)?;
    push_excerpt(out, source, note.said.pos.offset as usize, line)?;
    push_advice(out, note.advice)
}

/// Adds a line `FILE:LINE:COLUMN: note: HELP`.
fn push_note_line(out: &mut Vec<u8>, note: Note, help: Help) -> Result<(), AllocError> {
    push_place(out, note)?;
    push_all(out, &[b"note: "])?;
    push_words(out, help)?;
    push_all(out, &[b"\n"])
}

/// Adds a line `FILE:LINE:COLUMN: error: TEXT [E13]`.
fn push_line(out: &mut Vec<u8>, note: Note) -> Result<(), AllocError> {
    push_place(out, note)?;
    push_all(out, &[severity_of(note.said), b": "])?;
    push_three(out, condition_of(note.said), note.said.text, b" [")?;
    push_name(out, note.said)?;
    push_all(out, &[b"]\n"])
}

/// Adds that line, and one of each thing that stands below it.
fn push_lines(out: &mut Vec<u8>, note: Note) -> Result<(), AllocError> {
    push_line(out, note)?;
    if let Some(help) = note.advice.help {
        push_note_line(out, note, help)?;
    }
    match note.advice.also {
        Some(also) => push_note_line(out, note, also),
        None => Ok(()),
    }
}

/// Adds a note. Fails only where memory ends.
pub fn push_note(
    out: &mut Vec<u8>,
    sheet: Sheet,
    columns: &mut Columns,
    said: Diagnostic,
    advice: Advice,
) -> Result<(), AllocError> {
    let note = Note {
        file: file_name(sheet.text, said.pos.file as usize),
        column: columns.column(said.pos.offset as usize),
        said,
        advice,
    };
    match sheet.form {
        NoteForm::Text => push_block(out, sheet.text.source, note),
        NoteForm::Gcc => push_lines(out, note),
        NoteForm::Json => push_object(sheet.alloc, out, columns, note),
    }
}
