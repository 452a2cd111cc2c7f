//! Notes as objects of JSON, one on a line.

use crate::advice::{Advice, Edit};
use crate::columns::Columns;
use crate::forms::{Diagnostic, Name, Note, letter_of, severity_of};
use crate::helps::{Help, push_all, push_words};
use itoa::Buffer;
use serde_json::Value;
use std::alloc::{AllocError, Global};

/// Adds bytes as a string of JSON; what is no UTF-8 becomes U+FFFD.
fn push_string(alloc: Global, out: &mut Vec<u8>, bytes: &[u8]) -> Result<(), AllocError> {
    let value = Value::String(String::from_utf8_lossy(alloc, bytes)?);
    let text = value.to_string(alloc)?;
    out.extend_from_slice(text.as_bytes())
}

/// Adds a key and a number behind it.
fn push_number(out: &mut Vec<u8>, key: &[u8], number: usize) -> Result<(), AllocError> {
    let mut digits = Buffer::new();
    let digits = digits.format(number).as_bytes();
    push_all(out, &[key, digits])?;
    Ok(())
}

/// Adds the column of a begin, and that of the end so many bytes behind it.
fn push_columns(out: &mut Vec<u8>, column: usize, length: usize) -> Result<(), AllocError> {
    push_number(out, b",\"column\":", column)?;
    push_number(out, b",\"end\":", column.saturating_add(length))
}

/// Adds the place: the file, the line, and the columns of its begin and its end.
fn push_place(alloc: Global, out: &mut Vec<u8>, note: Note) -> Result<(), AllocError> {
    out.extend_from_slice(b"{\"file\":")?;
    push_string(alloc, out, note.file)?;
    push_number(out, b",\"line\":", note.said.pos.line as usize)?;
    push_columns(out, note.column, note.said.length)
}

/// Adds the number of a message, or the name of a lint.
fn push_name(out: &mut Vec<u8>, said: Diagnostic) -> Result<(), AllocError> {
    match said.name {
        Name::Lint(name) => push_all(out, &[name]),
        Name::Number(number) => push_number(
            out,
            letter_of(said.severity, number),
            usize::from(number),
        ),
    }
}

/// Adds what is said.
fn push_said(alloc: Global, out: &mut Vec<u8>, said: Diagnostic) -> Result<(), AllocError> {
    push_all(
        out,
        &[b",\"severity\":\"", severity_of(said), b"\",\"name\":\""],
    )?;
    push_name(out, said)?;
    out.extend_from_slice(b"\",\"text\":")?;
    push_string(alloc, out, said.text)
}

/// Adds words as a string.
fn push_quoted(alloc: Global, out: &mut Vec<u8>, words: Help) -> Result<(), AllocError> {
    let mut text = Vec::new(alloc);
    push_words(&mut text, words)?;
    push_string(alloc, out, text.as_slice())
}

/// Adds the list of what helps, and of what else there is to know.
fn push_helps(alloc: Global, out: &mut Vec<u8>, advice: Advice) -> Result<(), AllocError> {
    out.extend_from_slice(b",\"helps\":[")?;
    if let Some(help) = advice.help {
        push_quoted(alloc, out, help)?;
    }
    if advice.help.is_some() && advice.also.is_some() {
        out.extend_from_slice(b",")?;
    }
    if let Some(also) = advice.also {
        push_quoted(alloc, out, also)?;
    }
    out.extend_from_slice(b"]")
}

/// Adds the list of a change of the source, at a column.
fn push_edit(
    alloc: Global,
    out: &mut Vec<u8>,
    column: usize,
    edit: Edit,
) -> Result<(), AllocError> {
    push_number(out, b",\"edits\":[{\"line\":", edit.line)?;
    push_columns(out, column, edit.length)?;
    out.extend_from_slice(b",\"text\":")?;
    let mut text = Vec::new(alloc);
    push_all(&mut text, &edit.text)?;
    push_string(alloc, out, text.as_slice())?;
    out.extend_from_slice(b"}]")
}

/// Adds a note as an object. Fails only where memory ends.
pub fn push_object(
    alloc: Global,
    out: &mut Vec<u8>,
    columns: &mut Columns,
    note: Note,
) -> Result<(), AllocError> {
    push_place(alloc, out, note)?;
    push_said(alloc, out, note.said)?;
    push_helps(alloc, out, note.advice)?;
    if let Some(edit) = note.advice.edit {
        push_edit(alloc, out, columns.column(edit.offset), edit)?;
    }
    out.extend_from_slice(b"}\n")
}
