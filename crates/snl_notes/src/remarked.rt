//! What lints remark, as objects of JSON.

use crate::advice::Advice;
use crate::blocks::push_note;
use crate::columns::Columns;
use crate::forms::{Diagnostic, Name, NoteForm, Sheet};
use crate::helps::push_all;
use snl_check::Severity;
use snl_lints::{Remark, Text, is_silenced, name_of, words_of};
use std::alloc::{AllocError, Global};

/// Adds a text behind a quote, and words behind it.
fn push_quoted<'t>(out: &mut Vec<u8>, text: &'t [u8], words: &'t [u8]) -> Result<(), AllocError> {
    push_all(out, &[b"'", text, words])
}

/// Adds the object of a remark.
fn push_remark(
    out: &mut Vec<u8>,
    sheet: Sheet,
    columns: &mut Columns,
    remark: &Remark,
) -> Result<(), AllocError> {
    let mut text = Vec::new(sheet.alloc);
    push_quoted(&mut text, remark.token.text, words_of(remark.lint))?;
    let said = Diagnostic {
        pos: remark.token.pos,
        length: remark.token.text.len(),
        severity: Severity::Warning,
        name: Name::Lint(name_of(remark.lint)),
        text: text.as_slice(),
        is_behind: false,
    };
    push_note(out, sheet, columns, said, Advice::of(None))
}

/// Adds that, where the remark is not silenced.
fn push_unless(
    out: &mut Vec<u8>,
    sheet: Sheet,
    columns: &mut Columns,
    silenced: &[String],
    remark: &Remark,
) -> Result<(), AllocError> {
    let line = remark.token.pos.line as usize;
    if is_silenced(sheet.alloc, silenced, remark.lint, line)? {
        Ok(())
    } else {
        push_remark(out, sheet, columns, remark)
    }
}

/// An object of JSON for each remark that is not silenced, each on a line. The only error is that memory ends.
pub fn objects_of(
    alloc: Global,
    silenced: &[String],
    text: Text,
    remarks: &[Remark],
) -> Result<Vec<u8>, AllocError> {
    let sheet = Sheet {
        alloc,
        text,
        form: NoteForm::Json,
    };
    let mut out = Vec::new(alloc);
    let mut columns = Columns::new(text.source);
    for remark in remarks {
        push_unless(&mut out, sheet, &mut columns, silenced, remark)?;
    }
    Ok(out)
}
