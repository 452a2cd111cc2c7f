//! The note on a source that cannot be cut into tokens.

use crate::advice::Advice;
use crate::blocks::push_note;
use crate::bytes::{byte_help, number_help};
use crate::columns::Columns;
use crate::forms::{Diagnostic, Name, Sheet};
use crate::helps::Help;
use crate::notes::Read;
use snl_check::Severity;
use snl_lints::Text;
use snl_messages::Refusal;
use snl_text::{LexFault, Pos, lex};
use std::alloc::{AllocError, Global};

/// What helps, by what stands there.
fn fault_help<'a>(source: &'a [u8], fault: LexFault, pos: Pos) -> Option<Help<'a>> {
    let rest = source.get((pos.offset as usize)..)?;
    match fault {
        LexFault::BadByte(_) => Some(byte_help(rest)),
        LexFault::BadNumber(_) => Some(Help::Words(number_help(rest))),
        LexFault::OpenString(_) => Some(Help::Words(
            b"the second \" of a text stands on the same line",
        )),
        LexFault::OpenComment(_) => Some(Help::Words(b"*/ ends a comment")),
        LexFault::OpenEmbeddedC(_) => Some(Help::Words(
            b"}% ends embedded C, on a line of its own",
        )),
        LexFault::SourceTooLong(_) | LexFault::Memory => None,
    }
}

/// Adds the note.
fn push_fault(out: &mut Vec<u8>, sheet: Sheet, fault: LexFault) -> Result<(), AllocError> {
    let (Some(words), Some(pos)) = (fault.text(), fault.pos()) else {
        return Err(AllocError);
    };
    let said = Diagnostic {
        pos,
        length: 1,
        severity: Severity::Error,
        name: Name::Number(Refusal::NoTokens.number()),
        text: words.as_bytes(),
        is_behind: false,
    };
    let help = fault_help(sheet.text.source, fault, pos);
    let mut columns = Columns::new(sheet.text.source);
    push_note(out, sheet, &mut columns, said, Advice::of(help))
}

/// The note, where markers gave these names.
fn named_notes(
    alloc: Global,
    read: Read,
    marked: &[&[u8]],
    fault: LexFault,
) -> Result<Vec<u8>, AllocError> {
    let mut out = Vec::new(alloc);
    let text = Text {
        source: read.source,
        file: read.file,
        marked,
    };
    let sheet = Sheet {
        alloc,
        text,
        form: read.form,
    };
    push_fault(&mut out, sheet, fault)?;
    Ok(out)
}

/// At most so many of the first bytes.
fn front(source: &[u8], count: usize) -> &[u8] {
    if count < source.len() {
        &source[..count]
    } else {
        source
    }
}

/// The note on a fault of a source. The names that markers gave are those of what stands in front of it. Fails only where memory ends.
pub fn fault_notes(alloc: Global, read: Read, fault: LexFault) -> Result<Vec<u8>, AllocError> {
    let Some(pos) = fault.pos() else {
        return Err(AllocError);
    };
    match lex(alloc, front(read.source, pos.offset as usize)) {
        Ok(lexed) => named_notes(alloc, read, lexed.files.as_slice(), fault),
        Err(_) => named_notes(alloc, read, &[], fault),
    }
}
