//! The notes on a source: one for each message about it.

use crate::faulty::fault_notes;
use crate::forms::{NoteForm, Sheet};
use crate::messages::push_messages;
use crate::refused::{push_refused, push_too_deep};
use snl_check::{Message, Options, Outcome, check};
use snl_lints::Text;
use snl_syntax::Program;
use snl_text::{LexFault, Lexed, lex};
use snl_tree::{ParseFault, parse};
use std::alloc::{AllocError, Global};

/// The messages about a program.
fn messages_of(
    alloc: Global,
    program: Program,
    given: Options,
) -> Result<Vec<Message>, AllocError> {
    let Outcome {
        messages,
        checked: _,
    } = check(alloc, program, given)?;
    Ok(messages)
}

/// Adds the notes on tokens.
fn push_notes(
    out: &mut Vec<u8>,
    sheet: Sheet,
    lexed: &Lexed,
    given: Options,
) -> Result<(), AllocError> {
    match parse(sheet.alloc, lexed) {
        Ok(program) => {
            let messages = messages_of(sheet.alloc, program, given)?;
            push_messages(out, sheet, lexed.tokens.as_slice(), messages.as_slice())
        }
        Err(ParseFault::Memory) => Err(AllocError),
        Err(ParseFault::Unexpected(at)) => push_refused(out, sheet, lexed, at),
        Err(ParseFault::TooDeep(at)) => push_too_deep(out, sheet, lexed, at),
    }
}

/// The notes on a source that was cut into tokens.
fn token_notes(
    alloc: Global,
    read: Read,
    lexed: &Lexed,
    given: Options,
) -> Result<Vec<u8>, AllocError> {
    let mut out = Vec::new(alloc);
    let text = Text {
        source: read.source,
        file: read.file,
        marked: lexed.files.as_slice(),
    };
    let sheet = Sheet {
        alloc,
        text,
        form: read.form,
    };
    push_notes(&mut out, sheet, lexed, given)?;
    Ok(out)
}

/// A source, what its file is called, and how notes on it are written.
#[derive(Clone, Copy)]
pub struct Read<'s> {
    /// The bytes of the file.
    pub source: &'s [u8],
    /// The word of the call that names it.
    pub file: &'s [u8],
    /// How the notes are written.
    pub form: NoteForm,
}

/// A note on each message about a source, under the options of a call, in the order of the messages. docs/tools/check.md has the forms.
///
/// The only error is that memory ends.
pub fn notes_of(alloc: Global, read: Read, given: Options) -> Result<Vec<u8>, AllocError> {
    match lex(alloc, read.source) {
        Ok(lexed) => token_notes(alloc, read, &lexed, given),
        Err(LexFault::Memory) => Err(AllocError),
        Err(fault) => fault_notes(alloc, read, fault),
    }
}
