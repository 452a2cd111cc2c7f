//! The notes on the messages about a program.

use crate::advice::Advice;
use crate::blocks::push_note;
use crate::columns::Columns;
use crate::forms::{Diagnostic, Name, Sheet};
use crate::helps::Help;
use crate::numbered::error_help;
use crate::tokens::number_from;
use snl_check::{Message, Severity};
use snl_text::Token;
use std::alloc::{AllocError, Global};

/// How many messages have a help at most, of those that come first: what may have been meant is looked for in the whole source.
const HELPED: usize = 200;

/// How far the notes came.
#[derive(Drop)]
struct Reached<'s> {
    /// The columns that were counted.
    columns: Columns<'s>,
    /// The number of the token of the last one.
    at: usize,
    /// How many there are.
    count: usize,
}

/// The first of some messages that says the same as another one, which follows from it.
fn first_like<'m>(messages: &'m [Message], message: &Message) -> Option<&'m Message> {
    for earlier in messages {
        if earlier.number == message.number && earlier.text.as_slice() == message.text.as_slice() {
            return Some(earlier);
        }
    }
    None
}

/// Whether some target is wrong, or a state stands twice.
fn has_wrong_target(messages: &[Message]) -> bool {
    for message in messages {
        if message.severity == Severity::Error && matches!(message.number, 24 | 25) {
            return true;
        }
    }
    false
}

/// What helps at a warning.
fn warning_help<'a>(messages: &[Message], number: u8) -> Option<Help<'a>> {
    match number {
        1 => Some(Help::Words(b"option +s; says so")),
        2 if has_wrong_target(messages) => Some(Help::Words(
            b"it may follow from a state that is told above or below to be missing or defined twice",
        )),
        4 => Some(Help::Words(b"a monitor brings the values that set the event flag")),
        _ => None,
    }
}

/// What helps at a message, where these come before it, and it stands at the token of a number.
fn message_help<'a>(
    alloc: Global,
    tokens: &[Token<'a>],
    messages: &[Message],
    message: &Message,
    at: usize,
) -> Result<Option<Help<'a>>, AllocError> {
    if message.severity == Severity::Warning {
        return Ok(warning_help(messages, message.number));
    }
    match first_like(messages, message) {
        Some(first) if first.pos.offset < message.pos.offset => {
            Ok(Some(Help::Counted(b"as in line ", first.pos.line as usize, b"")))
        }
        _ => error_help(alloc, tokens, message.number, at),
    }
}

/// How many bytes the token of a number has that stands at an offset; 1 where none stands there.
fn length_at(tokens: &[Token], at: usize, offset: usize) -> usize {
    match tokens.get(at) {
        Some(token) if (token.pos.offset as usize) == offset => token.text.len(),
        _ => 1,
    }
}

/// Adds the note on a message.
fn push_message(
    out: &mut Vec<u8>,
    sheet: Sheet,
    tokens: &[Token],
    messages: &[Message],
    message: &Message,
    reached: &mut Reached,
) -> Result<(), AllocError> {
    let at = number_from(tokens, reached.at, message.pos.offset as usize);
    let help = if reached.count < HELPED {
        message_help(sheet.alloc, tokens, messages, message, at)?
    } else {
        None
    };
    reached.at = at;
    reached.count = reached.count.saturating_add(1);
    let said = Diagnostic {
        pos: message.pos,
        length: length_at(tokens, at, message.pos.offset as usize),
        severity: message.severity,
        name: Name::Number(message.number),
        text: message.text.as_slice(),
        is_behind: false,
    };
    push_note(out, sheet, &mut reached.columns, said, Advice::of(help))
}

/// Adds the notes on messages. Fails only where memory ends.
pub fn push_messages(
    out: &mut Vec<u8>,
    sheet: Sheet,
    tokens: &[Token],
    messages: &[Message],
) -> Result<(), AllocError> {
    let mut reached = Reached {
        columns: Columns::new(sheet.text.source),
        at: 0,
        count: 0,
    };
    for message in messages {
        push_message(out, sheet, tokens, messages, message, &mut reached)?;
    }
    Ok(())
}
