//! Messages while they are gathered.

ghost use Rattle.std.specs.Prelude.{◌≡◌, [], ◌∷◌, ◌++◌, map, OnOk};
ghost use Rattle.snl_messages.specs.Entries.{finding_in, message_in};
ghost use Rattle.snl_messages.specs.Findings.{finding};
ghost use Rattle.snl_messages.specs.Lists as spec;

use crate::matters::Matter;
use crate::messages::{Message, Severity};
use snl_text::Pos;
use std::alloc::{AllocError, Global};

/// What messages are ordered by: the place, then errors before warnings, then the number.
#[derive(Clone, Copy, PartialEq, Eq, PartialOrd, Ord)]
pub struct Key {
    /// The byte at which it stands.
    pub offset: u32,
    /// Errors come first.
    pub is_warning: bool,
    pub number: u8, // after E or W
}

/// A message whose derived order is that of messages. Of limits with one key the first in their
/// list comes first. What comes after only tells messages apart that no source has at one place.
#[derive(PartialEq, Eq, PartialOrd, Ord, Drop)]
pub struct Entry {
    /// What it is sorted by first.
    pub key: Key,
    rank: u8,
    file: u32,
    line: u32,
    text: Vec<u8>,
}

/// Adds what is said of a matter at a place. Its message may quote these bytes. Fails only where memory ends.
pub fn note(
    alloc: Global,
    matter: Matter,
    pos: Pos,
    quote: &[u8],
    entries: &mut Vec<Entry>,
) -> Result<(), AllocError>
    ensures { OnOk result (map finding_in entries.new.items
        ≡ map finding_in entries.old.items ++ finding matter pos quote.now ∷ []) }
{
    let text = matter.text(alloc, quote)?;
    entries.push(Entry {
        key: Key {
            offset: pos.offset,
            is_warning: matter.is_warning(),
            number: matter.number(),
        },
        rank: matter.rank(),
        file: pos.file,
        line: pos.line,
        text,
    })?;
    Ok(())
}

impl Entry {
    /// Its message.
    pub fn into_message(self) -> Message
        ensures { result ≡ message_in self }
    {
        Message {
            pos: Pos {
                offset: self.key.offset,
                file: self.file,
                line: self.line,
            },
            severity: if self.key.is_warning {
                Severity::Warning
            } else {
                Severity::Error
            },
            number: self.key.number,
            text: self.text,
        }
    }
}

/// Whether one of the messages is an error.
pub fn has_error(entries: &[Entry]) -> bool
    ensures { result ≡ spec.has_error (map finding_in entries.now) }
{
    for entry in entries {
        if !entry.key.is_warning {
            return true;
        }
    }
    false
}
