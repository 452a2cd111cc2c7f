//! The notes on the messages about a source.

use crate::check::SourceJob;
use snl_args::Format;
use snl_notes::{NoteForm, Read, notes_of};
use std::alloc::AllocError;

/// How notes are written in a format.
fn form_of(format: Format) -> NoteForm {
    match format {
        Format::Text => NoteForm::Text,
        Format::Gcc => NoteForm::Gcc,
        Format::Json => NoteForm::Json,
    }
}

/// A note on each message, where there are some. The only error is that memory ends.
pub fn notes_on(
    rt: &HostRuntime,
    piece: SourceJob,
    format: Format,
    messages: &[u8],
) -> Result<Vec<u8>, AllocError> {
    if messages.is_empty() {
        return Ok(Vec::new(rt.alloc()));
    }
    let read = Read {
        source: piece.source,
        file: piece.job.file.as_bytes(),
        form: form_of(format),
    };
    notes_of(rt.alloc(), read, piece.job.options)
}

/// The messages as they stand in front of the notes: none where these have all that they say.
pub fn in_front(format: Format, messages: &[u8]) -> &[u8] {
    match format {
        Format::Text => messages,
        Format::Gcc | Format::Json => &[],
    }
}
