//! `snl check`.

use crate::notes::{in_front, notes_on};
use snc::{Answered, Maker, Status, answer, macros_of};
use snc_args::Job;
use snc_cli::write;
use snl_args::{CheckWords, Format};
use snl_check::Checked;
use snl_lints::{Text, lines_of, lint_named, remarks_of};
use snl_notes::objects_of;
use std::alloc::{AllocError, Global};

/// A source, with the job of its file.
#[derive(Clone, Copy)]
pub struct SourceJob<'c> {
    /// The bytes of the file.
    pub source: &'c [u8],
    /// The word that names it, and what the call says of its options and macros.
    pub job: &'c Job,
}

/// What lints remark on.
#[derive(Drop)]
struct Remarks {
    /// A line for each remark of a lint that is not silenced.
    lines: Vec<u8>,
}

impl Maker<Remarks> for CheckWords {
    ghost right = { λ words job whole options remarks. Unit {0} };

    fn make<'a>(
        checked: &Checked<'a>,
        alloc: Global,
        source: &[u8],
        job: &Job,
        words: &Self,
    ) -> Result<Remarks, AllocError> {
        let program = checked.program();
        let remarks = remarks_of(alloc, program, checked.uses(), &macros_of(job))?;
        let text = Text {
            source,
            file: job.file.as_bytes(),
            marked: program.files.as_slice(),
        };
        let silenced = words.silenced.as_slice();
        let lines = match words.format {
            Format::Json => objects_of(alloc, silenced, text, remarks.as_slice())?,
            Format::Text | Format::Gcc => lines_of(alloc, silenced, text, remarks.as_slice())?,
        };
        Ok(Remarks { lines })
    }
}

/// Whether a word is the name of a lint, or one with the number of a line: `NAME=LINE`.
fn is_lint(word: &str) -> bool {
    match word.split_once('=') {
        Some((name, line)) => lint_named(name.as_bytes()).is_some() && line.parse::<u32>().is_ok(),
        None => lint_named(word.as_bytes()).is_some(),
    }
}

/// The first of some words that is neither.
fn first_unknown(words: &[String]) -> Option<&str> {
    for word in words {
        if !is_lint(word.as_str()) {
            return Some(word.as_str());
        }
    }
    None
}

/// Tells that there is no lint of a name.
fn tell_unknown(rt: &HostRuntime, name: &str) {
    let _ = eprintln!(rt;
        "error: there is no lint '{name}'\n\nThe lints: itself, shared, stale, unread, unput, equals, comma, answered, macro, unspoken, constant\n\n\
         For more information, try '--help'."
    );
}

/// Sees that each name of `--no-lint` is one of a lint. Where one is not, standard error tells which there are.
pub fn check_lints(rt: &HostRuntime, words: &CheckWords) -> Result<(), Status> {
    match first_unknown(words.silenced.as_slice()) {
        Some(name) => {
            tell_unknown(rt, name);
            Err(Status::Usage)
        }
        None => Ok(()),
    }
}

/// Writes the messages and the lines of the lints.
fn told_remarks(
    rt: &HostRuntime,
    piece: SourceJob,
    words: &CheckWords,
    messages: &[u8],
    lines: &[u8],
) -> Result<Status, Status> {
    tell_messages(rt, piece, words.format, messages)?;
    write(rt, lines)?;
    if words.is_strict && !lines.is_empty() {
        Ok(Status::SourceErrors)
    } else {
        Ok(Status::Well)
    }
}

/// Writes the messages, and a note on each behind them.
fn tell_messages(
    rt: &HostRuntime,
    piece: SourceJob,
    format: Format,
    messages: &[u8],
) -> Result<(), Status> {
    let notes = notes_on(rt, piece, format, messages)?;
    write(rt, in_front(format, messages))?;
    write(rt, notes.as_slice())
}

/// Writes what `snc` tells of a program, behind it a note on each message, and what lints remark, where no message is an error.
pub fn answered_check(
    rt: &HostRuntime,
    piece: SourceJob,
    words: &CheckWords,
) -> Result<Status, Status> {
    let Answered { messages, made } = answer(rt.alloc(), piece.job, piece.source, words)?;
    let messages = messages.as_slice();
    match made {
        Some(remarks) => told_remarks(rt, piece, words, messages, remarks.lines.as_slice()),
        None => {
            tell_messages(rt, piece, words.format, messages)?;
            Ok(Status::SourceErrors)
        }
    }
}
