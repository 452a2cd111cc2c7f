//! What a user is told of logs: lines that were not understood, what was rounded, what has no number, and how many of each.

use crate::channel::Channel;
use crate::channels::Channels;
use crate::counts::{Counts, LeftOut};
use crate::feed::{Feed, has_number};
use crate::importer::Importer;
use crate::misreads::{Misread, Misreads};
use crate::own_report::{push_foreign, push_own};
use crate::programs::Program;
use crate::roles::Role;
use crate::shown::{are_printed, push_all, push_number, push_shown};
use snl_units::push_quoted;
use std::alloc::{AllocError, Global};
use std::io::BufRead;

/// Adds a line on the values of a channel that were rounded.
fn push_rounded(text: &mut Vec<u8>, name: &[u8], rounded: u64) -> Result<(), AllocError> {
    push_shown(text, name)?;
    push_all(text, &[b": rounded: "])?;
    push_number(text, rounded)?;
    push_all(text, &[b"; --scale "])?;
    push_shown(text, name)?;
    push_all(text, &[b"=K keeps K digits behind the point\n"])
}

/// Adds the word of the call that gives a text a number. One with bytes that are not told as they are gets it by a line of a file of units.
/// Nothing gives a number to one of a name that no trace can have.
fn push_enum(text: &mut Vec<u8>, name: &[u8], unknown: &[u8]) -> Result<(), AllocError> {
    if !are_printed(name) {
        push_all(text, &[b"\n"])
    } else if are_printed(unknown) {
        push_all(text, &[b"; --enum '"])?;
        push_shown(text, name)?;
        push_all(text, &[b"=", unknown, b":N' gives it one\n"])
    } else {
        push_all(text, &[b"; the line 'enum "])?;
        push_shown(text, name)?;
        push_all(text, &[b" "])?;
        push_quoted(text, unknown)?;
        push_all(text, &[b":N' of --units gives it one\n"])
    }
}

/// Adds a line on a text of a channel that stands for no number.
fn push_unknown(text: &mut Vec<u8>, name: &[u8], unknown: &[u8]) -> Result<(), AllocError> {
    push_shown(text, name)?;
    push_all(text, &[b": no number: "])?;
    push_shown(text, unknown)?;
    push_enum(text, name, unknown)
}

/// Adds a line on the first sample of a channel, which has no value.
fn push_unread(text: &mut Vec<u8>, name: &[u8], unread: &[u8]) -> Result<(), AllocError> {
    push_shown(text, name)?;
    push_all(text, &[b": its first value is "])?;
    if unread.is_empty() {
        push_all(text, &[b"empty"])?;
    } else {
        push_shown(text, unread)?;
    }
    push_all(text, &[b"; --value '"])?;
    push_shown(text, name)?;
    push_all(text, &[b"=N' gives it one in front\n"])
}

/// Adds what there is to tell of the texts of a channel.
fn push_texts(text: &mut Vec<u8>, name: &[u8], channel: &Channel) -> Result<(), AllocError> {
    if let Some(unread) = &channel.unread {
        push_unread(text, name, unread.as_slice())?;
    }
    match &channel.unknown {
        Some(unknown) => push_unknown(text, name, unknown.as_slice()),
        None => Ok(()),
    }
}

/// Adds what there is to tell of a channel.
fn push_channel(text: &mut Vec<u8>, name: &[u8], channel: &Channel) -> Result<(), AllocError> {
    if channel.role == Role::Foreign {
        return Ok(());
    }
    if channel.rounded > 0 {
        push_rounded(text, name, channel.rounded)?;
    }
    push_texts(text, name, channel)?;
    push_own(text, name, channel)
}

/// Adds what there is to tell of channels: how many values were rounded, and the first text that stands for no number.
fn push_channels(text: &mut Vec<u8>, channels: &Channels) -> Result<(), AllocError> {
    for (name, channel) in channels.by_name().iter() {
        push_channel(text, name.as_slice(), channel)?;
    }
    Ok(())
}

/// Adds a line that was not understood.
fn push_misread(text: &mut Vec<u8>, file: &[u8], misread: &Misread) -> Result<(), AllocError> {
    push_shown(text, file)?;
    push_all(text, &[b":"])?;
    push_number(text, misread.number)?;
    push_all(text, &[b": not understood: "])?;
    push_shown(text, misread.shown())?;
    push_all(text, &[b"\n"])
}

/// Adds the first lines of a log that were not understood.
fn push_misreads(text: &mut Vec<u8>, file: &[u8], misreads: &Misreads) -> Result<(), AllocError> {
    for misread in &misreads.first {
        push_misread(text, file, misread)?;
    }
    Ok(())
}

/// Adds how many lines of a log stand later than they were, since its channels stand one behind the other.
fn push_lifted(text: &mut Vec<u8>, file: &[u8], lifted: u64) -> Result<(), AllocError> {
    if lifted == 0 {
        return Ok(());
    }
    push_shown(text, file)?;
    push_all(
        text,
        &[b": one channel stands behind the other, and it cannot be read twice: "],
    )?;
    push_number(text, lifted)?;
    push_all(
        text,
        &[b" of its lines stand at the time of one in front; name a file\n"],
    )
}

/// Adds what there is to tell of a log, or of a part of one; whether a sample of its file had a number.
fn push_feed<R: BufRead + Drop>(
    text: &mut Vec<u8>,
    feed: &Feed<R>,
    has_number: bool,
) -> Result<(), AllocError> {
    push_misreads(text, feed.file(), feed.misreads())?;
    let more = feed.misreads().more();
    if more > 0 {
        push_shown(text, feed.file())?;
        push_all(text, &[b": not understood: "])?;
        push_number(text, more)?;
        push_all(text, &[b" more\n"])?;
    }
    push_lifted(text, feed.file(), feed.lifted())?;
    if has_number || !feed.is_first() {
        return Ok(());
    }
    push_shown(text, feed.file())?;
    push_all(text, &[b": no value was read\n"])
}

/// Adds what there is to tell of logs.
fn push_feeds<R: BufRead + Drop>(text: &mut Vec<u8>, feeds: &[Feed<R>]) -> Result<(), AllocError> {
    for feed in feeds {
        push_feed(text, feed, has_number(feeds, feed.file()))?;
    }
    Ok(())
}

/// Adds a line on times that go back.
fn push_late(text: &mut Vec<u8>, late: u64, latest: u64) -> Result<(), AllocError> {
    if late == 0 {
        return Ok(());
    }
    push_all(text, &[b"times that go back by more than 10 s: "])?;
    push_number(text, late)?;
    push_all(text, &[b", by up to "])?;
    push_number(text, latest / 1000)?;
    push_all(
        text,
        &[b" s; each stands at the time of the line in front\n"],
    )
}

/// Adds a count with what is counted, behind a comma.
fn push_count(text: &mut Vec<u8>, count: u64, what: &[u8]) -> Result<(), AllocError> {
    if count == 0 {
        return Ok(());
    }
    push_all(text, &[b", "])?;
    push_number(text, count)?;
    push_all(text, &[b" ", what])
}

/// Adds how many values were left out, by their causes.
fn push_left(text: &mut Vec<u8>, left: &LeftOut) -> Result<(), AllocError> {
    push_count(text, left.no_number, b"without a number")?;
    push_count(text, left.not_finite, b"nan or infinite")?;
    push_count(text, left.too_large, b"beyond 64 bits")?;
    push_count(text, left.empty, b"empty")?;
    push_count(text, left.unfit, b"that no line of a trace can have")?;
    push_count(text, left.early, b"before --from")?;
    push_count(
        text,
        left.misfit,
        b"that no variable of the program can hold",
    )?;
    push_count(text, left.foreign, b"of other channels than the program's")
}

/// Adds the last line: how many lines were read, and how many values were written and left out.
fn push_sums(text: &mut Vec<u8>, counts: &Counts) -> Result<(), AllocError> {
    push_all(text, &[b"lines: "])?;
    push_number(text, counts.lines)?;
    push_count(text, counts.unknown, b"not understood")?;
    push_all(text, &[b"; values: "])?;
    push_number(text, counts.values)?;
    push_all(text, &[b", "])?;
    push_number(text, counts.written)?;
    push_all(text, &[b" written"])?;
    push_left(text, &counts.left)?;
    push_all(text, &[b"\n"])
}

/// What a user is told of logs, as lines: what was not understood, which log had no value, what was rounded, which texts stand for no
/// number, what the program lacks, and last how many lines were read and how many values were written and left out.
pub fn notes_of<R: BufRead + Drop, P: Program + Drop>(
    alloc: Global,
    importer: &Importer<P>,
    feeds: &[Feed<R>],
) -> Result<Vec<u8>, AllocError> {
    let mut text = Vec::new(alloc);
    push_feeds(&mut text, feeds)?;
    push_channels(&mut text, importer.channels())?;
    push_foreign(&mut text, importer.channels())?;
    let (late, latest) = importer.lateness();
    push_late(&mut text, late, latest)?;
    push_sums(&mut text, &importer.counts())?;
    Ok(text)
}
