//! The logs of a call: files, or standard input. A file that has one channel behind the other is held, and read at several places at
//! once, so that the times of all its channels come in order.

use snc::Status;
use snc_cli::{opened, told_unread};
use snl_args::{NamedNumber, TraceWords};
use snl_import::Feed;
use snl_logs::Log;
use std::alloc::{AllocError, Global};
use std::fs;
use std::fs::File;
use std::io::{self, BufRead, BufReader, ErrorKind, Read, Stdin};

/// How many bytes of a log are read at a time.
const INPUT_HELD: usize = 65_536;

/// How many bytes of a part of a log are read at a time.
const PART_HELD: usize = 4_096;

/// Nanoseconds of a minute.
const MINUTE: i64 = 60_000_000_000;

/// What is left of a text that is read.
#[derive(Drop)]
pub struct Rest<'t> {
    bytes: &'t [u8],
}

impl Read for Rest<'_> {
    fn read(&mut self, buf: &mut [u8]) -> io::Result<usize> {
        let size = self.bytes.len().min(buf.len());
        let (front, behind) = self.bytes.split_at(size);
        buf[..size].copy_from_slice(front);
        self.bytes = behind;
        Ok(size)
    }
}

/// A log: a file, standard input, or a part of a text that is held.
#[derive(Drop)]
pub enum LogFile<'t> {
    /// A file.
    File(File),
    /// Standard input.
    Input(Stdin),
    /// A part of a text that is held.
    Part(Rest<'t>),
}

impl Read for LogFile<'_> {
    fn read(&mut self, buf: &mut [u8]) -> io::Result<usize> {
        match self {
            LogFile::File(file) => file.read(buf),
            LogFile::Input(input) => input.read(buf),
            LogFile::Part(rest) => rest.read(buf),
        }
    }
}

/// A log that is read line by line.
pub type LogFeed<'t> = Feed<BufReader<LogFile<'t>>>;

/// A file that has one channel behind the other.
#[derive(Drop)]
pub struct ExportLog {
    text: Vec<u8>,
    /// Where its parts begin: the byte, and how many lines stand in front.
    parts: Vec<(usize, u64)>,
}

/// Whether a log is a plain file, which can be read twice.
fn is_plain(rt: &HostRuntime, file: &str) -> bool {
    match fs::metadata(rt, file) {
        Ok(found) => file != "-" && found.is_file(),
        Err(_) => false,
    }
}

/// Reads the next line, or the front of a long one. Answers whether there was one.
fn next_line<R: BufRead + Drop>(input: &mut R, line: &mut Vec<u8>) -> io::Result<bool> {
    line.clear();
    input
        .by_ref()
        .take(INPUT_HELD as u64)
        .read_until(b'\n', line)?;
    Ok(!line.is_empty())
}

/// How many lines of a log name a channel, up to two; none of a log whose lines have a channel each.
fn channels_in<R: BufRead + Drop>(alloc: Global, input: &mut R) -> io::Result<u32> {
    let mut log = Log::new(alloc, b"")?;
    let mut line = Vec::new(alloc);
    let mut names = 0u32;
    for _ in 0..u64::MAX {
        if !next_line(input, &mut line)? {
            return Ok(names);
        }
        log.note(alloc, line.as_slice())?;
        if log.is_told() && !log.is_parted() {
            return Ok(0);
        }
        names = names.saturating_add(u32::from(log.is_named_by(line.as_slice())));
        if names > 1 && log.is_told() {
            return Ok(names);
        }
    }
    Ok(names)
}

/// Whether a plain file has one channel behind the other.
fn has_channels(rt: &HostRuntime, file: &str) -> io::Result<bool> {
    let mut input = BufReader::with_capacity(rt.alloc(), INPUT_HELD, File::open(rt, file)?)?;
    Ok(channels_in(rt.alloc(), &mut input)? > 1)
}

/// All bytes of a file.
fn text_of(rt: &HostRuntime, file: &str) -> io::Result<Vec<u8>> {
    let mut text = Vec::new(rt.alloc());
    let mut input = File::open(rt, file)?;
    input.read_to_end(&mut text)?;
    Ok(text)
}

/// The front of a text up to its first newline; all of it where there is none.
fn line_in(text: &[u8]) -> &[u8] {
    match text.iter().position(|byte| *byte == b'\n') {
        Some(place) => &text[..place.saturating_add(1).min(text.len())],
        None => text,
    }
}

/// Where the parts of a text begin: at each line that names a channel, but for the first one.
fn parts_of(alloc: Global, text: &[u8]) -> Result<Vec<(usize, u64)>, AllocError> {
    let mut log = Log::new(alloc, b"")?;
    let mut parts = Vec::new(alloc);
    parts.push((0usize, 0u64))?;
    let mut rest = text;
    let mut is_named = false;
    for number in 0..u64::MAX {
        if rest.is_empty() {
            return Ok(parts);
        }
        let line = line_in(rest);
        log.note(alloc, line)?;
        if log.is_named_by(line) {
            if is_named {
                parts.push((text.len().saturating_sub(rest.len()), number))?;
            }
            is_named = true;
        }
        rest = &rest[line.len().min(rest.len())..];
    }
    Ok(parts)
}

/// What is held of a file that has one channel behind the other.
fn held_of(rt: &HostRuntime, file: &str) -> io::Result<Option<ExportLog>> {
    if !has_channels(rt, file)? {
        return Ok(None);
    }
    let text = text_of(rt, file)?;
    let parts = parts_of(rt.alloc(), text.as_slice())?;
    Ok(Some(ExportLog { text, parts }))
}

/// What is held of the logs of a call, by their places; nothing of those that are read as they come.
pub fn held_logs(rt: &HostRuntime, words: &TraceWords) -> Result<Vec<Option<ExportLog>>, Status> {
    let mut all = Vec::new(rt.alloc());
    for file in &words.span.logs {
        let held = if is_plain(rt, file.as_str()) {
            held_of(rt, file.as_str())
        } else {
            Ok(None)
        };
        match held {
            Ok(held) => all.push(held)?,
            Err(fault) if fault.kind() == ErrorKind::OutOfMemory => return Err(Status::Memory),
            Err(_) => return Err(told_unread(rt, "snl", file.as_str())),
        }
    }
    Ok(all)
}

/// By how many nanoseconds the times of a file are moved: as far back as its clock is ahead.
fn shift_of(offsets: &[NamedNumber], file: &str) -> i64 {
    for offset in offsets {
        if offset.name.as_str() == file {
            return 0i64.saturating_sub(offset.number.saturating_mul(MINUTE));
        }
    }
    0
}

/// The log of a name. Where it cannot be opened, the user is told.
fn log_at<'t>(rt: &HostRuntime, file: &str) -> Result<LogFile<'t>, Status> {
    if file == "-" {
        return Ok(LogFile::Input(rt.stdin()));
    }
    Ok(LogFile::File(opened(rt, "snl", file)?))
}

/// A log on its way, in front of which so many lines of its file stand.
fn feed_of<'t>(
    alloc: Global,
    words: &TraceWords,
    file: &str,
    log: LogFile<'t>,
    size: usize,
    before: u64,
) -> Result<LogFeed<'t>, Status> {
    let shift = shift_of(words.span.offsets.as_slice(), file);
    let Ok(input) = BufReader::with_capacity(alloc, size, log) else {
        return Err(Status::Memory);
    };
    Ok(Feed::new(alloc, input, file.as_bytes(), shift)?.from_line(before))
}

/// Adds the parts of a file that is held.
fn push_parts<'t>(
    alloc: Global,
    words: &TraceWords,
    file: &str,
    held: &'t ExportLog,
    feeds: &mut Vec<LogFeed<'t>>,
) -> Result<(), Status> {
    for (place, part) in held.parts.iter().enumerate() {
        let (start, before) = *part;
        let end = match held.parts.get(place.saturating_add(1)) {
            Some((end, _)) => *end,
            None => held.text.len(),
        };
        let bytes = held.text.get(start..end).unwrap_or(b"");
        let log = LogFile::Part(Rest { bytes });
        let feed = feed_of(alloc, words, file, log, PART_HELD, before)?;
        feeds.push(feed)?;
    }
    Ok(())
}

/// Adds a log that is read as it comes.
fn push_log<'t>(
    rt: &HostRuntime,
    words: &TraceWords,
    file: &str,
    feeds: &mut Vec<LogFeed<'t>>,
) -> Result<(), Status> {
    let log = log_at(rt, file)?;
    let feed = feed_of(rt.alloc(), words, file, log, INPUT_HELD, 0)?;
    Ok(feeds.push(feed)?)
}

/// All logs of a call on their way.
pub fn feeds_of<'t>(
    rt: &HostRuntime,
    words: &TraceWords,
    logs: &'t [Option<ExportLog>],
) -> Result<Vec<LogFeed<'t>>, Status> {
    let mut feeds = Vec::new(rt.alloc());
    for (place, file) in words.span.logs.iter().enumerate() {
        match logs.get(place) {
            Some(Some(held)) => push_parts(rt.alloc(), words, file.as_str(), held, &mut feeds)?,
            _ => push_log(rt, words, file.as_str(), &mut feeds)?,
        }
    }
    Ok(feeds)
}
