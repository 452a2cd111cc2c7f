//! A log on its way: its next line, and when that is.

ghost use Rattle.std.specs.Prelude.{◌≡◌, ◌+◌, ◌<◌, IfOk, IfSome, OnOk, length, if◌then◌else◌};

use crate::errors::ImportError;
use crate::importer::Importer;
use crate::misreads::Misreads;
use crate::opening::Opening;
use crate::programs::Program;
use snl_logs::{Log, LogLine, Sample, Stamp};
use std::alloc::{AllocError, Global};
use std::io::{self, BufRead, ErrorKind, Read};
use std::mem;

/// How many bytes of a line are read; no line of a trace is made of a longer one.
const LINE: u64 = 1_048_576;

/// How many lines of a log are read at most to see where the trace begins.
const FRONT: usize = 65_536;

/// A log on its way: its next line, and when that is.
#[derive(Drop)]
pub struct Feed<R: BufRead> {
    input: R,
    /// How its file is called.
    file: Vec<u8>,
    log: Log,
    /// The lines that were read to see where the trace begins, and how many of them were the next one since.
    front: Vec<Vec<u8>>,
    passed: usize,
    /// The next line; empty at the end. It has the number `number`, from 1 on.
    line: Vec<u8>,
    number: u64,
    /// When it is: no line is before one in front of it. Where the line tells that its channel was lost before, that comes first.
    time: u64,
    has_loss: bool,
    /// By how many nanoseconds its times are moved.
    shift: i64,
    misreads: Misreads,
    /// Whether a sample of it had a number.
    has_number: bool,
    /// How many lines of the file stand in front of it, where it is a part of that.
    before: u64,
    /// Where one channel stands behind the other: how many lines are before one in front of them.
    behind: u64,
}

/// The channel that a file is named after: its name without the folder and without what stands behind its last point.
fn channel_of(file: &[u8]) -> &[u8] {
    let name = match file.iter().rposition(|byte| *byte == b'/') {
        Some(place) => &file[place + 1..],
        None => file,
    };
    match name.iter().rposition(|byte| *byte == b'.') {
        Some(place) => &name[..place],
        None => name,
    }
}

/// Whether a line was cut off where no more of it is read.
fn is_cut(line: &[u8]) -> bool {
    line.len() as u64 >= LINE && line.last() != Some(&b'\n')
}

/// Reads the next line, with its newline. At the end it is empty.
fn read_line<R: BufRead>(input: &mut R, line: &mut Vec<u8>) -> io::Result<()> {
    line.clear();
    input.by_ref().take(LINE).read_until(b'\n', line)?;
    if is_cut(line.as_slice()) {
        input.skip_until(b'\n')?;
    }
    Ok(())
}

/// What a line of a log says whose times are moved by so many nanoseconds.
fn said_by<'l>(log: &'l Log, line: &'l [u8], shift: i64) -> LogLine<'l> {
    if is_cut(line) {
        LogLine::Unknown
    } else {
        log.said(line).moved(shift)
    }
}

impl<R: BufRead + Drop> Feed<R> {
    /// A log of which no line was read yet, by the name of its file. Where its lines name no channel, they are of the one that the file
    /// is named after. Its times are moved by so many nanoseconds.
    pub fn new(alloc: Global, input: R, file: &[u8], shift: i64) -> Result<Feed<R>, AllocError> {
        Ok(Feed {
            input,
            file: Vec::from_slice(alloc, file)?,
            log: Log::new(alloc, channel_of(file))?,
            front: Vec::new(alloc),
            passed: 0,
            line: Vec::new(alloc),
            number: 0,
            time: 0,
            has_loss: false,
            shift,
            misreads: Misreads::new(alloc),
            has_number: false,
            before: 0,
            behind: 0,
        })
    }

    /// The same of a part of a file, in front of which so many lines stand.
    pub fn from_line(self, lines: u64) -> Feed<R> {
        let mut feed = self;
        feed.number = lines;
        feed.before = lines;
        feed
    }

    /// Where it has one channel behind the other: how many of its lines are before one in front of them. They stand at the time of that.
    pub fn lifted(&self) -> u64 {
        self.behind
    }

    /// Whether it begins where its file does.
    pub fn is_first(&self) -> bool {
        self.before == 0
    }

    /// How its file is called.
    pub fn file(&self) -> &[u8] {
        self.file.as_slice()
    }

    /// The lines that were not understood.
    pub fn misreads(&self) -> &Misreads {
        &self.misreads
    }

    /// Reads ahead, before the first line is taken, to see where the trace begins.
    pub fn look(&mut self, alloc: Global, opening: &mut Opening) -> io::Result<()> {
        for _ in 0..FRONT {
            if opening.is_over() || !self.look_on(alloc, opening)? {
                break;
            }
        }
        self.log = Log::new(alloc, channel_of(self.file.as_slice()))?;
        Ok(())
    }

    /// Reads a line ahead. Answers whether there was one.
    fn look_on(&mut self, alloc: Global, opening: &mut Opening) -> io::Result<bool> {
        let mut line = Vec::new(alloc);
        read_line(&mut self.input, &mut line)?;
        if line.is_empty() {
            return Ok(false);
        }
        self.log.note(alloc, line.as_slice())?;
        opening.look(alloc, &said_by(&self.log, line.as_slice(), self.shift))?;
        self.front.push(line).map_err(|_| AllocError)?;
        Ok(true)
    }

    /// Goes on to the next line. At the end of the log it is empty.
    pub fn advance(&mut self, alloc: Global) -> io::Result<()> {
        self.next_line()?;
        self.number = self.number.saturating_add(1);
        self.log.note(alloc, self.line.as_slice())?;
        match self.lost() {
            Some(
                Sample {
                    stamp: Stamp::At(time),
                    ..
                },
            ) => {
                self.has_loss = true;
                self.time = self.time.max(time);
            }
            _ => self.pass_loss(),
        }
        Ok(())
    }

    /// That the channel of the next line was lost before, where the line tells so.
    fn lost(&self) -> Option<Sample> {
        if is_cut(self.line.as_slice()) {
            return None;
        }
        let lost = self.log.lost(self.line.as_slice())?;
        Some(lost.moved(self.shift))
    }

    /// Goes on to what the next line says itself.
    fn pass_loss(&mut self) {
        self.has_loss = false;
        if let Some(time) = self.said().time() {
            if time < self.time && self.log.is_parted() {
                self.behind = self.behind.saturating_add(1);
            }
            self.time = self.time.max(time);
        }
    }

    /// Puts the next line in its place.
    fn next_line(&mut self) -> io::Result<()> {
        if let Some(line) = self.front.get_mut(self.passed) {
            self.passed += 1;
            mem::swap(&mut self.line, line);
            line.clear();
            return Ok(());
        }
        read_line(&mut self.input, &mut self.line)
    }

    /// Whether the log has ended.
    pub fn is_over(&self) -> bool {
        self.line.is_empty()
    }

    /// What the next line says.
    pub fn said(&self) -> LogLine {
        said_by(&self.log, self.line.as_slice(), self.shift)
    }

    /// When the next line is, in nanoseconds.
    pub fn time(&self) -> u64 {
        self.time
    }

    /// Notes what became of the next line: whether it was understood, and whether a sample of it had a number.
    fn note(
        &mut self,
        alloc: Global,
        is_understood: bool,
        has_number: bool,
    ) -> Result<(), AllocError> {
        self.has_number = self.has_number || has_number;
        if is_understood {
            return Ok(());
        }
        self.misreads.add(alloc, self.number, self.line.as_slice())
    }
}

/// Whether a sample of a file had a number, of which logs are the parts.
pub fn has_number<R: BufRead + Drop>(feeds: &[Feed<R>], file: &[u8]) -> bool {
    for feed in feeds {
        if feed.has_number && feed.file.as_slice() == file {
            return true;
        }
    }
    false
}

/// Whether a sample of each file had a number.
pub fn have_numbers<R: BufRead + Drop>(feeds: &[Feed<R>]) -> bool {
    for feed in feeds {
        if !has_number(feeds, feed.file.as_slice()) {
            return false;
        }
    }
    true
}

/// Why a log cannot be read on.
pub fn fault_of(error: io::Error, place: usize) -> ImportError {
    match error.kind() {
        ErrorKind::OutOfMemory => ImportError::Memory,
        _ => ImportError::Unreadable(place),
    }
}

/// Which of several logs has the next line: the earliest, and of lines at one time that of the first log. None at the end of all.
pub fn next_of<R: BufRead + Drop>(feeds: &[Feed<R>]) -> Option<usize>
    ensures { IfSome result (λ place. place < length feeds.now) }
{
    let mut next: Option<(usize, u64)> = None;
    for (place, feed) in feeds.iter().enumerate() {
        if !feed.is_over() && next.is_none_or(|(_, time)| feed.time() < time) {
            next = Some((place, feed.time()));
        }
    }
    next.map(|(place, _)| place)
}

/// Takes in that the channel of a log's next line was lost before.
fn take_loss<R: BufRead + Drop, P: Program + Drop>(
    feed: &mut Feed<R>,
    importer: &mut Importer<P>,
) -> Result<(), ImportError>
    ensures lines { importer.new.counts.lines ≡ importer.old.counts.lines }
    ensures first { importer.new.recorder.first ≡ importer.old.recorder.first }
    ensures before { importer.new.recorder.before ≡ importer.old.recorder.before }
    ensures program { importer.new.recorder.program ≡ importer.old.recorder.program }
{
    if let Some(lost) = feed.lost() {
        importer.write_sample(&lost)?;
    }
    feed.pass_loss();
    Ok(())
}

/// Takes in which channels were lost before the next line of several logs, up to a time. Answers which log has that line.
fn take_losses<R: BufRead + Drop, P: Program + Drop>(
    feeds: &mut [Feed<R>],
    until: u64,
    importer: &mut Importer<P>,
) -> Result<Option<usize>, ImportError>
    ensures place { IfOk result (λ next. IfSome next (λ place. place < length feeds.new)) }
    ensures lines { importer.new.counts.lines ≡ importer.old.counts.lines }
    ensures first { importer.new.recorder.first ≡ importer.old.recorder.first }
    ensures before { importer.new.recorder.before ≡ importer.old.recorder.before }
    ensures program { importer.new.recorder.program ≡ importer.old.recorder.program }
{
    for _ in 0..feeds.len() {
        let Some(place) = next_of(feeds) else {
            return Ok(None);
        };
        let feed = &mut feeds[place];
        if !feed.has_loss || feed.time() > until {
            return Ok(Some(place));
        }
        take_loss(feed, importer)?;
    }
    Ok(next_of(feeds))
}

/// Takes in what the next line of a log says.
fn take_line<R: BufRead + Drop, P: Program + Drop>(
    alloc: Global,
    feed: &mut Feed<R>,
    importer: &mut Importer<P>,
) -> Result<(), ImportError>
    ensures lines { OnOk result (importer.new.counts.lines ≡ importer.old.counts.lines + 1) }
    ensures first { importer.new.recorder.first ≡ importer.old.recorder.first }
    ensures before { importer.new.recorder.before ≡ importer.old.recorder.before }
    ensures program { importer.new.recorder.program ≡ importer.old.recorder.program }
{
    let numbers = importer.numbers();
    let line = feed.said();
    let is_understood = !matches!(line, LogLine::Unknown);
    importer.take(line)?;
    feed.note(alloc, is_understood, importer.numbers() > numbers)?;
    Ok(())
}

/// Takes in what the next line of a log says, which has a place among others, and goes on to its next line.
fn take_from<R: BufRead + Drop, P: Program + Drop>(
    alloc: Global,
    feed: &mut Feed<R>,
    place: usize,
    importer: &mut Importer<P>,
) -> Result<(), ImportError>
    ensures lines { OnOk result (importer.new.counts.lines ≡ importer.old.counts.lines + 1) }
    ensures first { importer.new.recorder.first ≡ importer.old.recorder.first }
    ensures before { importer.new.recorder.before ≡ importer.old.recorder.before }
    ensures program { importer.new.recorder.program ≡ importer.old.recorder.program }
{
    take_line(alloc, feed, importer)?;
    match feed.advance(alloc) {
        Ok(()) => Ok(()),
        Err(error) => Err(fault_of(error, place)),
    }
}

/// Takes in the next line of several logs, the earliest first, up to a time. Answers whether there was one: at the end of all logs, or
/// behind that time, there is none.
pub fn take_next<R: BufRead + Drop, P: Program + Drop>(
    alloc: Global,
    feeds: &mut [Feed<R>],
    until: u64,
    importer: &mut Importer<P>,
) -> Result<bool, ImportError>
    ensures lines { IfOk result (λ is_one. importer.new.counts.lines
        ≡ importer.old.counts.lines + (if is_one then 1 else 0)) }
    ensures first { importer.new.recorder.first ≡ importer.old.recorder.first }
    ensures before { importer.new.recorder.before ≡ importer.old.recorder.before }
    ensures program { importer.new.recorder.program ≡ importer.old.recorder.program }
{
    let Some(place) = take_losses(feeds, until, importer)? else {
        return Ok(false);
    };
    let feed = &mut feeds[place];
    if feed.time() > until {
        return Ok(false);
    }
    take_from(alloc, feed, place, importer)?;
    Ok(true)
}
