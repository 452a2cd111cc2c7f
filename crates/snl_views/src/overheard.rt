//! What is overheard of a trace while its bytes go to a run: its times, and the text of a bad line.

use crate::bad_lines::push_note;
use crate::clock::{Clock, time_of};
use bstr::ByteSlice;
use snl_trace::{End, LINE_LIMIT};
use snl_watch::count_lines;
use std::alloc::{AllocError, Global};

/// How many bytes of a trace are held: those of the piece that came last, and the line that had begun before it.
const HELD: usize = 65_536 + LINE_LIMIT + 1;

/// Hears the bytes that go to a run. A run asks for more only when it is done with the lines that it has: so those of the piece that
/// came last are held, and what stands before them is known to have been read.
#[derive(Drop)]
pub struct Overheard {
    /// The bytes of the last piece, behind those of the line that had begun.
    text: Vec<u8>,
    /// How many lines came before.
    before: u64,
    /// The times of these.
    clock: Clock,
}

/// The time of the last line of a text that ends with a newline; None where that is no event.
fn last_time(text: &[u8]) -> Option<u64> {
    let front = text.strip_suffix(b"\n")?;
    let begin = match front.rfind_byte(b'\n') {
        Some(at) => at.saturating_add(1).min(front.len()),
        None => 0,
    };
    time_of(&front[begin..])
}

/// Notes the times of lines that were read, of which so many came before. Answers how many came then. A run reads on only where no
/// time went back, so that lines with a step of less than an hour from the first to the last need not be looked at one by one.
fn noted(clock: &mut Clock, before: u64, text: &[u8]) -> u64 {
    if let Some(ms) = last_time(text) {
        if clock.passes(ms) {
            return before.saturating_add(count_lines(text));
        }
    }
    noted_each(clock, before, text)
}

/// The same, line by line.
fn noted_each(clock: &mut Clock, before: u64, text: &[u8]) -> u64 {
    let mut number = before;
    for line in text.lines() {
        number = number.saturating_add(1);
        clock.note(number, line);
    }
    number
}

impl Overheard {
    /// Nothing came yet. Fails only where memory ran out.
    pub fn new(alloc: Global) -> Result<Self, AllocError> {
        Ok(Overheard {
            text: Vec::with_capacity(alloc, HELD)?,
            before: 0,
            clock: Clock::new(),
        })
    }

    /// Notes the times of the lines that are held and whole, and lets them go.
    fn settle(&mut self) {
        let text = self.text.as_slice();
        let Some(last) = text.rfind_byte(b'\n') else {
            return;
        };
        let end = last.saturating_add(1).min(text.len());
        self.before = noted(&mut self.clock, self.before, &text[..end]);
        let left = self.text.len().saturating_sub(end);
        self.text.copy_within(end.., 0);
        self.text.truncate(left);
    }

    /// Hears the bytes that a run is given next.
    pub fn take(&mut self, piece: &[u8]) {
        self.settle();
        let _kept = self.text.extend_from_slice(piece);
    }

    /// The line of a number, from 1, without its newline, if it is held.
    fn line(&self, number: u64) -> Option<&[u8]> {
        let held = number.checked_sub(self.before)?.checked_sub(1)?;
        self.text
            .as_slice()
            .lines()
            .nth(usize::try_from(held).ok()?)
    }

    /// The times of all lines before one of some number.
    fn clock_before(&self, end: u64) -> Clock {
        let mut clock = self.clock;
        let mut number = self.before;
        for line in self.text.as_slice().lines() {
            number = number.saturating_add(1);
            if number >= end {
                return clock;
            }
            clock.note(number, line);
        }
        clock
    }

    /// What looks wrong with the times of a trace whose run ended so, as lines with something in front. A jump is told only where
    /// the trace was read to its end or to a bad line. Fails only where memory ran out.
    pub fn clock_text(&self, alloc: Global, end: End, front: &[u8]) -> Result<Vec<u8>, AllocError> {
        let clock = match end {
            End::TraceFault(number, _) => self.clock_before(u64::try_from(number).unwrap_or(0)),
            End::TraceEnded => self.clock_before(u64::MAX),
            _ => self.clock_before(u64::MAX).without_jump(),
        };
        let mut out = Vec::new(alloc);
        clock.push_text(&mut out, front)?;
        Ok(out)
    }

    /// A line for the user that says how a bad line of the trace can be mended, where that is known; nothing where the run did not
    /// end by one. Fails only where memory ran out.
    pub fn bad_line_text(&self, alloc: Global, end: End) -> Result<Vec<u8>, AllocError> {
        let mut out = Vec::new(alloc);
        if let End::TraceFault(number, fault) = end {
            let number = u64::try_from(number).unwrap_or(0);
            if let Some(line) = self.line(number) {
                push_note(&mut out, fault, number, line)?;
            }
        }
        Ok(out)
    }
}
