//! The events of logs, written as a trace.

ghost use Rattle.std.specs.Prelude.{◌≡◌, ◌≤◌, ◌+◌, ◌^◌, [], IfOk, OnErr, if◌then◌else◌};
ghost use Rattle.snl_import.specs.Taken.{AreTaken};
ghost use Rattle.snl_import.specs.Trace.{AreEvents, told_by, value_count};

use crate::counts::Left;
use crate::errors::{ImportError, one_more};
use crate::happenings::Happening;
use crate::lines::event_line;
use crate::programs::Program;
use snl_logs::Values;
use std::alloc::Global;

/// The latest time of a trace, in milliseconds.
const TIME_LIMIT: u64 = 1_000_000_000_000_000;

/// The events of logs, written as a trace of a program. Whatever it was told, its text is whole lines, each an event that a run takes
/// behind the events before it, and that the program takes.
#[derive(Drop)]
pub struct Recorder<P: Program> {
    program: P,
    /// What was written since the text was taken the last time.
    text: Vec<u8>,
    /// The line that is written.
    line: Vec<u8>,
    /// The time of the last event before the text, and how many values came before it.
    first: u64,
    before: u64,
    /// The time of the last event, and how many values came.
    last: u64,
    written: u64,
    ghost early: { last ≤ 10 ^ 15 },
    ghost events: { AreEvents (first, before) text.items (last, written) },
    ghost taken: { AreTaken (P.taken program) text.items },
}

impl<P: Program + Drop> Recorder<P> {
    /// Nothing is written.
    pub fn new(alloc: Global, program: P) -> Recorder<P>
        ensures program { result.program ≡ program }
        ensures written { result.written ≡ 0 }
        ensures first { result.first ≡ 0 }
        ensures before { result.before ≡ 0 }
    {
        Recorder {
            program,
            text: Vec::new(alloc),
            line: Vec::new(alloc),
            first: 0,
            before: 0,
            last: 0,
            written: 0,
        }
    }

    /// Adds the line of what happens to a channel at a time, or at that of the last event, if it is later. Answers whether a trace can
    /// tell it and the program takes it: where that is not so, nothing is added. An error adds nothing.
    pub fn add(&mut self, ms: u64, name: &[u8], happening: Happening) -> Result<bool, ImportError>
        ensures written { IfOk result (λ fits. self.new.written ≡ self.old.written
            + (if fits then value_count (told_by name.now happening.entry) else 0)) }
        ensures first { self.new.first ≡ self.old.first }
        ensures before { self.new.before ≡ self.old.before }
        ensures program { self.new.program ≡ self.old.program }
        ensures err { OnErr result (self.new.written ≡ self.old.written) }
    {
        let ms = ms.max(self.last);
        if ms > TIME_LIMIT {
            return Ok(false);
        }
        if !self.program.takes(name, happening) {
            return Ok(false);
        }
        let written = counted(self.written, happening)?;
        if !event_line(&mut self.line, ms, name, happening)? {
            return Ok(false);
        }
        self.text.extend_from_slice(self.line.as_slice())?;
        self.last = ms;
        self.written = written;
        Ok(true)
    }

    /// Why values of a channel were not added.
    pub fn refusal(&self, name: &[u8], values: &Values) -> Left {
        if !self.program.has(name) {
            Left::Foreign
        } else if !self.program.takes(name, Happening::Values(values)) {
            Left::Misfit
        } else {
            Left::Unfit
        }
    }

    /// The time of the last event.
    pub fn last(&self) -> u64
        ensures { result ≡ self.now.last }
    {
        self.last
    }

    /// What was written since it was taken the last time: whole lines, each an event.
    pub fn text(&self) -> &[u8]
        ensures value { result.now ≡ self.now.text.items }
        ensures events { AreEvents (self.now.first, self.now.before) result.now
            (self.now.last, self.now.written) }
        ensures taken { AreTaken (P.taken self.now.program) result.now }
    {
        self.text.as_slice()
    }

    /// Takes the text away, once it was handed on.
    pub fn clear(&mut self)
        ensures first { self.new.first ≡ self.old.last }
        ensures before { self.new.before ≡ self.old.written }
        ensures program { self.new.program ≡ self.old.program }
        ensures last { self.new.last ≡ self.old.last }
        ensures written { self.new.written ≡ self.old.written }
    {
        self.text.clear();
        self.first = self.last;
        self.before = self.written;
    }
}

/// How many values came, with what happens.
fn counted(written: u64, happening: Happening) -> Result<u64, ImportError>
    ensures { IfOk result (λ more. more ≡ written + value_count (told_by [] happening.entry)) }
{
    match happening {
        Happening::Up | Happening::Down => Ok(written),
        Happening::Values(_) => one_more(written),
    }
}
