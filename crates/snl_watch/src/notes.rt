//! Notes about a run: which clause fired and what its condition saw, and which put was refused and why.

use crate::current_states::Standing;
use crate::legend::{ClauseLegend, Legend};
use crate::line_ends::ends_line;
use crate::lines::line_number;
use crate::note_buffer::{LineNotes, Waiting};
use crate::progress::Progress;
use crate::zero::Zero;
use itoa::Buffer;
use snl_output::{Fired, RefusalCause, Refused, Went};
use snl_units::ChannelUnits;
use std::alloc::{AllocError, Global};
use std::cell::RefCell;

/// The line of the trace that is at work: its number from 1 on, and its time in milliseconds. Before the first, the number is 0.
#[derive(Clone, Copy)]
struct AtWork {
    number: u128,
    ms: u64,
}

/// What is noted of a run, and what is known of it.
#[derive(Drop)]
pub struct Notes<'c> {
    legend: Legend<'c>,
    /// How far the run is.
    progress: &'c RefCell<Progress>,
    at_work: AtWork,
    /// The date of 0 ms, from the begin of the program on.
    zero: Zero,
    standing: Standing,
    /// Notes that wait for the next line.
    waiting: Waiting,
}

/// Adds a number.
#[inline(always)]
fn add_number(out: &mut Waiting, number: i64) -> Option<()> {
    let mut digits = Buffer::new();
    out.add(digits.format(number).as_bytes())
}

/// Adds a number of a channel, as what it stands for. One that no decimal is exactly stands there as a fraction.
fn add_in_units(out: &mut Waiting, units: &ChannelUnits, number: i64) -> Option<()> {
    match units.shown(number) {
        Some(text) if text.is_empty() => out.add(b"\"\""),
        Some(text) => out.add(text.as_slice()),
        None => {
            add_number(out, number)?;
            match units.divisor() {
                Some(divisor) => {
                    let mut digits = Buffer::new();
                    out.add(b"/")?;
                    out.add(digits.format(divisor).as_bytes())
                }
                None => Some(()),
            }
        }
    }
}

/// Adds the value of a word.
fn add_value(out: &mut Waiting, units: Option<&ChannelUnits>, number: i64) -> Option<()> {
    match units {
        Some(units) => add_in_units(out, units, number),
        None => add_number(out, number),
    }
}

/// A time of a run: the line of the trace that came then, where one did, and the time of day behind a comma, where that is known.
#[derive(Clone, Copy)]
struct Moment<'m> {
    line: Option<u128>,
    clock: &'m [u8],
}

/// Adds the end of a note: the line of the trace and the time of day, in brackets.
fn add_end(out: &mut Waiting, moment: Moment<'_>) -> Option<()> {
    let Moment { line, clock } = moment;
    match (line, clock) {
        (Some(line), _) => {
            let mut digits = Buffer::new();
            out.add(b" (trace line ")?;
            out.add(digits.format(line).as_bytes())?;
            if !clock.is_empty() {
                out.add(clock)?;
            }
        }
        (None, [b',', b' ', time @ ..]) => {
            out.add(b" (")?;
            out.add(time)?;
        }
        (None, _) => return out.add(b"\n"),
    }
    out.add(b")\n")
}

/// The line of the trace that came at a time. What comes of a wake has an earlier time than the line that is at work.
fn line_at(at_work: AtWork, ms: u64) -> Option<u128> {
    if at_work.ms == ms {
        Some(at_work.number)
    } else {
        None
    }
}

/// Adds the note that a clause fired: what stands in front, each name with its word, and when that was.
fn add_clause(
    out: &mut Waiting,
    legend: &Legend<'_>,
    clause: &ClauseLegend,
    words: &[i64],
    moment: Moment<'_>,
) -> Option<()> {
    out.add(clause.front.as_slice())?;
    for seen in &clause.seen {
        if let Some(word) = words.get(seen.word) {
            out.add(seen.front.as_slice())?;
            add_value(out, legend.units_of(seen), *word)?;
        }
    }
    add_end(out, moment)
}

/// Why a put was refused.
fn why(refusal: RefusalCause) -> &'static [u8] {
    match refusal {
        RefusalCause::NoLink => b"refused (-1): no channel is assigned there\n",
        RefusalCause::Down => b"refused (-2): it is down\n",
        RefusalCause::Waiting => b"refused (-1): an earlier put is not answered yet\n",
    }
}

/// Adds the note that a put was refused.
fn add_refused(out: &mut Waiting, legend: &Legend<'_>, put: Refused) -> Option<()> {
    out.add(b"# put ")?;
    if let Some(number) = put.channel {
        if let Some(name) = legend.channels.get_index(number) {
            out.add(b"to ")?;
            out.add(name.as_slice())?;
            out.add(b" ")?;
        }
    }
    out.add(why(put.why))
}

impl<'c> Notes<'c> {
    /// Nothing was noted yet. Fails only where memory ran out.
    pub fn new(
        alloc: Global,
        legend: Legend<'c>,
        progress: &'c RefCell<Progress>,
    ) -> Result<Self, AllocError> {
        Ok(Notes {
            standing: Standing::new(alloc, legend.sets.len())?,
            legend,
            progress,
            at_work: AtWork { number: 0, ms: 0 },
            zero: Zero::new(),
            waiting: Waiting::new(alloc)?,
        })
    }

    /// Hears which line of the trace is at work.
    pub(crate) fn line(&mut self, number: u128, ms: u64) {
        self.at_work = AtWork { number, ms };
    }

    /// Notes that a clause fired.
    pub(crate) fn fired(&mut self, fired: Fired, words: &[i64]) {
        if self.waiting.is_full() {
            return;
        }
        let Some(clause) = self.legend.clause(fired) else {
            return;
        };
        let before = self.waiting.len();
        let clock = self.zero.beside(fired.ms);
        let moment = Moment {
            line: line_at(self.at_work, fired.ms),
            clock: clock.as_slice(),
        };
        let added = add_clause(&mut self.waiting, &self.legend, clause, words, moment);
        self.waiting.settle(before, added);
    }

    /// Hears of a transition.
    pub(crate) fn went(&mut self, transition: Went) {
        self.standing.go(transition);
    }

    /// Hears of a put.
    pub(crate) fn put(&mut self) {
        self.standing.put();
    }

    /// Notes that a put was refused.
    pub(crate) fn refused(&mut self, put: Refused) {
        self.standing.refuse();
        if self.waiting.is_full() {
            return;
        }
        let before = self.waiting.len();
        let added = add_refused(&mut self.waiting, &self.legend, put);
        self.waiting.settle(before, added);
    }

    /// The program begins, at the line that is at work.
    fn begin(&mut self) {
        self.standing.begin(self.at_work.ms);
        if let Ok(mut progress) = self.progress.try_borrow_mut() {
            progress.begin();
            self.zero = progress.zero();
        }
    }

    /// Hears the next bytes of the run, which stand in one line. With the first byte the program begins.
    pub(crate) fn pass(&mut self, piece: &[u8]) {
        if !self.standing.has_begun() && !piece.is_empty() {
            self.begin();
        }
        if ends_line(piece) {
            self.standing.end_line();
        }
    }

    /// Whether no note waits.
    pub(crate) fn is_empty(&self) -> bool {
        self.waiting.is_empty()
    }

    /// Takes the notes that wait, with their room, of which so much is taken; `put_back` gives it back.
    pub(crate) fn take_waiting(&mut self) -> (Vec<u8>, usize) {
        self.waiting.take()
    }

    /// Gives room back for the next notes.
    pub(crate) fn put_back(&mut self, room: Vec<u8>) {
        self.waiting.put_back(room);
    }

    /// The notes that wait stand in front of a line, where they are extra lines and nothing else, of which none reads as the line of a
    /// fold; else none. Those that stood there are gone.
    pub(crate) fn put_noted(&mut self, line: &mut LineNotes) {
        line.take(&mut self.waiting);
    }

    /// What the notes name.
    pub fn legend(&self) -> &Legend<'c> {
        &self.legend
    }

    /// Where the state sets stand, and counts.
    pub fn standing(&self) -> &Standing {
        &self.standing
    }

    /// The date of 0 ms, where the trace has told it and the program has begun.
    pub(crate) fn zero(&self) -> Zero {
        self.zero
    }

    /// How many lines of the trace were given.
    pub fn lines(&self) -> u64 {
        match self.progress.try_borrow() {
            Ok(progress) => progress.lines(),
            Err(_) => 0,
        }
    }

    /// The number of the line of the trace that was at work last, from 1 on; 0 where none was.
    pub fn line_at_work(&self) -> u64 {
        line_number(self.at_work.number)
    }
}
