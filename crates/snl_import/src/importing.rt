//! Recorded logs, written as one trace.

ghost use Rattle.std.specs.Prelude.{◌≡◌, ◌+◌, ◌-◌, ◌^◌, ◌<◌, ℕ, Bool, List, [], Some, IfOk, OnErr};
ghost use Rattle.snl_trace.specs.Grammar.{Told};
ghost use Rattle.snl_import.specs.Counts.{left_total};
ghost use Rattle.snl_import.specs.Taken.{TellsTaken};
ghost use Rattle.snl_import.specs.Written.{IsTrace, IsTraceFront};

use crate::channels::Channels;
use crate::counts::Counts;
use crate::errors::ImportError;
use crate::feed::{Feed, fault_of, have_numbers};
use crate::importer::{Begin, Importer};
use crate::opening::Opening;
use crate::preface::Preface;
use crate::programs::Program;
use crate::report::notes_of;
use crate::unit_lines::{add_channels, add_told};
use crate::wishes::{Wishes, channels_of};
use crate::writing::{write_comments, write_events};
use snl_logs::time_text;
use snl_output::Sink;
use std::alloc::{AllocError, Global};
use std::io::BufRead;

/// What came of logs.
#[derive(Drop)]
pub struct Imported {
    /// How many lines were read, and what became of their values.
    pub counts: Counts,
    /// The time of the last event, in milliseconds.
    pub last: u64,
    /// What there is to tell a user, as lines.
    pub notes: Vec<u8>,
    /// Whether each log had a number, and each channel that the program monitors has a value.
    pub is_whole: bool,
}

/// What the logs say of where a trace begins.
fn look_into<R: BufRead + Drop>(
    alloc: Global,
    feeds: &mut [Feed<R>],
) -> Result<Opening, ImportError> {
    let mut all = Opening::new(alloc);
    for (place, feed) in feeds.iter_mut().enumerate() {
        let mut opening = Opening::new(alloc);
        if let Err(error) = feed.look(alloc, &mut opening) {
            return Err(fault_of(error, place));
        }
        all.join(&opening);
    }
    Ok(all)
}

/// Goes on to the first line of each log.
fn advance_all<R: BufRead + Drop>(alloc: Global, feeds: &mut [Feed<R>]) -> Result<(), ImportError> {
    for (place, feed) in feeds.iter_mut().enumerate() {
        if let Err(error) = feed.advance(alloc) {
            return Err(fault_of(error, place));
        }
    }
    Ok(())
}

/// Where the trace of logs begins.
fn begin_of<R: BufRead + Drop>(
    alloc: Global,
    wishes: &Wishes,
    feeds: &mut [Feed<R>],
) -> Result<Begin, ImportError> {
    if let Some(time) = wishes.from {
        return Ok(Begin { time, is_cut: true });
    }
    let opening = look_into(alloc, feeds)?;
    Ok(Begin {
        time: opening.begin(wishes.lead),
        is_cut: false,
    })
}

/// Adds the names of the files of logs.
fn add_files<R: BufRead + Drop>(
    preface: &mut Preface,
    feeds: &[Feed<R>],
) -> Result<(), AllocError> {
    for feed in feeds {
        if feed.is_first() {
            preface.add(&[b"log", feed.file()])?;
        }
    }
    Ok(())
}

/// Adds the time of 0 ms, where the logs tell a date.
fn add_zero(alloc: Global, preface: &mut Preface, begin: u64) -> Result<(), AllocError> {
    match time_text(alloc, begin)? {
        Some(zero) if begin > 0 => preface.add(&[b"zero", zero.as_slice()]),
        _ => Ok(()),
    }
}

/// Adds what makes the trace, by its name and its version.
fn add_maker(preface: &mut Preface, wishes: &Wishes) -> Result<(), AllocError> {
    preface.add(&[b"written by", wishes.maker.as_slice()])
}

/// Adds the words that name the program that the trace is made for.
fn add_program(preface: &mut Preface, wishes: &Wishes) -> Result<(), AllocError> {
    match &wishes.program {
        Some(program) => preface.add(&[b"program", program.words.as_slice()]),
        None => Ok(()),
    }
}

/// The comments with which the trace of logs begins: what made it, the time of 0 ms, the program, the files, and what the numbers stand for.
fn preface_of<R: BufRead + Drop>(
    alloc: Global,
    wishes: &Wishes,
    feeds: &[Feed<R>],
    begin: Begin,
    channels: &Channels,
) -> Result<Preface, AllocError> {
    let mut preface = Preface::new(alloc);
    add_maker(&mut preface, wishes)?;
    add_zero(alloc, &mut preface, begin.time)?;
    add_program(&mut preface, wishes)?;
    add_files(&mut preface, feeds)?;
    add_channels(alloc, &mut preface, channels)?;
    add_told(&mut preface, wishes.units.as_slice())?;
    Ok(preface)
}

/// Hands the comments with which the trace of logs begins to a sink to which nothing was written. Answers what is known of channels.
fn write_front<R: BufRead + Drop, K: Sink>(
    alloc: Global,
    wishes: &Wishes,
    feeds: &[Feed<R>],
    begin: Begin,
    sink: &mut K,
) -> Result<Channels, ImportError>
    requires sink { K.failures sink.old < 2 ^ 64 - 1 }
    requires fresh { (text : List ℕ) → K.told sink.old ≡ Some text → text ≡ [] }
    ensures trace { IfOk result (λ _. IsTrace (K.told sink.new) (0, 0)) }
    ensures front { OnErr result (IsTraceFront (K.told sink.new)) }
    ensures taken { (taken : Told → Bool) → TellsTaken taken (K.told sink.new) }
    ensures failures { IfOk result (λ _. K.failures sink.new ≡ K.failures sink.old) }
{
    let channels = channels_of(alloc, wishes)?;
    let preface = preface_of(alloc, wishes, feeds, begin, &channels)?;
    write_comments(&preface, sink)?;
    Ok(channels)
}

/// What came of logs that were written whole.
fn imported_of<R: BufRead + Drop, P: Program + Drop>(
    alloc: Global,
    importer: &Importer<P>,
    feeds: &[Feed<R>],
) -> Result<Imported, AllocError>
    ensures counts { IfOk result (λ i. i.counts ≡ importer.now.counts) }
    ensures last { IfOk result (λ i. i.last ≡ importer.now.recorder.last) }
{
    Ok(Imported {
        counts: importer.counts(),
        last: importer.last(),
        notes: notes_of(alloc, importer, feeds)?,
        is_whole: importer.channels().lacking() == 0 && have_numbers(feeds),
    })
}

/// Writes all lines of logs up to a time to a sink to which the front of their trace was written. Answers what came of them.
fn imported_by<R: BufRead + Drop, P: Program + Drop, K: Sink>(
    alloc: Global,
    feeds: &mut [Feed<R>],
    until: u64,
    importer: &mut Importer<P>,
    sink: &mut K,
) -> Result<Imported, ImportError>
    requires sink { K.failures sink.old < 2 ^ 64 - 1 }
    requires trace { IsTrace (K.told sink.old)
        (importer.old.recorder.first, importer.old.recorder.before) }
    requires taken { TellsTaken (P.taken importer.old.recorder.program) (K.told sink.old) }
    ensures trace { IfOk result (λ i. IsTrace (K.told sink.new) (i.last, i.counts.written)) }
    ensures front { OnErr result (IsTraceFront (K.told sink.new)) }
    ensures taken { TellsTaken (P.taken importer.old.recorder.program) (K.told sink.new) }
{
    write_events(alloc, feeds, until, importer, sink)?;
    Ok(imported_of(alloc, importer, feeds)?)
}

/// Writes logs as one trace to a sink to which nothing was written. Whatever the bytes of the logs are, each line that is written is
/// a comment with which the trace begins, or an event that a run takes, in the order of time: behind all of them a run stands at the time `last`, and has heard `written` values.
/// Each line that was read is understood or not, and each value of the lines was written or is left out; both are counted. What was
/// written before an error is the front of a trace. Of all that is written, the program takes each event: its channel is one of the
/// program, and its values fit.
///
/// Fails where memory ends, a log cannot be read, or the sink fails.
pub fn import<R: BufRead + Drop, P: Program + Drop, K: Sink>(
    alloc: Global,
    wishes: &Wishes,
    program: P,
    feeds: &mut [Feed<R>],
    sink: &mut K,
) -> Result<Imported, ImportError>
    requires sink { K.failures sink.old < 2 ^ 64 - 1 }
    requires fresh { (text : List ℕ) → K.told sink.old ≡ Some text → text ≡ [] }
    ensures trace { IfOk result (λ i. IsTrace (K.told sink.new) (i.last, i.counts.written)) }
    ensures front { OnErr result (IsTraceFront (K.told sink.new)) }
    ensures taken { TellsTaken (P.taken program) (K.told sink.new) }
    ensures lines { IfOk result (λ i. i.counts.understood + i.counts.unknown ≡ i.counts.lines) }
    ensures values { IfOk result (λ i. i.counts.written + left_total i.counts.left
        ≡ i.counts.values) }
{
    let begin = begin_of(alloc, wishes, feeds)?;
    advance_all(alloc, feeds)?;
    let channels = write_front(alloc, wishes, feeds, begin, sink)?;
    let mut importer = Importer::new(alloc, channels, begin, program);
    let until = wishes.to.unwrap_or(u64::MAX);
    imported_by(alloc, feeds, until, &mut importer, sink)
}
