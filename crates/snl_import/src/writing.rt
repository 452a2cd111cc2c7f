//! Lines of logs, written as a trace to a sink, a block at a time.

ghost use Rattle.std.specs.Prelude.{◌≡◌, ◌-◌, ◌^◌, ◌<◌, ℕ, Bool, List, [], Some, OnOk, OnErr, is_err};
ghost use Rattle.snl_output.specs.Devices.{counted, Wrote};
ghost use Rattle.snl_trace.specs.Grammar.{Told};
ghost use Rattle.snl_import.specs.Taken.{TellsTaken};
ghost use Rattle.snl_import.specs.Written.{IsTrace, IsTraceFront};

use crate::errors::ImportError;
use crate::feed::{Feed, take_next};
use crate::importer::Importer;
use crate::preface::Preface;
use crate::programs::Program;
use snl_output::{Line, Sink, SinkFault};
use std::alloc::Global;
use std::io::BufRead;

/// How many bytes are held back before they are handed on.
const HELD: usize = 65_536;

/// How many lines are taken in at most before that.
const LINES: usize = 65_536;

/// Hands a text to a sink whole.
fn send<K: Sink>(sink: &mut K, text: &[u8]) -> Result<(), SinkFault>
    requires { K.failures sink.old < 2 ^ 64 - 1 }
    ensures told { Wrote result text.now (K.told sink.old) (K.told sink.new) }
    ensures failures { K.failures sink.new ≡ counted (is_err result) (K.failures sink.old) }
{
    let mut line = Line::new();
    line.add(text, sink)?;
    line.send(sink)
}

/// Hands the comments with which a trace begins to a sink to which nothing was given.
pub fn write_comments<K: Sink>(preface: &Preface, sink: &mut K) -> Result<(), ImportError>
    requires sink { K.failures sink.old < 2 ^ 64 - 1 }
    requires fresh { (text : List ℕ) → K.told sink.old ≡ Some text → text ≡ [] }
    ensures trace { OnOk result (IsTrace (K.told sink.new) (0, 0)) }
    ensures front { OnErr result (IsTraceFront (K.told sink.new)) }
    ensures taken { (taken : Told → Bool) → TellsTaken taken (K.told sink.new) }
    ensures failures { OnOk result (K.failures sink.new ≡ K.failures sink.old) }
{
    send(sink, preface.text())?;
    Ok(())
}

/// Hands on what was written, and takes it away.
fn hand_on<P: Program + Drop, K: Sink>(
    importer: &mut Importer<P>,
    sink: &mut K,
) -> Result<(), ImportError>
    requires sink { K.failures sink.old < 2 ^ 64 - 1 }
    requires trace { IsTrace (K.told sink.old)
        (importer.old.recorder.first, importer.old.recorder.before) }
    requires taken { TellsTaken (P.taken importer.old.recorder.program) (K.told sink.old) }
    ensures trace { OnOk result (IsTrace (K.told sink.new)
        (importer.new.recorder.first, importer.new.recorder.before)) }
    ensures front { OnErr result (IsTraceFront (K.told sink.new)) }
    ensures taken { TellsTaken (P.taken importer.old.recorder.program) (K.told sink.new) }
    ensures program { importer.new.recorder.program ≡ importer.old.recorder.program }
    ensures failures { OnOk result (K.failures sink.new ≡ K.failures sink.old) }
    ensures counts { importer.new.counts ≡ importer.old.counts }
    ensures last { importer.new.recorder.last ≡ importer.old.recorder.last }
    ensures first { OnOk result (importer.new.recorder.first ≡ importer.old.recorder.last) }
    ensures before { OnOk result (importer.new.recorder.before ≡ importer.old.counts.written) }
{
    send(sink, importer.text())?;
    importer.clear();
    Ok(())
}

/// Takes in lines until a block is full. Answers whether there may be more: at the end of all logs, or behind a time, there are none.
fn take_block<R: BufRead + Drop, P: Program + Drop>(
    alloc: Global,
    feeds: &mut [Feed<R>],
    until: u64,
    importer: &mut Importer<P>,
) -> Result<bool, ImportError>
    ensures first { importer.new.recorder.first ≡ importer.old.recorder.first }
    ensures before { importer.new.recorder.before ≡ importer.old.recorder.before }
    ensures program { importer.new.recorder.program ≡ importer.old.recorder.program }
{
    for _ in 0..LINES {
        if !take_next(alloc, feeds, until, importer)? {
            importer.begin()?;
            return Ok(false);
        }
        if importer.text().len() >= HELD {
            return Ok(true);
        }
    }
    Ok(true)
}

/// Takes in all lines of logs up to a time, the earliest first, and hands on what is written of them. What was written before an error
/// is handed on, too.
pub fn write_events<R: BufRead + Drop, P: Program + Drop, K: Sink>(
    alloc: Global,
    feeds: &mut [Feed<R>],
    until: u64,
    importer: &mut Importer<P>,
    sink: &mut K,
) -> Result<(), ImportError>
    requires sink { K.failures sink.old < 2 ^ 64 - 1 }
    requires trace { IsTrace (K.told sink.old)
        (importer.old.recorder.first, importer.old.recorder.before) }
    requires taken { TellsTaken (P.taken importer.old.recorder.program) (K.told sink.old) }
    ensures trace { OnOk result (IsTrace (K.told sink.new)
        (importer.new.recorder.last, importer.new.counts.written)) }
    ensures front { OnErr result (IsTraceFront (K.told sink.new)) }
    ensures taken { TellsTaken (P.taken importer.old.recorder.program) (K.told sink.new) }
{
    for _ in 0..u64::MAX {
        let taken = take_block(alloc, feeds, until, importer);
        hand_on(importer, sink)?;
        if !taken? {
            return Ok(());
        }
    }
    Err(ImportError::TooMany)
}
