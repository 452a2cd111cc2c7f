//! `run`: a run for a person, with notes between its lines and a summary behind them.

ghost use Rattle.std.specs.Prelude.{◌≡◌, ◌+◌, ◌-◌, ◌^◌, ◌<◌, ℕ, List, Bool, [], Some, false, true, not, IfNone, IfOk, IfSome, string_bytes};
ghost use Rattle.std.specs.Option.{option_map, unwrap_or};
ghost use Rattle.snl_syntax.specs.Programs.{ProgramTree};
ghost use Rattle.snl_channels.specs.Links.{Link};
ghost use Rattle.snl_machine.specs.MachineOf.{IsMachineOf, world_held};
ghost use Rattle.snl_output.specs.Devices.{counted};
ghost use Rattle.snl_trace.specs.Ends.{sink_failed, source_failed};
ghost use Rattle.snl_watch.specs.Extra.{shown};
ghost use Rattle.snl_watch.specs.Folding.{IsFolded};
ghost use Rattle.snc.specs.Answered.{IsAnswered};
ghost use Rattle.snc.specs.Runs.{EndsAt, RunsLike, RunsWith, trace_failures};

use crate::staging::{Stage, Staging};
use crate::starting::names_of;
use crate::summaries::summary_of;
use crate::telling::ProgramView;
use crate::units::units_of;
use snc::{Answered, Status, answer, status_of};
use snc_args::Job;
use snl_machine::{Machine, Sink};
use snl_trace::{End, Source, run};
use snl_units::ChannelUnits;
use snl_watch::{ByLine, Folder, Follower, HeardTrace, Legend, Notes, Progress, Teller};
use std::alloc::{AllocError, Global};
use std::cell::RefCell;
use std::mem;

/// A program that is run for a person.
#[derive(Clone, Copy)]
pub struct Subject<'s> {
    /// Its source.
    pub source: &'s [u8],
    /// What the numbers of its channels stand for, where that is known.
    pub units: &'s [ChannelUnits],
}

/// What `run` answers.
#[derive(Drop)]
pub struct RunAnswer<R, K> {
    /// A line for each message about the source.
    pub messages: Vec<u8>,
    /// How the run ended; None where a message is an error: then the trace was not read, and nothing was written.
    pub end: Option<End>,
    /// Whether all was written, with the summary.
    pub is_whole: bool,
    /// The trace, read as far as it was.
    pub trace: R,
    /// Where it was written.
    pub sink: K,
}

/// What came of a run.
#[derive(Drop)]
struct Ran<R> {
    end: End,
    heard: HeardTrace,
    trace: R,
}

/// Runs a machine over a trace, line by line. Fails only where memory ran out.
fn ran_over<R: Source + Drop, S: Sink>(
    alloc: Global,
    machine: &mut Machine,
    trace: R,
    sink: &mut S,
    progress: &RefCell<Progress>,
) -> Result<Ran<R>, AllocError>
    requires trace { R.failures trace < 2 ^ 64 - 1 }
    requires fresh { R.gave trace ≡ [] }
    requires sink { S.failures sink.old < 2 ^ 64 - 1 }
    ensures means { IfOk result (λ ran. (p : ProgramTree) (ls : List Link) (waits : Bool)
        (budget : ℕ) → IsMachineOf p ls waits budget machine.old →
        EndsAt p ls waits budget (world_held machine.old) (R.gave ran.trace)
        (R.ended ran.trace) (S.told sink.old) (S.told sink.new) ran.end
        (world_held machine.new)) }
    ensures source { IfOk result (λ ran. R.failures ran.trace
        ≡ counted (source_failed ran.end) (R.failures trace)) }
    ensures failures { IfOk result (λ ran. S.failures sink.new
        ≡ counted (sink_failed ran.end) (S.failures sink.old)) }
{
    let names = names_of(alloc, machine)?;
    let heard = HeardTrace::new(alloc, names)?;
    let lines = ByLine::new(alloc, trace)?;
    let mut follower = Follower::new(lines, heard, progress);
    let end = run(machine, &mut follower, sink);
    let (lines, heard) = follower.into_parts();
    let trace = lines.into_inner();
    if heard.ran_out() {
        return Err(AllocError);
    }
    Ok(Ran { end, heard, trace })
}

/// Whether a run ended because its lines could not be written.
fn failed(end: End) -> bool
    ensures { result ≡ sink_failed end }
{
    match end {
        End::SinkFailed => true,
        _ => false,
    }
}

/// Tells a summary behind a run, unless the sink has failed. Answers whether all was taken, that of the run too.
fn summed<K: Sink>(teller: &mut Teller<'_, K>, end: End, summary: &[u8]) -> bool
    requires { sink_failed end ≡ false →
        K.failures teller.old.inner + teller.old.refused < 2 ^ 64 - 1 }
    ensures told { shown (K.told teller.new.inner) ≡ shown (K.told teller.old.inner) }
    ensures failed { sink_failed end ≡ true → result ≡ false }
    ensures stays { sink_failed end ≡ true → K.failures teller.new.inner + teller.new.refused
        ≡ K.failures teller.old.inner + teller.old.refused }
    ensures counted { sink_failed end ≡ false → K.failures teller.new.inner
        + teller.new.refused ≡ counted (not result) (K.failures teller.old.inner
        + teller.old.refused) }
{
    if failed(end) {
        return false;
    }
    teller.tell(summary).is_ok()
}

/// Ends a run that is folded, with a summary, unless the sink has failed. Answers whether all was taken, that of the run too.
fn finished<K: Sink, W: Sink>(folder: &mut Folder<'_, K, W>, end: End, summary: &[u8]) -> bool
    requires { sink_failed end ≡ false → K.failures folder.old.inner
        + (W.failures folder.old.witness + folder.old.refused) < 2 ^ 64 - 1 }
    ensures told { W.told folder.new.witness ≡ W.told folder.old.witness }
    ensures folded { result ≡ true → (run output : List ℕ) →
        W.told folder.new.witness ≡ Some run → K.told folder.new.inner ≡ Some output →
        ∥ IsFolded run output ∥₁ }
    ensures failed { sink_failed end ≡ true → result ≡ false }
    ensures stays { sink_failed end ≡ true → K.failures folder.new.inner
        + (W.failures folder.new.witness + folder.new.refused) ≡ K.failures folder.old.inner
        + (W.failures folder.old.witness + folder.old.refused) }
    ensures counted { sink_failed end ≡ false → K.failures folder.new.inner
        + (W.failures folder.new.witness + folder.new.refused) ≡ counted (not result)
        (K.failures folder.old.inner + (W.failures folder.old.witness + folder.old.refused)) }
{
    if failed(end) {
        return false;
    }
    folder.finish(summary).is_ok()
}

/// What was told of a run.
#[derive(Drop)]
struct RunReport<R, K> {
    end: End,
    /// Whether all was written, with the summary.
    is_whole: bool,
    trace: R,
    sink: K,
}

/// What is noted of the run of a program that is staged. The names of its states go from the stage to the notes.
fn notes_of<'c>(
    alloc: Global,
    stage: &mut Stage,
    units: &'c [ChannelUnits],
    progress: &'c RefCell<Progress>,
) -> Result<Notes<'c>, AllocError>
    ensures { stage.new.prepared ≡ stage.old.prepared }
{
    let legend = Legend {
        channels: names_of(alloc, &stage.prepared.machine)?,
        units: units_of(alloc, stage.prepared.links.as_slice(), units)?,
        sets: mem::replace(&mut stage.sets, Vec::new(alloc)),
    };
    Notes::new(alloc, legend, progress)
}

/// What is known of a program that is staged, and of its run.
fn scene_of<'s>(source: &'s [u8], stage: &'s Stage) -> ProgramView<'s> {
    ProgramView {
        source,
        links: stage.prepared.links.as_slice(),
        machine: &stage.prepared.machine,
        waits: stage.prepared.waits,
    }
}

/// Runs a program that is staged over a trace, each line of the run as it is. Fails only where memory ran out.
fn whole_of<R: Source + Drop, K: Sink + Drop>(
    alloc: Global,
    subject: Subject<'_>,
    stage: &mut Stage,
    trace: R,
    sink: K,
) -> Result<RunReport<R, K>, AllocError>
    requires trace { R.failures trace < 2 ^ 64 - 1 }
    requires fresh_trace { R.gave trace ≡ [] }
    requires sink { K.failures sink < 2 ^ 64 - 1 }
    requires fresh { (text : List ℕ) → K.told sink ≡ Some text → text ≡ [] }
    ensures runs { IfOk result (λ told. (p : ProgramTree) (ls : List Link) (budget : ℕ) →
        IsMachineOf p ls stage.old.prepared.waits budget stage.old.prepared.machine →
        RunsLike p ls stage.old.prepared.waits budget (world_held stage.old.prepared.machine)
        (R.gave told.trace) (R.ended told.trace) (shown (K.told sink))
        (shown (K.told told.sink)) told.end) }
    ensures source { IfOk result (λ told. R.failures told.trace
        ≡ counted (source_failed told.end) (R.failures trace)) }
    ensures failed { IfOk result (λ told. sink_failed told.end ≡ true → told.is_whole ≡ false) }
    ensures counted { IfOk result (λ told. K.failures told.sink
        ≡ counted (not told.is_whole) (K.failures sink)) }
{
    let progress = RefCell::new(Progress::new());
    let notes = notes_of(alloc, stage, subject.units, &progress)?;
    let mut teller = Teller::new(sink, notes);
    let ran = ran_over(
        alloc,
        &mut stage.prepared.machine,
        trace,
        &mut teller,
        &progress,
    )?;
    let Ran { end, heard, trace } = ran;
    let scene = scene_of(subject.source, stage);
    let summary = summary_of(alloc, teller.notes(), scene, end, heard)?;
    let is_whole = summed(&mut teller, end, summary.as_slice());
    let is_faithful = teller.is_faithful();
    if !is_faithful {
        return Err(AllocError);
    }
    Ok(RunReport {
        end,
        is_whole,
        trace,
        sink: teller.into_inner(),
    })
}

/// The same, with blocks of lines that repeat folded; a witness takes each line of the run as it is.
fn folded_of<R: Source + Drop, K: Sink + Drop, W: Sink + Drop>(
    alloc: Global,
    subject: Subject<'_>,
    stage: &mut Stage,
    trace: R,
    sink: K,
    witness: W,
) -> Result<RunReport<R, (K, W)>, AllocError>
    requires trace { R.failures trace < 2 ^ 64 - 1 }
    requires fresh_trace { R.gave trace ≡ [] }
    requires sinks { K.failures sink + W.failures witness < 2 ^ 64 - 1 }
    requires fresh { (text : List ℕ) → K.told sink ≡ Some text → text ≡ [] }
    requires unused { (text : List ℕ) → W.told witness ≡ Some text → text ≡ [] }
    ensures runs { IfOk result (λ told. (p : ProgramTree) (ls : List Link) (budget : ℕ) →
        IsMachineOf p ls stage.old.prepared.waits budget stage.old.prepared.machine →
        RunsLike p ls stage.old.prepared.waits budget (world_held stage.old.prepared.machine)
        (R.gave told.trace) (R.ended told.trace) (W.told witness) (W.told told.sink.1)
        told.end) }
    ensures source { IfOk result (λ told. R.failures told.trace
        ≡ counted (source_failed told.end) (R.failures trace)) }
    ensures failed { IfOk result (λ told. sink_failed told.end ≡ true → told.is_whole ≡ false) }
    ensures folded { IfOk result (λ told. told.is_whole ≡ true → (run output : List ℕ) →
        W.told told.sink.1 ≡ Some run → K.told told.sink.0 ≡ Some output →
        ∥ IsFolded run output ∥₁) }
    ensures counted { IfOk result (λ told. K.failures told.sink.0 + W.failures told.sink.1
        ≡ counted (not told.is_whole) (K.failures sink + W.failures witness)) }
{
    let progress = RefCell::new(Progress::new());
    let notes = notes_of(alloc, stage, subject.units, &progress)?;
    let mut folder = Folder::new(alloc, sink, witness, notes)?;
    let ran = ran_over(
        alloc,
        &mut stage.prepared.machine,
        trace,
        &mut folder,
        &progress,
    )?;
    let Ran { end, heard, trace } = ran;
    if folder.ran_out() {
        return Err(AllocError);
    }
    let scene = scene_of(subject.source, stage);
    let summary = summary_of(alloc, folder.notes(), scene, end, heard)?;
    let is_whole = finished(&mut folder, end, summary.as_slice());
    let is_faithful = folder.is_faithful();
    if !is_faithful {
        return Err(AllocError);
    }
    Ok(RunReport {
        end,
        is_whole,
        trace,
        sink: folder.into_parts(),
    })
}

/// Reads and checks a program and, if it has no error, runs it over a trace, with notes between the lines of the run and a
/// summary behind them. The lines that do not begin with `#` are those that `snlrun` writes.
///
/// `job` has the options, the macros and the budget, as `snlrun` has them. Nothing was read of the trace, and nothing was written
/// to the sink; both are handed back. Not all is written exactly where the sink counts a failure. Fails only where memory ran out; and
/// where a line of the run would read as a note, or have no end, which none has.
pub fn run_whole<R: Source + Drop, K: Sink + Drop>(
    alloc: Global,
    subject: Subject<'_>,
    job: &Job,
    trace: R,
    sink: K,
) -> Result<RunAnswer<R, K>, AllocError>
    requires trace { R.failures trace < 2 ^ 64 - 1 }
    requires fresh_trace { R.gave trace ≡ [] }
    requires sink { K.failures sink < 2 ^ 64 - 1 }
    requires fresh { (text : List ℕ) → K.told sink ≡ Some text → text ≡ [] }
    ensures run { IfOk result (λ a. IsAnswered
        (RunsWith (unwrap_or (option_map string_bytes job.now.macros) []) job.now.budget
        (R.gave a.trace) (R.ended a.trace) (shown (K.told sink)) (shown (K.told a.sink)))
        job.now.options (string_bytes job.now.file) subject.entry.source.now a.messages.items
        a.end) }
    ensures unread { IfOk result (λ a. IfNone a.end (a.trace ≡ trace)) }
    ensures unwritten { IfOk result (λ a. IfNone a.end (a.sink ≡ sink)) }
    ensures source { IfOk result (λ a. R.failures a.trace
        ≡ trace_failures a.end (R.failures trace)) }
    ensures failed { IfOk result (λ a. IfSome a.end (λ e. sink_failed e ≡ true →
        a.is_whole ≡ false)) }
    ensures counted { IfOk result (λ a. K.failures a.sink
        ≡ counted (not a.is_whole) (K.failures sink)) }
{
    let Answered { messages, made } = answer(alloc, job, subject.source, &Staging)?;
    let Some(mut stage) = made else {
        return Ok(RunAnswer {
            messages,
            end: None,
            is_whole: true,
            trace,
            sink,
        });
    };
    let told = whole_of(alloc, subject, stage.as_mut(), trace, sink)?;
    Ok(RunAnswer {
        messages,
        end: Some(told.end),
        is_whole: told.is_whole,
        trace: told.trace,
        sink: told.sink,
    })
}

/// The same, with blocks of lines that repeat folded: what is written stands for the lines that `snlrun` writes, but for their
/// times. A witness takes the lines of the run as they are; `Nowhere` is one for who does not want them.
pub fn run_folded<R: Source + Drop, K: Sink + Drop, W: Sink + Drop>(
    alloc: Global,
    subject: Subject<'_>,
    job: &Job,
    trace: R,
    sink: K,
    witness: W,
) -> Result<RunAnswer<R, (K, W)>, AllocError>
    requires trace { R.failures trace < 2 ^ 64 - 1 }
    requires fresh_trace { R.gave trace ≡ [] }
    requires sinks { K.failures sink + W.failures witness < 2 ^ 64 - 1 }
    requires fresh { (text : List ℕ) → K.told sink ≡ Some text → text ≡ [] }
    requires unused { (text : List ℕ) → W.told witness ≡ Some text → text ≡ [] }
    ensures run { IfOk result (λ a. IsAnswered
        (RunsWith (unwrap_or (option_map string_bytes job.now.macros) []) job.now.budget
        (R.gave a.trace) (R.ended a.trace) (W.told witness) (W.told a.sink.1))
        job.now.options (string_bytes job.now.file) subject.entry.source.now a.messages.items
        a.end) }
    ensures unread { IfOk result (λ a. IfNone a.end (a.trace ≡ trace)) }
    ensures unwritten { IfOk result (λ a. IfNone a.end (a.sink.0 ≡ sink)) }
    ensures source { IfOk result (λ a. R.failures a.trace
        ≡ trace_failures a.end (R.failures trace)) }
    ensures failed { IfOk result (λ a. IfSome a.end (λ e. sink_failed e ≡ true →
        a.is_whole ≡ false)) }
    ensures folded { IfOk result (λ answer. IfSome answer.end (λ _. answer.is_whole ≡ true →
        (run output : List ℕ) → W.told answer.sink.1 ≡ Some run →
        K.told answer.sink.0 ≡ Some output → ∥ IsFolded run output ∥₁)) }
    ensures counted { IfOk result (λ a. K.failures a.sink.0 + W.failures a.sink.1
        ≡ counted (not a.is_whole) (K.failures sink + W.failures witness)) }
{
    let Answered { messages, made } = answer(alloc, job, subject.source, &Staging)?;
    let Some(mut stage) = made else {
        return Ok(RunAnswer {
            messages,
            end: None,
            is_whole: true,
            trace,
            sink: (sink, witness),
        });
    };
    let told = folded_of(alloc, subject, stage.as_mut(), trace, sink, witness)?;
    Ok(RunAnswer {
        messages,
        end: Some(told.end),
        is_whole: told.is_whole,
        trace: told.trace,
        sink: told.sink,
    })
}

impl<R, K> RunAnswer<R, K> {
    /// The status of a call: 3 where the trace could not be read, or something not be written; else 0 where the trace or the
    /// program ended, 1 where the source has an error, 5 where the program faulted, 6 where a line of the trace is bad.
    pub fn status(&self) -> Status {
        match self.end {
            None => Status::SourceErrors,
            Some(_) if !self.is_whole => Status::InputOutput,
            Some(end) => status_of(end),
        }
    }
}
