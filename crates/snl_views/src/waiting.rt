//! `waits`: why a program did not begin, or when it did.

ghost use Rattle.std.specs.Prelude.{◌≡◌, ◌-◌, ◌^◌, ◌<◌, ℕ, List, [], Some, IfNone, IfOk, option_map, string_bytes};
ghost use Rattle.std.specs.Option.{unwrap_or};
ghost use Rattle.snl_syntax.specs.Programs.{ProgramTree};
ghost use Rattle.snl_channels.specs.Links.{Link};
ghost use Rattle.snl_load.specs.Meaning.{program_meaning};
ghost use Rattle.snl_meaning.specs.declared.live.Live.TheVariants.{Waiting};
ghost use Rattle.snl_machine.specs.MachineOf.{IsMachineOf, task_of, world_held};
ghost use Rattle.snl_output.specs.Devices.{counted};
ghost use Rattle.snl_trace.specs.Ends.{source_failed};
ghost use Rattle.snl_trace.specs.Run.{rules_by};
ghost use Rattle.snc.specs.Answered.{IsAnswered};
ghost use Rattle.snl_views.specs.Answers.{AwaitsOver};
ghost use Rattle.snl_views.specs.Awaits.{Awaits};
ghost use Rattle.snc.specs.Runs.{RunsLike, trace_failures};

use crate::awaited::Awaited;
use crate::preparing::{Prepared, Preparing};
use crate::starting::start_of;
use crate::telling::{ProgramView, start_text};
use snc::{Answered, Status, answer};
use snc_args::Job;
use snl_trace::{End, Source};
use std::alloc::{AllocError, Global};

/// What came of the trace, where the source has no error.
#[derive(Drop)]
pub struct WaitsOutcome {
    /// How the run up to the start ended: `SinkFailed` where the program began, since nothing takes its first byte.
    pub end: End,
    /// What the program waits for, in the order of its links; nothing where it began.
    pub awaited: Vec<Awaited>,
    /// All that as lines of text, with the names of the trace that the program does not have.
    pub text: Vec<u8>,
}

/// What `waits` answers.
#[derive(Drop)]
pub struct Answer<R> {
    /// A line for each message about the source.
    pub messages: Vec<u8>,
    /// None where a message is an error: then the trace was not read.
    pub outcome: Option<WaitsOutcome>,
    /// The trace, read as far as it was.
    pub trace: R,
}

/// The outcome of a program that is loaded, and a trace, which is handed back.
fn outcome_of<R: Source + Drop>(
    alloc: Global,
    source: &[u8],
    prepared: &mut Prepared,
    trace: R,
) -> Result<(WaitsOutcome, R), AllocError>
    requires waiting { (world_held prepared.old.machine).phase ≡ Waiting }
    requires trace { R.failures trace < 2 ^ 64 - 1 }
    requires fresh { R.gave trace ≡ [] }
    ensures ran { IfOk result (λ r. (p : ProgramTree) (ls : List Link) (budget : ℕ) →
        IsMachineOf p ls prepared.old.waits budget prepared.old.machine →
        RunsLike p ls prepared.old.waits budget (world_held prepared.old.machine) (R.gave r.1)
        (R.ended r.1) (Some []) (Some []) r.0.end) }
    ensures named { IfOk result (λ r. (p : ProgramTree) (ls : List Link) (budget : ℕ) →
        IsMachineOf p ls prepared.old.waits budget prepared.old.machine →
        Awaits (rules_by (task_of p ls prepared.old.waits) budget)
        (program_meaning p ls prepared.old.waits) r.0.end (world_held prepared.old.machine)
        (R.gave r.1) (R.ended r.1) r.0.awaited.items) }
    ensures source { IfOk result (λ r. R.failures r.1
        ≡ counted (source_failed r.0.end) (R.failures trace)) }
{
    let (start, trace) = start_of(alloc, &mut prepared.machine, prepared.waits, trace)?;
    let scene = ProgramView {
        source,
        links: prepared.links.as_slice(),
        machine: &prepared.machine,
        waits: prepared.waits,
    };
    let text = start_text(alloc, scene, &start)?;
    let outcome = WaitsOutcome {
        end: start.end,
        awaited: start.awaited,
        text,
    };
    Ok((outcome, trace))
}

/// Reads and checks a program and, if it has no error, says when it begins over a trace of which nothing was read, or what it waits
/// for where the trace ends. The trace is read up to the line at which the program begins, and no further, and handed back.
///
/// `job` has the options, the macros and the budget, as `snlrun` has them. Fails only where memory ran out.
pub fn waits<R: Source + Drop>(
    alloc: Global,
    source: &[u8],
    job: &Job,
    trace: R,
) -> Result<Answer<R>, AllocError>
    requires trace { R.failures trace < 2 ^ 64 - 1 }
    requires fresh { R.gave trace ≡ [] }
    ensures answer { IfOk result (λ a. IsAnswered
        (AwaitsOver (unwrap_or (option_map string_bytes job.now.macros) []) job.now.budget
        (R.gave a.trace) (R.ended a.trace)) job.now.options (string_bytes job.now.file)
        source.now a.messages.items a.outcome) }
    ensures unread { IfOk result (λ a. IfNone a.outcome (a.trace ≡ trace)) }
    ensures source { IfOk result (λ a. R.failures a.trace
        ≡ trace_failures (option_map (λ o. o.end) a.outcome) (R.failures trace)) }
{
    let Answered { messages, made } = answer(alloc, job, source, &Preparing)?;
    let Some(mut prepared) = made else {
        return Ok(Answer {
            messages,
            outcome: None,
            trace,
        });
    };
    let (outcome, trace) = outcome_of(alloc, source, prepared.as_mut(), trace)?;
    Ok(Answer {
        messages,
        outcome: Some(outcome),
        trace,
    })
}

impl<R> Answer<R> {
    /// The status of a call: 0 where the program began, and 1 where it did not; 1 where the source has an error; 6 where a
    /// line of the trace is bad, and 3 where the trace could not be read.
    pub fn status(&self) -> Status {
        match &self.outcome {
            None => Status::SourceErrors,
            Some(outcome) => match outcome.end {
                End::SinkFailed => Status::Well,
                End::TraceFault(_, _) => Status::TraceFault,
                End::SourceFailed => Status::InputOutput,
                End::TraceEnded | End::ProgramEnded | End::Fault(_, _) => Status::SourceErrors,
            },
        }
    }
}
