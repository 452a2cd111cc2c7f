//! A run up to the start of a program.

ghost use Rattle.std.specs.Prelude.{◌≡◌, ◌-◌, ◌^◌, ◌<◌, ℕ, Bool, List, [], Some, IfOk};
ghost use Rattle.snl_syntax.specs.Programs.{ProgramTree};
ghost use Rattle.snl_channels.specs.Links.{Link};
ghost use Rattle.snl_load.specs.Meaning.{program_meaning};
ghost use Rattle.snl_meaning.specs.declared.live.Live.TheVariants.{Waiting};
ghost use Rattle.snl_machine.specs.MachineOf.{IsMachineOf, StaysMachineOf, task_held, task_of, world_held};
ghost use Rattle.snl_output.specs.Devices.{counted};
ghost use Rattle.snl_trace.specs.Ends.{source_failed};
ghost use Rattle.snl_trace.specs.Run.{rules_by};
ghost use Rattle.snl_views.specs.Awaits.{Awaits, awaited_in, left_in};
ghost use Rattle.snc.specs.Runs.{EndsAt, RunsLike};

use crate::awaited::{Awaited, awaited_of};
use crate::bad_lines::without_bad_line;
use indexmap::IndexSet;
use snl_machine::Machine;
use snl_trace::{End, Source, run};
use snl_watch::{ByLine, HeardTrace, Listener, Refuser};
use std::alloc::{AllocError, Global};

/// What came of a run up to the start of its program.
#[derive(Drop)]
pub(crate) struct StartOutcome {
    /// How it ended: `SinkFailed` where the program began, since the sink refuses its first byte.
    pub end: End,
    /// What the program waits for; nothing where it began.
    pub awaited: Vec<Awaited>,
    /// What was heard of the trace.
    pub heard: HeardTrace,
}

/// The names of a machine's channels, by their numbers.
pub(crate) fn names_of(alloc: Global, machine: &Machine) -> Result<IndexSet<Vec<u8>>, AllocError> {
    let mut names = IndexSet::new(alloc);
    for number in 0..usize::MAX {
        let Some(name) = machine.channel_name(number) else {
            return Ok(names);
        };
        names.insert(Vec::from_slice(alloc, name)?)?;
    }
    Ok(names)
}

/// What a machine's program waits for, unless it began.
fn left_of(
    alloc: Global,
    machine: &Machine,
    waits: bool,
    end: End,
) -> Result<Vec<Awaited>, AllocError>
    ensures { IfOk result (λ list. list.items ≡ left_in end
        (awaited_in waits (task_held machine.now).program.links (world_held machine.now))) }
{
    match end {
        End::SinkFailed => Ok(Vec::new(alloc)),
        _ => awaited_of(alloc, machine, waits),
    }
}

/// How a run ended that could write nothing, what was heard of its trace, and the trace.
#[derive(Drop)]
struct MutedRun<R> {
    end: End,
    heard: HeardTrace,
    trace: R,
}

/// Runs a machine over a trace, line by line, up to the first byte that it writes. Fails only where memory ran out.
fn heard_of<R: Source + Drop>(
    alloc: Global,
    machine: &mut Machine,
    trace: R,
) -> Result<MutedRun<R>, AllocError>
    requires trace { R.failures trace < 2 ^ 64 - 1 }
    requires fresh { R.gave trace ≡ [] }
    ensures stays { IfOk result (λ _. StaysMachineOf machine.old machine.new) }
    ensures means { IfOk result (λ ran. (p : ProgramTree) (ls : List Link) (waits : Bool)
        (budget : ℕ) → IsMachineOf p ls waits budget machine.old →
        EndsAt p ls waits budget (world_held machine.old) (R.gave ran.trace)
        (R.ended ran.trace) (Some []) (Some []) ran.end (world_held machine.new)) }
    ensures source { IfOk result (λ ran. R.failures ran.trace
        ≡ counted (source_failed ran.end) (R.failures trace)) }
{
    let names = names_of(alloc, machine)?;
    let heard = HeardTrace::new(alloc, names)?;
    let lines = ByLine::new(alloc, trace)?;
    let mut listener = Listener::new(lines, heard);
    let mut refuser = Refuser::new();
    let end = run(machine, &mut listener, &mut refuser);
    let (lines, heard) = listener.into_parts();
    let trace = lines.into_inner();
    if heard.ran_out() {
        return Err(AllocError);
    }
    Ok(MutedRun { end, heard, trace })
}

/// Runs a machine that has not started over a trace, up to the line at which its program begins, or to the end of the trace.
///
/// The trace is read line by line, and no more of it is asked for than is needed: where the program began, the last line that
/// was heard is the one at which it did. It is handed back. Fails only where memory ran out.
pub(crate) fn start_of<R: Source + Drop>(
    alloc: Global,
    machine: &mut Machine,
    waits: bool,
    trace: R,
) -> Result<(StartOutcome, R), AllocError>
    requires waiting { (world_held machine.old).phase ≡ Waiting }
    requires trace { R.failures trace < 2 ^ 64 - 1 }
    requires fresh { R.gave trace ≡ [] }
    ensures ran { IfOk result (λ r. (p : ProgramTree) (ls : List Link) (budget : ℕ) →
        IsMachineOf p ls waits budget machine.old → RunsLike p ls waits budget
        (world_held machine.old) (R.gave r.1) (R.ended r.1) (Some []) (Some []) r.0.end) }
    ensures named { IfOk result (λ r. (p : ProgramTree) (ls : List Link) (budget : ℕ) →
        IsMachineOf p ls waits budget machine.old → Awaits (rules_by (task_of p ls waits) budget)
        (program_meaning p ls waits) r.0.end (world_held machine.old) (R.gave r.1)
        (R.ended r.1) r.0.awaited.items) }
    ensures source { IfOk result (λ r. R.failures r.1
        ≡ counted (source_failed r.0.end) (R.failures trace)) }
{
    let ran = heard_of(alloc, machine, trace)?;
    let awaited = left_of(alloc, machine, waits, ran.end)?;
    let start = StartOutcome {
        end: ran.end,
        awaited,
        heard: without_bad_line(ran.heard, ran.end),
    };
    Ok((start, ran.trace))
}
