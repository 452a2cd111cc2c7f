//! The moments of a program, as a text.

ghost use Rattle.std.specs.Prelude.{◌≡◌, ◌-◌, ◌^◌, ◌<◌, [], All, IfOk, IfSome, is_none};
ghost use Rattle.snl_machine.specs.MachineOf.{world_held};
ghost use Rattle.snl_moments.specs.Loaded.{IsUntold};
ghost use Rattle.snl_moments.specs.Plans.{AreFrom, AreTold, kinds, times_of};
ghost use Rattle.snl_moments.specs.Tells.{AreMoments};
ghost use Rattle.snl_moments.specs.Walks.{HasRoom, MeansAs};
ghost use Rattle.snl_output.specs.Devices.{counted};
ghost use Rattle.snl_trace.specs.Run.{Rules};

use crate::channels::{push_channels, push_puts, push_queues};
use crate::loader::Scene;
use crate::names::Legend;
use crate::states::{push_flags, push_states, push_variables};
use crate::waits::push_waits;
use snl_machine::Live;
use snl_moments::{Asked, Close, Kind, Moment, RunHistory, moments};
use snl_output::{fault_text, push_all, push_told};
use snl_trace::{End, Source};
use snl_vm::Store;
use std::alloc::{AllocError, Global};

/// What came of a trace.
#[derive(Drop)]
pub struct Answer {
    /// What is told, as lines.
    pub text: Vec<u8>,
    /// How the walk along the trace ended; None where the trace could not be read on.
    pub close: Option<Close>,
    /// Whether something was told.
    pub is_told: bool,
}

/// Adds behind which line of the trace a moment of a time stands, and the time of that line, where it is another one.
fn push_behind(
    out: &mut Vec<u8>,
    heard: &RunHistory,
    ms: u64,
    is_last: bool,
) -> Result<(), AllocError> {
    let Some(last) = heard.last else {
        return out.extend_from_slice(b", before the first event\n");
    };
    if is_last && last.ms < ms {
        push_told(out, b", behind the end of the trace, line ", last.line, b"")?;
    } else {
        push_told(out, b", behind line ", last.line, b" of the trace")?;
    }
    if last.ms != ms {
        push_told(out, b", at ", last.ms, b"")?;
    }
    out.extend_from_slice(b"\n")
}

/// Adds at which line of the trace something happened at a time, or that a wake came in front of a line, or behind it.
fn push_where(out: &mut Vec<u8>, heard: &RunHistory, ms: u64) -> Result<(), AllocError> {
    let Some(last) = heard.last else {
        return out.extend_from_slice(b"\n");
    };
    let front: &[u8] = if last.ms == ms {
        b", line "
    } else if ms < last.ms {
        b", a wake in front of line "
    } else {
        b", a wake behind line "
    };
    push_told(out, front, last.line, b" of the trace\n")
}

/// Adds how far a program has come that does not run.
fn push_phase(
    out: &mut Vec<u8>,
    legend: &Legend,
    store: &Store,
    end: Option<End>,
) -> Result<(), AllocError> {
    match (store.phase, end) {
        (Live::Waiting, _) => {
            out.extend_from_slice(b"not begun\n")?;
            push_waits(out, legend, store)
        }
        (Live::Running, _) => Ok(()),
        (Live::Ended, Some(End::Fault(fault, line))) => {
            push_told(out, b"fault at ", store.time, b": ")?;
            push_all(out, &[fault_text(fault)])?;
            push_told(out, b" (line ", line as u64, b")\n")
        }
        (Live::Ended, _) => push_told(out, b"ended at ", store.time, b"\n"),
    }
}

/// When the clauses of a moment are looked at; None where the program does not run.
fn runs_at(moment: &Moment) -> Option<u64> {
    match (moment.store.phase, moment.kind) {
        (Live::Running, Kind::At(ms)) => Some(ms),
        (Live::Running, _) => Some(moment.store.time),
        _ => None,
    }
}

/// Adds what a program is at a moment, behind its first line.
fn push_world<'s>(
    alloc: Global,
    out: &mut Vec<u8>,
    legend: &'s Legend,
    moment: &'s Moment,
    end: Option<End>,
) -> Result<(), AllocError> {
    let Moment { store, heard, .. } = moment;
    push_phase(out, legend, store, end)?;
    if store.phase != Live::Waiting {
        push_states(alloc, out, legend, store, heard, runs_at(moment))?;
    }
    push_variables(alloc, out, legend, store)?;
    push_flags(out, legend, store)?;
    push_queues(alloc, out, legend, store)?;
    push_channels(out, legend, store, heard)?;
    push_puts(out, legend, store, heard)
}

/// Adds the first line of a moment. `is_last`: whether nothing of the trace follows behind it.
fn push_head(out: &mut Vec<u8>, moment: &Moment, is_last: bool) -> Result<(), AllocError> {
    let heard = &moment.heard;
    let time = moment.store.time;
    match moment.kind {
        Kind::At(ms) => {
            push_told(out, b"at ", ms, b"")?;
            push_behind(out, heard, ms, is_last)
        }
        Kind::Before(ms) => {
            let bad = b" is not reached: a line of the trace is bad";
            push_told(out, b"at ", ms, bad)?;
            push_behind(out, heard, ms, false)
        }
        Kind::Trip => {
            push_told(out, b"trip at ", time, b"")?;
            push_where(out, heard, time)
        }
        Kind::Into => {
            push_told(out, b"into the state at ", time, b"")?;
            push_where(out, heard, time)
        }
    }
}

/// How a run ended, where that is how a walk closed.
fn end_of(close: Option<Close>) -> Option<End> {
    match close {
        Some(Close::Ended(end)) => Some(end),
        Some(Close::Told | Close::Over) => None,
        None => Some(End::SourceFailed),
    }
}

/// Whether nothing of the trace follows behind a moment.
fn is_last(scene: &Scene, moment: &Moment, close: Option<Close>) -> bool {
    close == Some(Close::Over) && moment.heard.last == scene.subject.heard().last
}

/// Adds a moment.
fn push_moment<'s>(
    alloc: Global,
    out: &mut Vec<u8>,
    scene: &'s Scene,
    moment: &'s Moment,
    close: Option<Close>,
) -> Result<(), AllocError> {
    push_head(out, moment, is_last(scene, moment, close))?;
    push_world(alloc, out, &scene.legend, moment, end_of(close))
}

/// Adds that nothing was found, and how far the trace went.
fn push_none(out: &mut Vec<u8>, scene: &Scene, asked: Asked<'_>) -> Result<(), AllocError> {
    match asked {
        Asked::Times(_) => return Ok(()),
        Asked::Trip => out.extend_from_slice(b"no fault")?,
        Asked::Into(set, state) => {
            out.extend_from_slice(b"no transition into ")?;
            push_place(out, &scene.legend, set, state)?;
        }
    }
    match scene.subject.heard().last {
        Some(last) => {
            push_told(out, b" up to ", scene.subject.time(), b"")?;
            push_told(out, b", line ", last.line, b" of the trace\n")
        }
        None => out.extend_from_slice(b": no event\n"),
    }
}

/// Adds the name of a state, with its state set.
fn push_place(
    out: &mut Vec<u8>,
    legend: &Legend,
    set: usize,
    state: usize,
) -> Result<(), AllocError> {
    let Some(set) = legend.sets.get(set) else {
        return Ok(());
    };
    match set.states.get(state) {
        Some(state) => push_all(out, &[set.name.as_slice(), b".", state.name.as_slice()]),
        None => Ok(()),
    }
}

/// The text of all moments of a scene. The only error is that memory ends.
fn text_of(
    alloc: Global,
    scene: &Scene,
    asked: Asked<'_>,
    close: Option<Close>,
) -> Result<Vec<u8>, AllocError> {
    let mut out = Vec::new(alloc);
    for (number, moment) in scene.subject.moments().iter().enumerate() {
        if number > 0 {
            out.push(b'\n')?;
        }
        push_moment(alloc, &mut out, scene, moment, close)?;
    }
    if scene.subject.moments().is_empty() {
        push_none(&mut out, scene, asked)?;
    }
    Ok(out)
}

/// Runs a program over a trace of which nothing was read, and tells what it is at the moments that are asked for. No more of the trace is
/// read than is needed. The only error is that memory ends.
pub fn tell_moments<R: Source>(
    alloc: Global,
    scene: &mut Scene,
    asked: Asked<'_>,
    trace: &mut R,
) -> Result<Answer, AllocError>
    requires trace { R.failures trace.old < 2 ^ 64 - 1 }
    requires fresh { R.gave trace.old ≡ [] }
    requires untold { IsUntold scene.old.subject.value }
    ensures told { IfOk result (λ answer. IfSome (times_of asked.entry) (λ times.
        AreTold times answer.close (kinds scene.new.subject.value.moments.items))) }
    ensures source { IfOk result (λ answer. R.failures trace.new
        ≡ counted (is_none answer.close) (R.failures trace.old)) }
    ensures are { IfOk result (λ _. (r : Rules) → MeansAs r scene.old.subject.value.machine →
        All (HasRoom (world_held scene.old.subject.value.machine))
        scene.old.subject.value.spares.items → IfSome (times_of asked.entry)
        (AreFrom (world_held scene.old.subject.value.machine).time) →
        AreMoments r (world_held scene.old.subject.value.machine) (R.gave trace.new)
        (R.ended trace.new) scene.new.subject.value.moments.items) }
{
    let close = moments(alloc, scene.subject.as_mut(), asked, trace)?;
    let text = text_of(alloc, scene, asked, close)?;
    let is_told = !scene.subject.moments().is_empty();
    Ok(Answer {
        text,
        close,
        is_told,
    })
}
