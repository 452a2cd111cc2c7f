//! What stands behind a run: how it ended, where the state sets stand, and counts.

use crate::awaited::awaited_of;
use crate::bad_lines::without_bad_line;
use crate::starting::StartOutcome;
use crate::telling::{ProgramView, start_text};
use snl_output::{push_all, push_counted, push_told};
use snl_trace::End;
use snl_watch::{HeardTrace, Notes, Standing, Zero, line_number};
use std::alloc::{AllocError, Global};

/// A time in milliseconds of a run whose trace may tell the date of 0 ms.
#[derive(Clone, Copy)]
struct Time {
    ms: u64,
    zero: Zero,
}

/// Adds a time in milliseconds and, where it is known, the time of day.
fn push_time(out: &mut Vec<u8>, time: Time) -> Result<(), AllocError> {
    let beside = time.zero.beside(time.ms);
    push_told(out, b"", time.ms, beside.as_slice())
}

/// Adds how a run ended, the time then, and the line of the trace.
fn push_end(out: &mut Vec<u8>, what: &[u8], time: Time, line: u64) -> Result<(), AllocError> {
    push_all(out, &[b"# ", what, b" at "])?;
    push_time(out, time)?;
    push_told(out, b", line ", line, b"\n")
}

/// The line of the trace at which a run ended. Several lines are given to it at once, and it may end at one of them; where they
/// ran out, it is the last.
fn line_of(notes: &Notes, end: End) -> u64 {
    match end {
        End::ProgramEnded | End::Fault(_, _) => notes.line_at_work(),
        End::TraceEnded | End::TraceFault(_, _) | End::SourceFailed | End::SinkFailed => {
            notes.lines()
        }
    }
}

/// Adds which line of the trace is bad.
fn push_bad_line(out: &mut Vec<u8>, number: u128) -> Result<(), AllocError> {
    push_told(out, b"# bad line ", line_number(number), b"\n")
}

/// Adds how a run ended.
fn push_how(out: &mut Vec<u8>, end: End, time: Time, line: u64) -> Result<(), AllocError> {
    match end {
        End::TraceEnded => push_end(out, b"end of the trace", time, line),
        End::ProgramEnded => push_end(out, b"the program ended", time, line),
        End::Fault(_, _) => push_end(out, b"fault", time, line),
        End::TraceFault(number, _) => push_bad_line(out, number),
        End::SourceFailed => push_end(out, b"the trace could not be read on", time, line),
        End::SinkFailed => Ok(()),
    }
}

/// Adds lines, each with `# ` in front.
fn push_noted(out: &mut Vec<u8>, text: &[u8]) -> Result<(), AllocError> {
    let mut begins = true;
    for byte in text {
        if begins {
            out.extend_from_slice(b"# ")?;
        }
        out.push(*byte)?;
        begins = *byte == b'\n';
    }
    Ok(())
}

/// Adds where each state set stands.
fn push_sets(notes: &Notes, out: &mut Vec<u8>, zero: Zero) -> Result<(), AllocError> {
    let legend = notes.legend();
    let count = legend.sets.len() as u64;
    for (number, standing) in notes.standing().sets().iter().enumerate() {
        let Some(set) = legend.sets.get(number) else {
            return Ok(());
        };
        let Some(state) = set.states.get(standing.state) else {
            return Ok(());
        };
        push_all(out, &[b"# ", set.name.as_slice()])?;
        push_all(out, &[b" in ", state.name.as_slice()])?;
        let since = Time {
            ms: standing.since,
            zero,
        };
        push_since(out, since, number as u64, count)?;
    }
    Ok(())
}

/// Adds since when a state set stands where it does, and which of them it is.
fn push_since(out: &mut Vec<u8>, since: Time, number: u64, count: u64) -> Result<(), AllocError> {
    out.extend_from_slice(b" since ")?;
    push_time(out, since)?;
    push_told(out, b" (", number.saturating_add(1), b" of ")?;
    push_counted(out, b"", count, b"state set")?;
    out.extend_from_slice(b")\n")
}

/// Adds what the program waits for, where it never began.
fn push_waits(
    alloc: Global,
    out: &mut Vec<u8>,
    scene: ProgramView,
    end: End,
    heard: HeardTrace,
) -> Result<(), AllocError> {
    let awaited = awaited_of(alloc, scene.machine, scene.waits)?;
    let start = StartOutcome {
        end,
        awaited,
        heard: without_bad_line(heard, end),
    };
    let text = start_text(alloc, scene, &start)?;
    push_noted(out, text.as_slice())
}

/// How many lines were printed. One that is neither of the start, of a transition nor of a put is such a line, but for that which
/// says how the program ended.
fn prints_of(standing: &Standing, end: End) -> u64 {
    match end {
        End::ProgramEnded | End::Fault(_, _) => standing.others().saturating_sub(1),
        End::TraceEnded | End::TraceFault(_, _) | End::SourceFailed | End::SinkFailed => {
            standing.others()
        }
    }
}

/// Adds how much has happened.
fn push_counts(out: &mut Vec<u8>, standing: &Standing, end: End) -> Result<(), AllocError> {
    push_counted(out, b"# ", standing.transitions(), b"transition")?;
    push_counted(out, b", ", standing.puts(), b"put")?;
    push_told(out, b", ", standing.refused(), b" refused")?;
    push_counted(out, b", ", prints_of(standing, end), b"print")?;
    out.extend_from_slice(b"\n")
}

/// Adds how a run ended, and where.
fn push_ending(
    notes: &Notes,
    out: &mut Vec<u8>,
    scene: ProgramView,
    end: End,
    zero: Zero,
) -> Result<(), AllocError> {
    let ms = scene.machine.time();
    push_how(out, end, Time { ms, zero }, line_of(notes, end))
}

/// Adds where the state sets stand or, where the program never began, what it waits for.
fn push_standing(
    alloc: Global,
    notes: &Notes,
    out: &mut Vec<u8>,
    scene: ProgramView,
    end: End,
    heard: HeardTrace,
) -> Result<(), AllocError> {
    if notes.standing().has_begun() {
        push_sets(notes, out, heard.zero())
    } else if end != End::SinkFailed {
        push_waits(alloc, out, scene, end, heard)
    } else {
        Ok(())
    }
}

/// The summary of a run, each line with `# ` in front. Fails only where memory ran out.
pub(crate) fn summary_of(
    alloc: Global,
    notes: &Notes,
    scene: ProgramView,
    end: End,
    heard: HeardTrace,
) -> Result<Vec<u8>, AllocError> {
    let mut out = Vec::new(alloc);
    push_ending(notes, &mut out, scene, end, heard.zero())?;
    push_standing(alloc, notes, &mut out, scene, end, heard)?;
    push_counts(&mut out, notes.standing(), end)?;
    Ok(out)
}
