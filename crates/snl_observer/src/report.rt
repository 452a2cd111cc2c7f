//! What is told of a run that was watched: how it ended, and where the requirement stands.

use crate::closes::{Close, Ending};
use crate::current_states::{At, Standing, ms_of};
use crate::trail::Trail;
use snl_outline::SetOutline;
use snl_output::{push_all, push_told};
use snl_trace::End;
use std::alloc::{AllocError, Global};

/// What is known of a run that was watched.
#[derive(Clone, Copy)]
pub(crate) struct WatchedRun<'t> {
    pub(crate) close: Close,
    /// The time of the program.
    pub(crate) time: u64,
    /// The number of the last line of the trace that was done, from 1; 0 where none was.
    pub(crate) number: u64,
    pub(crate) standing: &'t Standing,
    pub(crate) trail: &'t Trail,
}

/// Adds at which line of the trace something was.
fn push_line(
    out: &mut Vec<u8>,
    told: WatchedRun,
    front: &[u8],
    behind: &[u8],
) -> Result<(), AllocError> {
    push_told(out, front, told.number, b" of the trace")?;
    push_all(out, &[behind, b"\n"])
}

/// Adds how the run of the program ended.
fn push_end(out: &mut Vec<u8>, told: WatchedRun, end: End) -> Result<(), AllocError> {
    let what: &[u8] = match end {
        End::TraceEnded => b"# end of the trace at ",
        End::ProgramEnded => b"# the program ended at ",
        End::Fault(_, _) => b"# fault at ",
        End::TraceFault(number, _) => {
            let number = u64::try_from(number).unwrap_or(u64::MAX);
            return push_told(out, b"# bad line ", number, b"\n");
        }
        End::SourceFailed | End::SinkFailed => {
            return out.extend_from_slice(b"# the trace could not be read on\n");
        }
    };
    push_told(out, what, told.time, b"")?;
    push_told(out, b", line ", told.number, b"\n")
}

/// Adds the last lines of the program.
fn push_last(out: &mut Vec<u8>, trail: &Trail) -> Result<(), AllocError> {
    if trail.lines()[2].is_empty() {
        return out.extend_from_slice(b"# the program has written nothing yet\n");
    }
    out.extend_from_slice(b"# the last lines of the program:\n")?;
    for line in trail.lines() {
        if !line.is_empty() {
            push_all(out, &[b"#   ", line, b"\n"])?;
        }
    }
    Ok(())
}

/// Adds that a state came to be that must not.
fn push_never(
    out: &mut Vec<u8>,
    told: WatchedRun,
    set: &SetOutline,
    at: At,
) -> Result<(), AllocError> {
    let name = match set.states.get(at.state) {
        Some(state) => state.name.as_slice(),
        None => b"",
    };
    push_all(out, &[b"# never: ", set.name.as_slice(), b" is in ", name])?;
    push_told(out, b" at ", at.since, b", ")?;
    let front: &[u8] = if at.since < ms_of(told.trail.at()) {
        b"before line "
    } else {
        b"line "
    };
    push_told(out, front, told.number, b" of the trace: ")?;
    push_all(out, &[told.trail.at(), b"\n"])?;
    push_last(out, told.trail)
}

/// Adds which of the states that must not be came to be.
fn push_hit(out: &mut Vec<u8>, told: WatchedRun, never: usize) -> Result<(), AllocError> {
    let Some(place) = told.standing.place(never) else {
        return Ok(());
    };
    match (told.standing.sets().get(place.set), told.standing.hit_at()) {
        (Some(set), Some(since)) => {
            let state = place.state;
            push_never(out, told, set, At { state, since })
        }
        _ => Ok(()),
    }
}

/// Adds which mistake the requirement made.
fn push_mistake(
    alloc: Global,
    out: &mut Vec<u8>,
    told: WatchedRun,
    end: Ending,
) -> Result<(), AllocError> {
    match end {
        Ending::Faulted(fault, line) => {
            let text = format!(in alloc; "{fault}")?;
            push_told(
                out,
                b"# mistake of the requirement: its line ",
                line as u64,
                b" faults: ",
            )?;
            push_all(out, &[text.as_bytes()])?;
        }
        Ending::Refused(fault) => {
            let text = format!(in alloc; "{fault}")?;
            let line = told.trail.refused();
            push_all(
                out,
                &[
                    b"# mistake of the requirement: it can't take '",
                    line,
                    b"': ",
                    text.as_bytes(),
                ],
            )?;
        }
        Ending::Exited | Ending::Stopped => {}
    }
    push_line(out, told, b" (line ", b")")
}

/// Adds where a state set of the requirement stands.
fn push_set(out: &mut Vec<u8>, standing: &Standing, number: usize) -> Result<(), AllocError> {
    let (Some(set), Some(at)) = (standing.sets().get(number), standing.at(number)) else {
        return Ok(());
    };
    let name = match set.states.get(at.state) {
        Some(state) => state.name.as_slice(),
        None => b"",
    };
    push_all(
        out,
        &[b"# requirement ", set.name.as_slice(), b" in ", name],
    )?;
    push_told(out, b" since ", at.since, b" (")?;
    let count = standing.sets().len() as u64;
    let plural: &[u8] = if count == 1 { b"" } else { b"s" };
    push_told(out, b"", (number as u64).saturating_add(1), b" of ")?;
    push_told(out, b"", count, b" state set")?;
    push_all(out, &[plural, b")\n"])
}

/// Adds where the requirement stands.
fn push_standing(out: &mut Vec<u8>, standing: &Standing) -> Result<(), AllocError> {
    if !standing.has_begun() {
        return out.extend_from_slice(b"# requirement never began: no event\n");
    }
    for number in 0..standing.sets().len() {
        push_set(out, standing, number)?;
    }
    if standing.has_ended() {
        out.extend_from_slice(b"# requirement exited\n")?;
    }
    Ok(())
}

/// What is told of a run that was watched, as lines that begin with `#`; where memory ended, nothing. The only error is that memory ends,
/// or was refused for one of its last lines.
pub(crate) fn summary_of(alloc: Global, told: WatchedRun) -> Result<Vec<u8>, AllocError> {
    if told.trail.ran_out() {
        return Err(AllocError);
    }
    let mut out = Vec::new(alloc);
    match told.close {
        Close::Run(end) => push_end(&mut out, told, end)?,
        Close::Never(never) => push_hit(&mut out, told, never)?,
        Close::Watch(end) => push_mistake(alloc, &mut out, told, end)?,
        Close::Memory => return Ok(out),
    }
    push_standing(&mut out, told.standing)?;
    Ok(out)
}
