//! `snl run`.

use crate::asked::Asked;
use crate::input::Input;
use crate::run_watch::answered_watch;
use crate::trace_report::{status_with, tell_bad_line, units_text};
use snc::{SinkFault, Status};
use snc_cli::{Lines, Outlet, write};
use snl_args::RunWords;
use snl_trace::End;
use snl_views::{RunAnswer, Subject, run_folded, run_whole};
use snl_watch::Nowhere;

/// Writes what looks wrong with the times of the trace, and where its units differ, behind the summary, where all of that was written.
/// Answers whether all is written.
fn ended(
    rt: &HostRuntime,
    end: Option<End>,
    is_whole: bool,
    trace: &Input<'_>,
) -> Result<bool, Status> {
    match end {
        Some(end) if is_whole => {
            let clock = trace.heard().clock_text(rt.alloc(), end, b"# ")?;
            let units = units_text(rt, trace.units(), b"# ")?;
            Ok(write(rt, clock.as_slice()).is_ok() && write(rt, units.as_slice()).is_ok())
        }
        _ => Ok(is_whole),
    }
}

/// Says what is to be said of a run. The messages come behind it, and what is told of a bad line of the trace comes last.
fn told_run<K>(
    rt: &HostRuntime,
    asked: Asked,
    answer: &RunAnswer<Input<'_>, K>,
    finished: Result<(), SinkFault>,
) -> Result<Status, Status> {
    let trace = &answer.trace;
    let is_whole = answer.is_whole && finished.is_ok();
    let is_written = ended(rt, answer.end, is_whole, trace)?;
    asked.tell(rt, answer.messages.as_slice());
    if let Some(end) = answer.end {
        tell_bad_line(rt, trace.heard(), end);
    }
    if is_written {
        Ok(status_with(trace.units(), answer.status()))
    } else {
        Ok(Status::InputOutput)
    }
}

/// `snl run`.
pub fn answered_run<'c>(
    rt: &'c HostRuntime,
    asked: Asked<'c>,
    words: &RunWords,
) -> Result<Status, Status> {
    match &words.watch {
        Some(watch) => answered_watch(rt, asked, watch, words.never.as_slice()),
        None => answered_plain(rt, asked, words.is_whole),
    }
}

/// A run that nobody watches; whether no block of lines is folded.
fn answered_plain<'c>(
    rt: &'c HostRuntime,
    asked: Asked<'c>,
    is_whole: bool,
) -> Result<Status, Status> {
    let Asked {
        source,
        units,
        call,
        ..
    } = asked;
    let subject = Subject { source, units };
    let lines = Lines::new(rt.alloc(), Outlet::new(rt.stdout()))?;
    let trace = Input::new(rt, call.progress, asked.compared())?;
    if is_whole {
        let mut answer = run_whole(rt.alloc(), subject, &call.job, trace, lines)?;
        let finished = answer.sink.finish();
        told_run(rt, asked, &answer, finished)
    } else {
        let nowhere = Nowhere::new();
        let mut answer = run_folded(rt.alloc(), subject, &call.job, trace, lines, nowhere)?;
        let finished = answer.sink.0.finish();
        told_run(rt, asked, &answer, finished)
    }
}
