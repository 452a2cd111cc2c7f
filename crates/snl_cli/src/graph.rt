//! `snl graph`: the trace of a call, and the picture.

use crate::asked::Asked;
use crate::count_files::add_files;
use crate::input::Input;
use crate::trace_report::tell_bad_line;
use snc::{Answered, Status, status_of};
use snc_cli::write;
use snl_args::GraphWords;
use snl_coverage::{Runner, graph, runner_of};
use snl_watch::Nowhere;
use std::alloc::AllocError;

/// Writes the picture of a program whose run has a status; whether it tells counts. Answers the status; there is no picture where the
/// trace could not be read.
fn written(
    rt: &HostRuntime,
    runner: &Runner,
    status: Status,
    tells: bool,
) -> Result<Status, AllocError> {
    if status == Status::InputOutput {
        return Ok(status);
    }
    let drawing = graph(rt.alloc(), runner.coverage(), tells)?;
    match write(rt, drawing.text.as_slice()) {
        Ok(()) => Ok(status),
        Err(failed) => Ok(failed),
    }
}

/// Runs the program of a call over the trace on standard input, and draws it. The messages come behind the picture, and what is told of a
/// bad line of the trace comes last.
fn run_and_drawn(
    rt: &HostRuntime,
    asked: Asked,
    messages: &[u8],
    runner: &mut Runner,
) -> Result<Status, Status> {
    let mut trace = Input::new(rt, asked.call.progress, None)?;
    let end = runner.over(rt.alloc(), &mut trace, Nowhere::new())?.end;
    let status = written(rt, runner, status_of(end), true)?;
    asked.tell(rt, messages);
    tell_bad_line(rt, trace.heard(), end);
    Ok(status)
}

/// `snl graph`.
pub fn answered_graph(
    rt: &HostRuntime,
    asked: Asked,
    words: &GraphWords,
) -> Result<Status, Status> {
    let Asked { source, call, .. } = asked;
    let Answered { messages, made } = runner_of(rt.alloc(), source, &call.job)?;
    let messages = messages.as_slice();
    let Some(mut runner) = made else {
        asked.tell(rt, messages);
        return Ok(Status::SourceErrors);
    };
    let runner = runner.as_mut();
    add_files(rt, asked, runner, words.counts.as_slice())?;
    let has_counts = !words.counts.is_empty();
    if words.no_trace || has_counts {
        let status = written(rt, runner, Status::Well, has_counts)?;
        asked.tell(rt, messages);
        return Ok(status);
    }
    run_and_drawn(rt, asked, messages, runner)
}
