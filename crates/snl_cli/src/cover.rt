//! `snl cover`: the traces of a call, one after the other, and the answer.

ghost use Rattle.std.specs.Prelude.{◌≡◌, ◌-◌, ◌^◌, ◌<◌, []};

use crate::asked::Asked;
use crate::count_files::{add_files, write_counts};
use crate::input::Input;
use crate::trace_report::bad_line_text;
use crate::traces::TraceFile;
use crate::wholes::paths_in;
use snc::{Answered, Status, status_of};
use snc_cli::{tell, write};
use snl_args::CoverWords;
use snl_coverage::{Coverage, Runner, coverage_text, gaps_of, runner_of};
use snl_trace::{End, Source};
use snl_views::Overheard;
use snl_watch::Nowhere;
use std::alloc::AllocError;

/// How the runs over the traces so far ended.
#[derive(Drop)]
struct Total {
    /// The lines about bad lines of traces.
    bad_lines: Vec<u8>,
    status: Status,
}

/// Which of two statuses counts: the one of the greater rank.
fn rank(status: Status) -> u8 {
    match status {
        Status::InputOutput => 3,
        Status::TraceFault => 2,
        Status::ProgramFault => 1,
        _ => 0,
    }
}

impl Total {
    /// Nothing came yet.
    fn new(rt: &HostRuntime) -> Total {
        Total {
            bad_lines: Vec::new(rt.alloc()),
            status: Status::Well,
        }
    }

    /// Takes in how a run over the trace of a name ended, and how its bad line can be mended.
    fn take(
        &mut self,
        rt: &HostRuntime,
        name: &str,
        end: End,
        heard: &Overheard,
    ) -> Result<(), Status> {
        let status = status_of(end);
        if rank(status) > rank(self.status) {
            self.status = status;
        }
        if let End::TraceFault(number, fault) = end {
            let line = format!(in rt.alloc(); "{name}:{number}: {fault}\n")?;
            self.bad_lines.extend_from_slice(line.as_bytes())?;
            let mended = bad_line_text(rt, heard, end);
            self.bad_lines.extend_from_slice(mended.as_slice())?;
        }
        Ok(())
    }
}

/// Runs a program over a trace; answers how that ended.
fn run_over<R: Source>(rt: &HostRuntime, runner: &mut Runner, trace: &mut R) -> Result<End, Status>
    requires trace { R.failures trace.old < 2 ^ 64 - 1 }
    requires fresh { R.gave trace.old ≡ [] }
{
    Ok(runner.over(rt.alloc(), trace, Nowhere::new())?.end)
}

/// Runs a program over the trace in a file.
fn run_over_file(
    rt: &HostRuntime,
    runner: &mut Runner,
    name: &str,
    total: &mut Total,
) -> Result<(), Status> {
    let mut trace = TraceFile::open(rt, name)?;
    let end = run_over(rt, runner, &mut trace)?;
    total.take(rt, name, end, trace.heard())
}

/// Runs a program over the trace on standard input; whether to tell how far that was read.
fn run_over_input(
    rt: &HostRuntime,
    runner: &mut Runner,
    tells: bool,
    total: &mut Total,
) -> Result<(), Status> {
    let mut trace = Input::new(rt, tells, None)?;
    let end = run_over(rt, runner, &mut trace)?;
    total.take(rt, "trace", end, trace.heard())
}

/// Runs a program over traces in files.
fn run_over_files(
    rt: &HostRuntime,
    runner: &mut Runner,
    names: &[String],
    total: &mut Total,
) -> Result<(), Status> {
    for name in names {
        run_over_file(rt, runner, name.as_str(), total)?;
    }
    Ok(())
}

/// Whether the trace of a call is that on standard input: it names no other, and no counts.
fn reads_input(words: &CoverWords) -> bool {
    words.traces.is_empty()
        && words.trace_list.is_none()
        && words.adds.is_empty()
        && words.add_list.is_none()
}

/// Runs a program over all traces of a call.
fn run_over_all(
    rt: &HostRuntime,
    runner: &mut Runner,
    words: &CoverWords,
    tells: bool,
) -> Result<Total, Status> {
    let mut total = Total::new(rt);
    if reads_input(words) {
        run_over_input(rt, runner, tells, &mut total)?;
    }
    run_over_files(rt, runner, words.traces.as_slice(), &mut total)?;
    let listed = paths_in(rt, &words.trace_list)?;
    run_over_files(rt, runner, listed.as_slice(), &mut total)?;
    Ok(total)
}

/// Adds the counts in the files that a call names.
fn add_all(
    rt: &HostRuntime,
    asked: Asked,
    runner: &mut Runner,
    words: &CoverWords,
) -> Result<(), Status> {
    add_files(rt, asked, runner, words.adds.as_slice())?;
    let listed = paths_in(rt, &words.add_list)?;
    add_files(rt, asked, runner, listed.as_slice())
}

/// Writes what was missed; answers the status of that: whether less was taken than the call asks.
fn write_answer(
    rt: &HostRuntime,
    coverage: &Coverage,
    fail_under: u32,
) -> Result<Status, AllocError> {
    let gaps = gaps_of(rt.alloc(), coverage)?;
    let text = coverage_text(rt.alloc(), coverage, &gaps)?;
    match write(rt, text.as_slice()) {
        Err(status) => Ok(status),
        Ok(()) if gaps.is_below(fail_under) => Ok(Status::SourceErrors),
        Ok(()) => Ok(Status::Well),
    }
}

/// Writes the counts of a call where it asks for them, and then what was missed; answers the status of that. Where the counts cannot be
/// written, the answer is.
fn write_all(
    rt: &HostRuntime,
    asked: Asked,
    runner: &Runner,
    words: &CoverWords,
) -> Result<Status, Status> {
    let counted = write_counts(rt, asked, runner, &words.counts);
    if let Err(Status::Memory) = counted {
        return Err(Status::Memory);
    }
    let answered = write_answer(rt, runner.coverage(), words.fail_under)?;
    match counted {
        Ok(()) => Ok(answered),
        Err(status) => Ok(status),
    }
}

/// Tells what came of all traces, once an answer was written or not. The messages come behind it, and what is told of bad lines of
/// traces comes last.
fn told(
    rt: &HostRuntime,
    asked: Asked,
    messages: &[u8],
    answered: Status,
    total: &Total,
) -> Status {
    asked.tell(rt, messages);
    tell(rt, total.bad_lines.as_slice());
    if total.status == Status::Well || answered == Status::InputOutput {
        answered
    } else {
        total.status
    }
}

/// `snl cover`.
pub fn answered_cover(
    rt: &HostRuntime,
    asked: Asked,
    words: &CoverWords,
) -> Result<Status, Status> {
    let Asked { source, call, .. } = asked;
    let Answered { messages, made } = runner_of(rt.alloc(), source, &call.job)?;
    let messages = messages.as_slice();
    let Some(mut runner) = made else {
        asked.tell(rt, messages);
        return Ok(Status::SourceErrors);
    };
    add_all(rt, asked, runner.as_mut(), words)?;
    let total = run_over_all(rt, runner.as_mut(), words, call.progress)?;
    let answered = match total.status {
        Status::InputOutput => Status::Well,
        _ => write_all(rt, asked, runner.as_ref(), words)?,
    };
    Ok(told(rt, asked, messages, answered, &total))
}
