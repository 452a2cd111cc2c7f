//! A test: a run of its program, beside what is wanted of it.

ghost use Rattle.std.specs.Prelude.{◌≡◌, ◌-◌, ◌^◌, ◌<◌, [], IfSome};

use snc::{Answered, Status};
use snc_cli::Stream;
use snl_cli::{Folder, Halt, Verdict, path_in, small_text, unread, wrong};
use snl_coverage::Runner;
use snl_suite::{Agreement, Day, difference_text, push_visible};
use snl_trace::{End, Source};
use snl_trials::{Nothing, Trial, tried, untried};
use std::alloc::{AllocError, Global};
use std::fs::File;

/// The output that is wanted, as it is read.
pub type Wanted = Stream<File>;

/// The file at a path, of which nothing was read; None where it can't be opened.
pub fn opened(rt: &HostRuntime, path: &str) -> Option<Stream<File>>
    ensures gave { IfSome result (λ stream. stream.input.past.bytes ≡ []) }
    ensures failures { IfSome result (λ stream. stream.failures ≡ 0) }
{
    match File::open(rt, path) {
        Ok(file) => Some(Stream::new(file)),
        Err(_) => None,
    }
}

/// The status that is wanted: 0 where no file has one.
pub fn wanted_status(rt: &HostRuntime, folder: &Folder, day: &Day) -> Result<u8, Halt> {
    if !day.has_status {
        return Ok(0);
    }
    let stem = day.stem.as_str();
    let text = small_text(rt, folder, stem, ".status")?;
    match text.as_str().trim_ascii().parse::<u8>() {
        Ok(status) => Ok(status),
        Err(_) => Err(wrong(format!(in rt.alloc();
            ": {stem}.status has no number from 0 to 255\n"
        ))),
    }
}

/// Runs a program over a trace, beside the output that is wanted; one with an error is not run.
fn tried_over<R: Source>(
    rt: &HostRuntime,
    subject: &mut Answered<Box<Runner>>,
    trace: &mut R,
    file: Wanted,
    wanted: u8,
) -> Result<Trial<Wanted>, AllocError>
    requires trace { R.failures trace.old < 2 ^ 64 - 1 }
    requires fresh { R.gave trace.old ≡ [] }
    requires file { file.failures ≡ 0 }
    requires unread { file.input.past.bytes ≡ [] }
{
    match &mut subject.made {
        Some(runner) => tried(rt.alloc(), runner.as_mut(), trace, file, wanted),
        None => untried(rt.alloc(), file, wanted),
    }
}

/// The same over the trace of a test: the one in its file, or an empty one.
fn trial_of(
    rt: &HostRuntime,
    folder: &Folder,
    day: &Day,
    subject: &mut Answered<Box<Runner>>,
    wanted: u8,
) -> Result<Trial<Wanted>, Halt> {
    let stem = day.stem.as_str();
    let out = path_in(rt.alloc(), folder, stem, ".out")?;
    let Some(file) = opened(rt, out.as_str()) else {
        return Err(unread(rt, stem, ".out"));
    };
    if !day.has_trace {
        return Ok(tried_over(rt, subject, &mut Nothing::new(), file, wanted)?);
    }
    let path = path_in(rt.alloc(), folder, stem, ".trace")?;
    match opened(rt, path.as_str()) {
        Some(mut trace) => Ok(tried_over(rt, subject, &mut trace, file, wanted)?),
        None => Err(unread(rt, stem, ".trace")),
    }
}

/// Adds the lines of a text that are not empty, with two blanks in front, as a person sees them.
pub fn push_lines(out: &mut Vec<u8>, text: &[u8]) -> Result<(), AllocError> {
    for line in text.split(|byte| *byte == b'\n') {
        if !line.is_empty() {
            out.extend_from_slice(b"  ")?;
            push_visible(out, line)?;
            out.push(b'\n')?;
        }
    }
    Ok(())
}

/// Adds why the status is not the one that is wanted.
fn push_cause(
    alloc: Global,
    out: &mut Vec<u8>,
    stem: &str,
    trial: &Trial<Wanted>,
    messages: &[u8],
) -> Result<(), AllocError> {
    match trial.end {
        None => {
            out.extend_from_slice(b": the program has errors\n")?;
            push_lines(out, messages)
        }
        Some(End::TraceFault(number, fault)) => {
            let text = format!(in alloc; ": {stem}.trace:{number}: {fault}\n")?;
            out.extend_from_slice(text.as_bytes())
        }
        Some(End::Fault(_, _)) => out.extend_from_slice(b": the program faulted\n"),
        Some(_) => Ok(out.push(b'\n')?),
    }
}

/// What of a test is not as it is wanted, as lines.
pub fn lines_of(
    alloc: Global,
    stem: &str,
    trial: &Trial<Wanted>,
    wanted: u8,
    messages: &[u8],
) -> Result<Vec<u8>, AllocError> {
    let mut out = Vec::new(alloc);
    if let Some(difference) = trial.comparer.difference() {
        let file = format!(in alloc; "{stem}.out")?;
        let text = difference_text(alloc, file.as_bytes(), difference)?;
        out.extend_from_slice(text.as_slice())?;
    }
    let code = trial.status.code();
    if code != wanted {
        let text = format!(in alloc; "  status {code}, and {wanted} is wanted")?;
        out.extend_from_slice(text.as_bytes())?;
        push_cause(alloc, &mut out, stem, trial, messages)?;
    }
    Ok(out)
}

/// What came of a test that was run.
#[derive(Drop)]
pub struct Outcome {
    /// How the run ended; None where the program has an error.
    pub end: Option<End>,
    /// The status of that.
    pub status: Status,
    /// Whether the output is the wanted one, and the status too.
    pub is_right: bool,
    /// What is not as it is wanted.
    pub lines: Vec<u8>,
}

/// Runs a test; a file that can't be read halts it.
pub fn outcome_of(
    rt: &HostRuntime,
    folder: &Folder,
    day: &Day,
    subject: &mut Answered<Box<Runner>>,
    wanted: u8,
) -> Result<Outcome, Halt> {
    let stem = day.stem.as_str();
    let trial = trial_of(rt, folder, day, subject, wanted)?;
    if trial.agreement == Agreement::Broken {
        return Err(unread(rt, stem, ".out"));
    }
    if trial.end == Some(End::SourceFailed) {
        return Err(unread(rt, stem, ".trace"));
    }
    let messages = subject.messages.as_slice();
    let lines = lines_of(rt.alloc(), stem, &trial, wanted, messages)?;
    Ok(Outcome {
        end: trial.end,
        status: trial.status,
        is_right: trial.is_right,
        lines,
    })
}

/// What comes of an outcome where nothing is written.
pub fn verdict_of(rt: &HostRuntime, outcome: &Outcome) -> Result<Verdict, AllocError> {
    if outcome.is_right {
        return Ok(Verdict::Right);
    }
    let mut text = Vec::new(rt.alloc());
    text.push(b'\n')?;
    text.extend_from_slice(outcome.lines.as_slice())?;
    Ok(Verdict::Wrong(text))
}
