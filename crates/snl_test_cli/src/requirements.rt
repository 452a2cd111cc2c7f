//! A requirement that watches the days of a program: the tests of `NAME.watch.st`.

ghost use Rattle.std.specs.Prelude.{◌≡◌, ◌-◌, ◌^◌, ◌<◌, []};

use crate::nevers::wrong_source;
use crate::trial::{opened, push_lines};
use snc::{Answered, Job, Status};
use snl_args::Call;
use snl_cli::{
    Folder, Halt, Verdict, job_of, path_in, program_source, small_text, unread, wrong, wrong_bytes,
};
use snl_observer::{Close, ForbiddenState, Observed, Program as Watcher, observe, program_of};
use snl_suite::{Day, Program, push_visible, states_in};
use snl_trace::{End, Source};
use snl_trials::Nothing;
use snl_watch::Nowhere;
use std::alloc::{AllocError, Global};

/// A program and its requirement, as their files have them.
#[derive(Drop)]
pub struct Watching {
    /// What the program is run with.
    job: Job,
    source: Vec<u8>,
    /// What the requirement is run with.
    watch_job: Job,
    watch: Vec<u8>,
    /// The text of the file with the states that must not be.
    never: String,
}

/// The text of the file with the states that must not be; an empty one where there is no such file.
fn never_text(rt: &HostRuntime, folder: &Folder, program: &Program) -> Result<String, Halt> {
    if program.has_watch_never {
        return small_text(rt, folder, program.name.as_str(), ".watch.never");
    }
    Ok(String::new(rt.alloc()))
}

/// A program and its requirement. The words of the program's call stand for both.
pub fn watching_of(
    rt: &HostRuntime,
    call: &Call,
    folder: &Folder,
    program: &Program,
) -> Result<Watching, Halt> {
    let name = program.name.as_str();
    let job = job_of(rt, folder, program, call.job.options)?;
    let mut watch_job = job_of(rt, folder, program, call.job.options)?;
    watch_job.file = path_in(rt.alloc(), folder, name, ".watch.st")?;
    Ok(Watching {
        source: program_source(rt, job.file.as_str(), name, ".st")?,
        watch: program_source(rt, watch_job.file.as_str(), name, ".watch.st")?,
        never: never_text(rt, folder, program)?,
        job,
        watch_job,
    })
}

/// Both programs, made ready. Where one has an error, the test is wrong.
fn both_in(alloc: Global, watching: &Watching) -> Result<(Box<Watcher>, Box<Watcher>), Halt> {
    let Answered { messages, made } = program_of(alloc, watching.source.as_slice(), &watching.job)?;
    let Some(run) = made else {
        return Err(wrong_source(alloc, "the program", messages.as_slice())?);
    };
    let watch = program_of(alloc, watching.watch.as_slice(), &watching.watch_job)?;
    let Answered { messages, made } = watch;
    match made {
        Some(watch) => Ok((run, watch)),
        None => Err(wrong_source(alloc, "the requirement", messages.as_slice())?),
    }
}

/// A test is wrong since a channel of the program has a name of those that a requirement hears.
fn wrong_channel(alloc: Global, name: &[u8]) -> Result<Halt, AllocError> {
    let mut text = Vec::new(alloc);
    text.extend_from_slice(b": a channel of the program is called '")?;
    push_visible(&mut text, name)?;
    text.extend_from_slice(
        b"': names with put: or state: in front are those that a requirement hears\n",
    )?;
    Ok(wrong_bytes(text))
}

/// Sees that one program can be watched, and that the other can watch.
fn check_pair(alloc: Global, run: &Watcher, watch: &Watcher) -> Result<(), Halt> {
    if let Some(name) = run.reserved() {
        return Err(wrong_channel(alloc, name)?);
    }
    if watch.waits() {
        return Err(wrong(String::from_str(
            alloc,
            ": the requirement waits for its channels: it does not, and says so by 'option -c;'\n",
        )));
    }
    Ok(())
}

/// The state that a word names, if there is one.
fn place_of(watch: &Watcher, name: &str) -> Option<ForbiddenState> {
    let (set, state) = name.split_once('.')?;
    watch.place(set.as_bytes(), state.as_bytes())
}

/// The states that must not be.
fn places_in(
    alloc: Global,
    name: &str,
    text: &str,
    watch: &Watcher,
) -> Result<Vec<ForbiddenState>, Halt> {
    let mut places = Vec::new(alloc);
    for state in states_in(alloc, text)? {
        match place_of(watch, state) {
            Some(place) => places.push(place).map_err(|_| AllocError)?,
            None => {
                return Err(wrong(format!(in alloc;
                    ": {name}.watch.never: '{state}' is no state of the requirement: it is SS.STATE\n"
                )));
            }
        }
    }
    Ok(places)
}

/// Runs a program over a trace, while the other watches it.
fn observed_over<R: Source>(
    alloc: Global,
    run: &mut Watcher,
    watch: &mut Watcher,
    places: Vec<ForbiddenState>,
    trace: &mut R,
) -> Result<Observed<Nowhere>, AllocError>
    requires trace { R.failures trace.old < 2 ^ 64 - 1 }
    requires fresh { R.gave trace.old ≡ [] }
{
    observe(alloc, run, watch, places, trace, Nowhere::new())
}

/// The same over the trace of a test: the one in its file, or an empty one.
fn observed_day(
    rt: &HostRuntime,
    folder: &Folder,
    day: &Day,
    run: &mut Watcher,
    watch: &mut Watcher,
    places: Vec<ForbiddenState>,
) -> Result<Observed<Nowhere>, Halt> {
    if !day.has_trace {
        let alloc = rt.alloc();
        return Ok(observed_over(alloc, run, watch, places, &mut Nothing::new())?);
    }
    let stem = day.stem.as_str();
    let path = path_in(rt.alloc(), folder, stem, ".trace")?;
    match opened(rt, path.as_str()) {
        Some(mut trace) => Ok(observed_over(rt.alloc(), run, watch, places, &mut trace)?),
        None => Err(unread(rt, stem, ".trace")),
    }
}

/// What is told of a requirement that is broken, or that makes a mistake.
fn broken(alloc: Global, summary: &[u8]) -> Result<Verdict, AllocError> {
    let mut text = Vec::new(alloc);
    text.push(b'\n')?;
    for line in summary.split(|byte| *byte == b'\n') {
        push_lines(&mut text, line.strip_prefix(b"# ").unwrap_or(line))?;
    }
    Ok(Verdict::Wrong(text))
}

/// What comes of a run that was watched.
fn verdict_of(rt: &HostRuntime, stem: &str, observed: &Observed<Nowhere>) -> Result<Verdict, Halt> {
    match observed.close {
        Close::Run(End::SourceFailed) => Err(unread(rt, stem, ".trace")),
        Close::Run(_) => Ok(Verdict::Right),
        Close::Memory => Err(Halt::End(Status::Memory)),
        Close::Watch(_) | Close::Never(_) => Ok(broken(rt.alloc(), observed.summary.as_slice())?),
    }
}

/// What comes of a day of a program that a requirement watches. It is right where the requirement makes no mistake, and comes into no state
/// that must not be.
pub fn tested_watch(
    rt: &HostRuntime,
    watching: &Watching,
    folder: &Folder,
    name: &str,
    day: &Day,
) -> Result<Verdict, Halt> {
    let (mut run, mut watch) = both_in(rt.alloc(), watching)?;
    check_pair(rt.alloc(), run.as_ref(), watch.as_ref())?;
    let places = places_in(rt.alloc(), name, watching.never.as_str(), watch.as_ref())?;
    let observed = observed_day(rt, folder, day, run.as_mut(), watch.as_mut(), places)?;
    verdict_of(rt, day.stem.as_str(), &observed)
}
