//! `snl run --watch`: a run that a requirement watches.

ghost use Rattle.std.specs.Prelude.{◌≡◌, []};

use crate::asked::Asked;
use crate::input::Input;
use crate::same::notes_of;
use crate::trace_report::{status_with, tell_bad_line, units_text};
use snc::{Answered, Status};
use snc_args::Job;
use snc_cli::{Lines, Outlet, source_in, tell, write};
use snl_args::Call;
use snl_observer::{ForbiddenState, Observed, Program, observe, program_of};
use std::alloc::AllocError;

/// What came of both sources.
#[derive(Drop)]
pub struct WatchPair {
    /// The program.
    pub run: Answered<Box<Program>>,
    /// The requirement.
    pub watch: Answered<Box<Program>>,
    /// What is noted of the call.
    pub notes: Vec<u8>,
}

/// Reads and checks both sources.
pub fn watch_pair_of(
    rt: &HostRuntime,
    asked: Asked,
    job: &Job,
    watch: &[u8],
) -> Result<WatchPair, AllocError> {
    let Asked { source, call, .. } = asked;
    let notes = notes_of(rt, call, source, watch)?;
    let run = program_of(rt.alloc(), source, &call.job)?;
    let watch = program_of(rt.alloc(), watch, job)?;
    Ok(WatchPair { run, watch, notes })
}

/// Sees that one program can be watched, and that the other can watch. Where that is not so, the user is told.
pub fn check_both(
    rt: &HostRuntime,
    call: &Call,
    job: &Job,
    run: &Program,
    watch: &Program,
) -> Result<(), Status> {
    if let Some(name) = run.reserved() {
        tell(rt, b"error: a channel of ");
        tell(rt, call.job.file.as_bytes());
        tell(rt, b" is called '");
        tell(rt, name);
        tell(
            rt,
            b"': names with put: or state: in front are those that a requirement hears\n",
        );
        return Err(Status::Usage);
    }
    if watch.waits() {
        let file = job.file.as_str();
        let _ = eprintln!(rt;
            "error: {file} waits for its channels: a requirement does not, and says so by 'option -c;'"
        );
        return Err(Status::Usage);
    }
    Ok(())
}

/// The states that must not be, by their names. Where there is no such state, the user is told.
pub fn places_of(
    rt: &HostRuntime,
    job: &Job,
    never: &[String],
    watch: &Program,
) -> Result<Vec<ForbiddenState>, Status> {
    let mut places = Vec::new(rt.alloc());
    for name in never {
        let Some(place) = place_of(watch, name.as_str()) else {
            let file = job.file.as_str();
            let _ = eprintln!(rt;
                "error: '--never {name}' names no state of {file}: it is SS.STATE, a state set and one of its states"
            );
            return Err(Status::Usage);
        };
        places.push(place)?;
    }
    Ok(places)
}

/// The state that a word names, if there is one.
fn place_of(watch: &Program, name: &str) -> Option<ForbiddenState> {
    let (set, state) = name.split_once('.')?;
    watch.place(set.as_bytes(), state.as_bytes())
}

/// Writes what is told behind the lines, where all of them were written. Answers the status.
fn told(
    rt: &HostRuntime,
    trace: &Input<'_>,
    observed: &mut Observed<Lines>,
) -> Result<Status, Status> {
    let end = observed.end();
    if observed.sink.finish().is_err() {
        return Ok(Status::InputOutput);
    }
    let clock = trace.heard().clock_text(rt.alloc(), end, b"# ")?;
    let units = units_text(rt, trace.units(), b"# ")?;
    for text in [&observed.summary, &clock, &units] {
        if write(rt, text.as_slice()).is_err() {
            return Ok(Status::InputOutput);
        }
    }
    Ok(status_with(trace.units(), observed.status()))
}

/// Runs one program over standard input, while the other watches it.
fn observed<'c>(
    rt: &'c HostRuntime,
    asked: Asked<'c>,
    run: &mut Program,
    watch: &mut Program,
    places: Vec<ForbiddenState>,
) -> Result<Status, Status> {
    let lines = Lines::new(rt.alloc(), Outlet::new(rt.stdout()))?;
    let mut trace = Input::new(rt, asked.call.progress, asked.compared())?;
    let mut observed = observe(rt.alloc(), run, watch, places, &mut trace, lines)?;
    let status = told(rt, &trace, &mut observed)?;
    tell_bad_line(rt, trace.heard(), observed.end());
    Ok(status)
}

/// The same of two sources, where neither has an error.
fn watched<'c>(
    rt: &'c HostRuntime,
    asked: Asked<'c>,
    job: &Job,
    never: &[String],
    pair: WatchPair,
) -> Result<Status, Status> {
    let WatchPair { run, watch, notes } = pair;
    tell(rt, notes.as_slice());
    tell(rt, run.messages.as_slice());
    tell(rt, watch.messages.as_slice());
    let (Some(mut run), Some(mut watch)) = (run.made, watch.made) else {
        return Ok(Status::SourceErrors);
    };
    check_both(rt, asked.call, job, run.as_ref(), watch.as_ref())?;
    let places = places_of(rt, job, never, watch.as_ref())?;
    observed(rt, asked, run.as_mut(), watch.as_mut(), places)
}

/// `snl run --watch`: a run of the program that is asked for, watched by the one of a job.
pub fn answered_watch<'c>(
    rt: &'c HostRuntime,
    asked: Asked<'c>,
    job: &Job,
    never: &[String],
) -> Result<Status, Status> {
    let watch = source_in(rt, "snl", job.file.as_str())?;
    let both = watch_pair_of(rt, asked, job, watch.as_slice())?;
    watched(rt, asked, job, never, both)
}
