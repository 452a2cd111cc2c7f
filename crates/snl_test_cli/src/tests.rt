//! `snl test`: programs beside recorded traces and the outputs that are wanted.

use crate::baseline::blessed;
use crate::nevers::tested_never;
use crate::requirements::{Watching, tested_watch, watching_of};
use crate::trial::{outcome_of, verdict_of, wanted_status};
use snc::{Answered, Status};
use snc_cli::write;
use snl_args::{Call, TestWords};
use snl_cli::{Folder, Halt, Tally, Verdict, folders_of, subject_of, wrong};
use snl_coverage::{Coverage, Runner, gaps_of};
use snl_suite::{Day, Program};
use std::alloc::AllocError;
use std::fs::File;
use std::io::Read;
use std::time::Instant;
use std::{fs, io};

/// How the file of a report begins.
const XML: &[u8] = b"<?xml";

/// Whether a file is a report, or has nothing in it.
fn is_report(rt: &HostRuntime, path: &str) -> io::Result<bool> {
    if fs::metadata(rt, path)?.len() == 0 {
        return Ok(true);
    }
    let mut room = vec![in rt.alloc(); 0u8; XML.len()]?;
    File::open(rt, path)?.read_exact(room.as_mut_slice())?;
    Ok(room.as_slice() == XML)
}

/// Sees that the words of a call go together, and that the file of the report may be written. Where it is not so, standard error tells
/// why.
pub fn check_tests(rt: &HostRuntime, words: &TestWords) -> Result<(), Status> {
    if words.forces && !words.blesses {
        let _ = eprintln!(rt; "error: '--force' goes with '--bless'");
        return Err(Status::Usage);
    }
    let Some(path) = &words.junit else {
        return Ok(());
    };
    let path = path.as_str();
    match fs::metadata(rt, path) {
        Ok(found) if found.is_file() && !is_report(rt, path).unwrap_or(false) => {
            let _ = eprintln!(rt; "error: '--junit {path}' is no XML, and is not written over");
            Err(Status::Usage)
        }
        _ => Ok(()),
    }
}

/// Sees that a test has its files.
fn check_files(rt: &HostRuntime, program: &Program, day: &Day, blesses: bool) -> Result<(), Halt> {
    let stem = day.stem.as_str();
    if !day.has_trace && stem != program.name.as_str() {
        return Err(wrong(format!(in rt.alloc(); ": {stem}.trace is missing\n")));
    }
    if !day.has_out && !blesses {
        return Err(wrong(format!(in rt.alloc(); ": {stem}.out is missing (--bless writes it)\n")));
    }
    Ok(())
}

/// What comes of a test.
fn tested_day(
    rt: &HostRuntime,
    words: &TestWords,
    folder: &Folder,
    program: &Program,
    day: &Day,
    subject: &mut Answered<Box<Runner>>,
) -> Result<Verdict, Halt> {
    check_files(rt, program, day, words.blesses)?;
    let wanted = wanted_status(rt, folder, day)?;
    if !day.has_out {
        return blessed(rt, folder, day, subject, wanted, b"", words.forces);
    }
    let outcome = outcome_of(rt, folder, day, subject, wanted)?;
    if outcome.is_right || !words.blesses {
        return Ok(verdict_of(rt, &outcome)?);
    }
    let lines = outcome.lines.as_slice();
    blessed(rt, folder, day, subject, wanted, lines, words.forces)
}

/// What came of a test that may have been halted, or why the call ends.
fn settled(came: Result<Verdict, Halt>) -> Result<Verdict, Status> {
    match came {
        Ok(verdict) | Err(Halt::Verdict(verdict)) => Ok(verdict),
        Err(Halt::End(status)) => Err(status),
    }
}

/// The line that tells what all runs of a program showed.
fn coverage_line(rt: &HostRuntime, name: &str, coverage: &Coverage) -> Result<String, AllocError> {
    let gaps = gaps_of(rt.alloc(), coverage)?;
    let (clauses, states, channels) = (gaps.clauses, gaps.states, gaps.channels);
    let (taken, all) = (clauses.seen, clauses.all);
    let (entered, every) = (states.seen, states.all);
    let (put, named) = (channels.seen, channels.all);
    format!(in rt.alloc();
        "{name}: {taken} of {all} clauses taken, {entered} of {every} states entered, {put} of {named} channels put\n"
    )
}

/// Tells what all runs of a program showed, where it was run.
fn tell_coverage(
    rt: &HostRuntime,
    folder: &Folder,
    program: &Program,
    subject: &Answered<Box<Runner>>,
) -> Result<(), Status> {
    let Some(runner) = &subject.made else {
        return Ok(());
    };
    if !program.days.iter().any(|day| day.has_out) {
        return Ok(());
    }
    let (front, name) = (folder.front.as_str(), program.name.as_str());
    let name = format!(in rt.alloc(); "{front}{name}")?;
    let line = coverage_line(rt, name.as_str(), runner.coverage())?;
    write(rt, line.as_bytes())
}

/// Runs all tests of a program that can be run.
fn tested_days(
    rt: &HostRuntime,
    words: &TestWords,
    folder: &Folder,
    program: &Program,
    subject: &mut Answered<Box<Runner>>,
    tally: &mut Tally,
) -> Result<(), Status> {
    for day in &program.days {
        let begun = Instant::now(rt).ok();
        let verdict = settled(tested_day(rt, words, folder, program, day, subject))?;
        tally.note(rt, folder, day.stem.as_str(), &verdict, begun)?;
    }
    tell_coverage(rt, folder, program, subject)
}

/// Searches a program for what may not be found, where a file says that.
fn tested_search(
    rt: &HostRuntime,
    call: &Call,
    folder: &Folder,
    program: &Program,
    tally: &mut Tally,
) -> Result<(), Status> {
    if !program.has_never {
        return Ok(());
    }
    let name = format!(in rt.alloc(); "{}.never", program.name)?;
    let begun = Instant::now(rt).ok();
    let verdict = settled(tested_never(rt, call, folder, program))?;
    tally.note(rt, folder, name.as_str(), &verdict, begun)
}

/// Whether a day can be run: it is the program's own, or has a trace.
fn can_run(program: &Program, day: &Day) -> bool {
    day.has_trace || day.stem.as_str() == program.name.as_str()
}

/// Runs all days of a program while its requirement watches.
fn watched_days(
    rt: &HostRuntime,
    watching: &Watching,
    folder: &Folder,
    program: &Program,
    tally: &mut Tally,
) -> Result<(), Status> {
    for day in &program.days {
        if can_run(program, day) {
            let name = format!(in rt.alloc(); "{}.watch", day.stem)?;
            let begun = Instant::now(rt).ok();
            let of = program.name.as_str();
            let verdict = settled(tested_watch(rt, watching, folder, of, day))?;
            tally.note(rt, folder, name.as_str(), &verdict, begun)?;
        }
    }
    Ok(())
}

/// The same, where it has one. Where that can't be read, it is told once.
fn tested_watches(
    rt: &HostRuntime,
    call: &Call,
    folder: &Folder,
    program: &Program,
    tally: &mut Tally,
) -> Result<(), Status> {
    if !program.has_watch {
        return Ok(());
    }
    match watching_of(rt, call, folder, program) {
        Ok(watching) => watched_days(rt, &watching, folder, program, tally),
        Err(halt) => {
            let name = format!(in rt.alloc(); "{}.watch", program.name)?;
            let verdict = settled(Err(halt))?;
            tally.note(rt, folder, name.as_str(), &verdict, None)
        }
    }
}

/// Runs the tests of a program. Where it can't be run, each of them tells why.
fn tested_program(
    rt: &HostRuntime,
    call: &Call,
    words: &TestWords,
    folder: &Folder,
    program: &Program,
    tally: &mut Tally,
) -> Result<(), Status> {
    match subject_of(rt, folder, program, call.job.options) {
        Ok(mut subject) => tested_days(rt, words, folder, program, &mut subject, tally)?,
        Err(halt) => {
            let verdict = settled(Err(halt))?;
            for day in &program.days {
                tally.note(rt, folder, day.stem.as_str(), &verdict, None)?;
            }
        }
    }
    tested_watches(rt, call, folder, program, tally)?;
    tested_search(rt, call, folder, program, tally)
}

/// Tells of a file whose program is missing.
fn tell_orphan(
    rt: &HostRuntime,
    folder: &Folder,
    file: &str,
    tally: &mut Tally,
) -> Result<(), Status> {
    let stem = match file.rsplit_once('.') {
        Some((stem, _)) => stem,
        None => file,
    };
    let halt = wrong(format!(in rt.alloc(); ": there is no program for {file}\n"));
    let verdict = settled(Err(halt))?;
    tally.note(rt, folder, stem, &verdict, None)
}

/// Runs the tests of a folder.
fn tested_folder(
    rt: &HostRuntime,
    call: &Call,
    words: &TestWords,
    folder: &Folder,
    tally: &mut Tally,
) -> Result<(), Status> {
    for program in &folder.suite.programs {
        tested_program(rt, call, words, folder, program, tally)?;
    }
    for file in &folder.suite.orphans {
        tell_orphan(rt, folder, file.as_str(), tally)?;
    }
    Ok(())
}

/// `snl test`.
pub fn answered_test(rt: &HostRuntime, call: &Call, words: &TestWords) -> Result<Status, Status> {
    let folders = folders_of(rt, words)?;
    let mut tally = Tally::new(rt);
    for folder in &folders {
        tested_folder(rt, call, words, folder, &mut tally)?;
    }
    tally.tell_sum(rt)?;
    if let Some(path) = &words.junit {
        tally.write_report(rt, path.as_str())?;
    }
    Ok(tally.status())
}
