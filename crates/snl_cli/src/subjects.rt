//! A program that is tested: its file, the words of its call, and what is said of it.

use crate::suites::Folder;
use crate::verdicts::{Halt, stuck, wrong};
use snc::{Answered, Job, Options, Status, Tool, WordsFault, read_words};
use snc_cli::source_of;
use snl_coverage::{Runner, runner_of};
use snl_suite::Program;
use std::alloc::{AllocError, Global};
use std::fs::File;
use std::io::{self, ErrorKind, Read};

/// How many bytes count of a file beside a program: one of words, or one with a status.
const SMALL: u64 = 65_536;

/// The path of a file of a folder.
pub fn path_in(
    alloc: Global,
    folder: &Folder,
    stem: &str,
    ending: &str,
) -> Result<String, AllocError> {
    let front = folder.front.as_str();
    format!(in alloc; "{front}{stem}{ending}")
}

/// The text of a small file.
fn read_small(rt: &HostRuntime, path: &str) -> io::Result<String> {
    let mut bytes = Vec::new(rt.alloc());
    let mut front = File::open(rt, path)?.take(SMALL);
    front.read_to_end(&mut bytes)?;
    match str::from_utf8(bytes.as_slice()) {
        Ok(text) => Ok(String::from_str(rt.alloc(), text)?),
        Err(_) => Err(io::Error::from(ErrorKind::InvalidData)),
    }
}

/// The text of a small file of a folder.
pub fn small_text(
    rt: &HostRuntime,
    folder: &Folder,
    stem: &str,
    ending: &str,
) -> Result<String, Halt> {
    let path = path_in(rt.alloc(), folder, stem, ending)?;
    match read_small(rt, path.as_str()) {
        Ok(text) => Ok(text),
        Err(fault) if fault.kind() == ErrorKind::OutOfMemory => Err(Halt::End(Status::Memory)),
        Err(fault) => Err(stuck(format!(in rt.alloc(); ": cannot read {stem}{ending}: {fault}\n"))),
    }
}

/// The words of a call: a file, and the lines of a text.
fn words_in(alloc: Global, text: &str) -> Result<Vec<String>, AllocError> {
    let mut words = Vec::new(alloc);
    words.push(String::from_str(alloc, "p.st")?)?;
    for line in text.lines() {
        if !line.is_empty() {
            words.push(String::from_str(alloc, line)?)?;
        }
    }
    Ok(words)
}

/// A test is wrong by the words in its file.
fn wrong_words(alloc: Global, name: &str, fault: &WordsFault) -> Halt {
    match fault {
        WordsFault::BadOption(sign, letter) => wrong(format!(in alloc;
            ": {name}.args: option '{sign}{letter}' is not supported\n"
        )),
        WordsFault::Usage(text) | WordsFault::Help(text) => {
            let line = text.as_str().lines().next().unwrap_or("");
            wrong(format!(in alloc; ": {name}.args: {line}\n"))
        }
        WordsFault::Memory => Halt::End(Status::Memory),
    }
}

/// Sees that the macros of a job are some.
fn check_macros(alloc: Global, name: &str, job: &Job) -> Result<(), Halt> {
    match &job.macros {
        Some(macros) if !macros.is_empty() && !macros.contains('=') => {
            Err(wrong(format!(in alloc;
                ": {name}.args: '{macros}' stands in the place of MACROS, which are NAME=VALUE,..\n"
            )))
        }
        _ => Ok(()),
    }
}

/// The job of a program whose words stand in a text.
fn job_in(alloc: Global, name: &str, text: &str) -> Result<Job, Halt> {
    let words = words_in(alloc, text)?;
    match read_words(alloc, Tool::Snlrun, words.as_slice()) {
        Ok(job) => {
            check_macros(alloc, name, &job)?;
            Ok(job)
        }
        Err(fault) => Err(wrong_words(alloc, name, &fault)),
    }
}

/// The letters of the options of a test, and those of the call where it has none.
fn both(own: Options, call: Options) -> Options {
    Options {
        s: own.s.or(call.s),
        c: own.c.or(call.c),
        u: own.u.or(call.u),
        w: own.w.or(call.w),
    }
}

/// The job of a program, by the words in its file, where it has one.
pub fn job_of(
    rt: &HostRuntime,
    folder: &Folder,
    program: &Program,
    options: Options,
) -> Result<Job, Halt> {
    let name = program.name.as_str();
    let text = if program.has_args {
        small_text(rt, folder, name, ".args")?
    } else {
        String::new(rt.alloc())
    };
    let mut job = job_in(rt.alloc(), name, text.as_str())?;
    job.options = both(job.options, options);
    job.file = path_in(rt.alloc(), folder, name, ".st")?;
    Ok(job)
}

/// A file of a test can't be read.
pub fn unread(rt: &HostRuntime, stem: &str, ending: &str) -> Halt {
    stuck(format!(in rt.alloc(); ": cannot read {stem}{ending}\n"))
}

/// The source in a file of a test.
pub fn program_source(
    rt: &HostRuntime,
    path: &str,
    name: &str,
    ending: &str,
) -> Result<Vec<u8>, Halt> {
    match source_of(rt, "snl", path) {
        Ok(source) => Ok(source),
        Err(Status::InputOutput) => Err(unread(rt, name, ending)),
        Err(status) => Err(Halt::End(status)),
    }
}

/// Reads and checks a program that is tested, with the options of the call.
pub fn subject_of(
    rt: &HostRuntime,
    folder: &Folder,
    program: &Program,
    options: Options,
) -> Result<Answered<Box<Runner>>, Halt> {
    let job = job_of(rt, folder, program, options)?;
    let source = program_source(rt, job.file.as_str(), program.name.as_str(), ".st")?;
    Ok(runner_of(rt.alloc(), source.as_slice(), &job)?)
}
