//! Files of counts: those that a call reads, and the one that it writes.

use crate::asked::Asked;
use crate::version::VERSION;
use crate::wholes::{check_written, whole_of};
use snc::Status;
use snl_coverage::Runner;
use snl_tallies::{Head, ReadFault, Subject, is_counts, push_tallies, read_counts};
use std::alloc::{AllocError, Global};
use std::fs::File;
use std::io::{Read, Write};
use std::{fs, io};

/// How many bytes of a file are looked at to see whether it is one of counts.
const FRONT: u64 = 64;

/// Adds an option of the language that a call gives.
fn push_option(words: &mut String, letter: &str, given: Option<bool>) -> Result<(), AllocError> {
    let sign = match given {
        Some(true) => "+",
        Some(false) => "-",
        None => return Ok(()),
    };
    words.push_str(sign)?;
    words.push_str(letter)?;
    words.push_str(" ")
}

/// The words of a call that its runs depend on: options of the language, and the budget.
pub fn words_of(alloc: Global, asked: Asked) -> Result<String, AllocError> {
    let job = &asked.call.job;
    let mut words = String::new(alloc);
    push_option(&mut words, "s", job.options.s)?;
    push_option(&mut words, "c", job.options.c)?;
    let budget = format!(in alloc; "{}", job.budget)?;
    words.push_str(budget.as_str())?;
    Ok(words)
}

/// The first line of a file of counts of the program of a call, that depend on some words.
pub fn head_of(alloc: Global, asked: Asked, words: &[u8]) -> Result<Head, AllocError> {
    let macros = match &asked.call.job.macros {
        Some(macros) => macros.as_bytes(),
        None => b"",
    };
    let subject = Subject {
        words,
        macros,
        source: asked.source,
    };
    Head::new(alloc, VERSION.as_bytes(), &subject)
}

/// The first line of the files that tell counts of the program of a call.
fn own_head(alloc: Global, asked: Asked) -> Result<Head, AllocError> {
    let words = words_of(alloc, asked)?;
    head_of(alloc, asked, words.as_bytes())
}

/// Adds the counts in a file, whose first line has to be this one, to those of a program that ran.
fn add_file(rt: &HostRuntime, runner: &mut Runner, head: &Head, path: &str) -> Result<(), Status> {
    let text = whole_of(rt, path)?;
    let tallies = runner.coverage().tallies(rt.alloc())?;
    match read_counts(rt.alloc(), head, tallies.as_slice(), text.as_slice()) {
        Ok(counts) => Ok(runner.add_counts(rt.alloc(), counts.as_slice())?),
        Err(ReadFault::Memory) => Err(Status::Memory),
        Err(fault) => {
            let _ = eprintln!(rt; "snl: {path}: {fault}");
            Err(Status::InputOutput)
        }
    }
}

/// Adds the counts in files to those of the program of a call, which ran. A file of another program, or of another form, is refused:
/// then the user is told.
pub fn add_files(
    rt: &HostRuntime,
    asked: Asked,
    runner: &mut Runner,
    paths: &[String],
) -> Result<(), Status> {
    let head = own_head(rt.alloc(), asked)?;
    for path in paths {
        add_file(rt, runner, &head, path.as_str())?;
    }
    Ok(())
}

/// What a file of counts says of the runs of the program of a call.
fn text_of(rt: &HostRuntime, asked: Asked, runner: &Runner) -> Result<Vec<u8>, AllocError> {
    let alloc = rt.alloc();
    let head = own_head(alloc, asked)?;
    let tallies = runner.coverage().tallies(alloc)?;
    let mut text = Vec::from_slice(alloc, head.line())?;
    push_tallies(&mut text, tallies.as_slice())?;
    Ok(text)
}

/// Whether a path names something that is no plain file, as `/dev/stdout`.
fn is_device(rt: &HostRuntime, path: &str) -> bool {
    match fs::metadata(rt, path) {
        Ok(found) => !found.is_file(),
        Err(_) => false,
    }
}

/// Whether a plain file may be written over: it is empty, or one of counts.
fn is_ours(rt: &HostRuntime, path: &str) -> io::Result<bool> {
    let mut bytes = Vec::new(rt.alloc());
    let mut front = File::open(rt, path)?.take(FRONT);
    front.read_to_end(&mut bytes)?;
    Ok(bytes.is_empty() || is_counts(bytes.as_slice()))
}

/// The file that is written first, and then takes the place of another.
fn part_of(rt: &HostRuntime, path: &str) -> Result<String, AllocError> {
    format!(in rt.alloc(); "{path}.part")
}

/// Sees that a file may be written over, where it is there.
fn check_file(rt: &HostRuntime, path: &str) -> Result<(), Status> {
    if !fs::exists(rt, path).unwrap_or(true) || is_device(rt, path) {
        return Ok(());
    }
    match is_ours(rt, path) {
        Ok(true) => Ok(()),
        Ok(false) | Err(_) => {
            let _ = eprintln!(rt;
                "error: '{path}' is no file that '--counts' wrote, and is not written over"
            );
            Err(Status::Usage)
        }
    }
}

/// Sees that the file of `--counts` may be written, where a call names one. Where it may not, the user is told.
pub fn check_counts(rt: &HostRuntime, path: &Option<String>) -> Result<(), Status> {
    let Some(path) = path else {
        return Ok(());
    };
    let part = part_of(rt, path.as_str())?;
    check_file(rt, path.as_str())?;
    check_file(rt, part.as_str())
}

/// Writes a file, through another one that takes its place at last. What is no plain file is written as it is.
fn write_file(rt: &HostRuntime, path: &str, text: &[u8]) -> io::Result<()> {
    if is_device(rt, path) {
        return fs::write(rt, path, text);
    }
    let part = part_of(rt, path)?;
    let mut file = File::create(rt, part.as_str())?;
    file.write_all(text)?;
    file.sync_all()?;
    fs::rename(rt, part.as_str(), path)
}

/// Writes the counts of the program of a call, which ran, into a file, where the call names one. Where that fails, the user is told.
pub fn write_counts(
    rt: &HostRuntime,
    asked: Asked,
    runner: &Runner,
    path: &Option<String>,
) -> Result<(), Status> {
    let Some(path) = path else {
        return Ok(());
    };
    let text = text_of(rt, asked, runner)?;
    let written = write_file(rt, path.as_str(), text.as_slice());
    check_written(rt, path.as_str(), written)
}
