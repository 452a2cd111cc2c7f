//! `snl test --bless`: what came is written as what is wanted, through a new file that takes the place of the old one at last.

ghost use Rattle.std.specs.Prelude.{◌≡◌, ◌-◌, ◌^◌, ◌<◌, []};

use crate::trial::opened;
use snc::{Answered, Status, status_of};
use snl_cli::{Folder, Halt, Verdict, path_in, stuck, unread, wrong};
use snl_coverage::{Covered, Runner};
use snl_suite::{Day, Written};
use snl_trace::{End, Source};
use snl_trials::Nothing;
use std::alloc::AllocError;
use std::fs::File;
use std::io::{BufWriter, ErrorKind, Write};
use std::{fs, io};

/// How many bytes of output are held back at most.
const HELD: usize = 65_536;

/// Runs a program over a trace into a file; one with an error writes nothing. Answers how the run ended.
fn run_into<R: Source>(
    rt: &HostRuntime,
    subject: &mut Answered<Box<Runner>>,
    trace: &mut R,
    file: File,
) -> io::Result<Option<End>>
    requires trace { R.failures trace.old < 2 ^ 64 - 1 }
    requires fresh { R.gave trace.old ≡ [] }
{
    let Some(runner) = &mut subject.made else {
        return Ok(None);
    };
    let writer = BufWriter::with_capacity(rt.alloc(), HELD, file)?;
    let ran = runner
        .as_mut()
        .over(rt.alloc(), trace, Written::new(writer))?;
    let Covered { end, mut sink } = ran;
    sink.finish()?;
    sink.writer().sync_all()?;
    Ok(Some(end))
}

/// Runs a program over the trace of a test into a new file.
fn run_to(
    rt: &HostRuntime,
    trace: Option<&str>,
    subject: &mut Answered<Box<Runner>>,
    path: &str,
) -> io::Result<Option<End>> {
    let file = File::create_new(rt, path)?;
    let Some(trace) = trace else {
        return run_into(rt, subject, &mut Nothing::new(), file);
    };
    match opened(rt, trace) {
        Some(mut trace) => run_into(rt, subject, &mut trace, file),
        None => Ok(Some(End::SourceFailed)),
    }
}

/// A file can't be written.
fn unwritten(rt: &HostRuntime, stem: &str, ending: &str, fault: &io::Error) -> Halt {
    if fault.kind() == ErrorKind::OutOfMemory {
        return Halt::End(Status::Memory);
    }
    stuck(if fault.kind() == ErrorKind::AlreadyExists {
        format!(in rt.alloc(); ": cannot write {stem}{ending}: {stem}{ending}.new is in the way\n")
    } else {
        format!(in rt.alloc(); ": cannot write {stem}{ending}: {fault}\n")
    })
}

/// Puts a new file in the place of an old one, whose permissions it gets.
fn put(rt: &HostRuntime, new: &str, old: &str) -> io::Result<()> {
    if let Ok(found) = fs::metadata(rt, old) {
        let _ = fs::set_permissions(rt, new, found.permissions());
    }
    fs::rename(rt, new, old)
}

/// Writes a status through a new file.
fn write_status(rt: &HostRuntime, new: &str, old: &str, code: u8) -> io::Result<()> {
    let text = format!(in rt.alloc(); "{code}\n")?;
    let mut file = File::create_new(rt, new)?;
    file.write_all(text.as_bytes())?;
    file.sync_all()?;
    put(rt, new, old)
}

/// Why what came is not written without `--force`, where it is so.
fn refusal_of(rt: &HostRuntime, stem: &str, end: Option<End>) -> Result<Option<Halt>, AllocError> {
    let cause = match end {
        None => format!(in rt.alloc(); "the program has errors")?,
        Some(End::Fault(_, _)) => format!(in rt.alloc(); "the run faults")?,
        Some(End::TraceFault(number, fault)) => format!(in rt.alloc();
            "{stem}.trace:{number}: {fault}"
        )?,
        Some(_) => return Ok(None),
    };
    Ok(Some(wrong(format!(in rt.alloc(); ": {cause} (--bless --force writes that)\n"))))
}

/// The status of a run that ended so, or of a program with an error.
fn code_of(end: Option<End>) -> u8 {
    match end {
        Some(end) => status_of(end).code(),
        None => Status::SourceErrors.code(),
    }
}

/// Writes the output of a test into a new file, and sees that it may be the wanted one. Answers how the run ended.
fn run_new(
    rt: &HostRuntime,
    folder: &Folder,
    day: &Day,
    subject: &mut Answered<Box<Runner>>,
    new: &str,
    forces: bool,
) -> Result<Option<End>, Halt> {
    let stem = day.stem.as_str();
    let path = path_in(rt.alloc(), folder, stem, ".trace")?;
    let trace = if day.has_trace {
        Some(path.as_str())
    } else {
        None
    };
    match run_to(rt, trace, subject, new) {
        Ok(Some(End::SourceFailed)) => Err(unread(rt, stem, ".trace")),
        Ok(end) if forces => Ok(end),
        Ok(end) => match refusal_of(rt, stem, end)? {
            Some(halt) => Err(halt),
            None => Ok(end),
        },
        Err(fault) => Err(unwritten(rt, stem, ".out", &fault)),
    }
}

/// Writes the status of a test, where it is not the one that is wanted.
fn bless_status(
    rt: &HostRuntime,
    folder: &Folder,
    stem: &str,
    code: u8,
    wanted: u8,
) -> Result<(), Halt> {
    if code == wanted {
        return Ok(());
    }
    let old = path_in(rt.alloc(), folder, stem, ".status")?;
    let new = path_in(rt.alloc(), folder, stem, ".status.new")?;
    match write_status(rt, new.as_str(), old.as_str(), code) {
        Ok(()) => Ok(()),
        Err(fault) => {
            if fault.kind() != ErrorKind::AlreadyExists {
                let _ = fs::remove_file(rt, new.as_str());
            }
            Err(unwritten(rt, stem, ".status", &fault))
        }
    }
}

/// Writes the output of a test, through a new file; where that can't be done, the old one is as it was.
fn bless_output(
    rt: &HostRuntime,
    folder: &Folder,
    day: &Day,
    subject: &mut Answered<Box<Runner>>,
    forces: bool,
) -> Result<Option<End>, Halt> {
    let stem = day.stem.as_str();
    let old = path_in(rt.alloc(), folder, stem, ".out")?;
    let new = path_in(rt.alloc(), folder, stem, ".out.new")?;
    let new = new.as_str();
    if fs::exists(rt, new).unwrap_or(false) {
        let fault = io::Error::from(ErrorKind::AlreadyExists);
        return Err(unwritten(rt, stem, ".out", &fault));
    }
    let ran = run_new(rt, folder, day, subject, new, forces);
    if ran.is_err() {
        let _ = fs::remove_file(rt, new);
        return ran;
    }
    match put(rt, new, old.as_str()) {
        Ok(()) => ran,
        Err(fault) => {
            let _ = fs::remove_file(rt, new);
            Err(unwritten(rt, stem, ".out", &fault))
        }
    }
}

/// Writes what comes of a test as what is wanted of it. `lines` tell what was not as it was wanted.
pub fn blessed(
    rt: &HostRuntime,
    folder: &Folder,
    day: &Day,
    subject: &mut Answered<Box<Runner>>,
    wanted: u8,
    lines: &[u8],
    forces: bool,
) -> Result<Verdict, Halt> {
    let end = bless_output(rt, folder, day, subject, forces)?;
    bless_status(rt, folder, day.stem.as_str(), code_of(end), wanted)?;
    let mut text = Vec::new(rt.alloc());
    if day.has_out {
        text.extend_from_slice(b"\n")?;
        text.extend_from_slice(lines)?;
    } else {
        text.extend_from_slice(b", which was missing\n")?;
    }
    Ok(Verdict::Written(text))
}
