//! The files that a check looks at: those that the call names, and of a folder the programs in it.

use crate::check::{SourceJob, answered_check};
use crate::jobs::job_of_file;
use snc::Status;
use snc_cli::source_in;
use snl_args::{Call, CheckWords};
use std::alloc::{AllocError, Global};
use std::{fs, io};

/// Adds the name of a program in a folder: that of a file that ends with `.st`.
fn push_program(
    alloc: Global,
    folder: &str,
    name: &str,
    programs: &mut Vec<String>,
) -> Result<(), AllocError> {
    if name.ends_with(".st") {
        let path = format!(in alloc; "{folder}/{name}")?;
        programs.push(path)?;
    }
    Ok(())
}

/// The programs in a folder, in the order of their names.
fn programs_in(rt: &HostRuntime, folder: &str) -> io::Result<Vec<String>> {
    let mut programs = Vec::new(rt.alloc());
    for entry in fs::read_dir(rt, folder)? {
        let entry = entry?;
        push_program(rt.alloc(), folder, entry.file_name(), &mut programs)?;
    }
    programs.sort_unstable();
    Ok(programs)
}

/// Whether a word names a folder.
fn is_folder(rt: &HostRuntime, path: &str) -> bool {
    match fs::metadata(rt, path) {
        Ok(found) => found.is_dir(),
        Err(_) => false,
    }
}

/// The status that counts of two: memory before files, files before errors.
fn worse(one: Status, other: Status) -> Status {
    if one.code() < other.code() {
        other
    } else {
        one
    }
}

/// Checks the source in a file.
fn checked_source(
    rt: &HostRuntime,
    call: &Call,
    words: &CheckWords,
    file: &str,
) -> Result<Status, Status> {
    let source = source_in(rt, "snl", file)?;
    let job = job_of_file(rt.alloc(), &call.job, file)?;
    let piece = SourceJob {
        source: source.as_slice(),
        job: &job,
    };
    answered_check(rt, piece, words)
}

/// Checks a file.
fn checked_file(rt: &HostRuntime, call: &Call, words: &CheckWords, file: &str) -> Status {
    match checked_source(rt, call, words, file) {
        Ok(status) | Err(status) => status,
    }
}

/// Checks files, one after the other.
fn checked_files(rt: &HostRuntime, call: &Call, words: &CheckWords, files: &[String]) -> Status {
    let mut worst = Status::Well;
    for file in files {
        worst = worse(worst, checked_file(rt, call, words, file.as_str()));
    }
    worst
}

/// Tells that a folder has no program.
fn told_empty(rt: &HostRuntime, folder: &str) -> Status {
    let _ = eprintln!(rt; "snl: no program, FILE.st, can be read in {folder}");
    Status::InputOutput
}

/// Checks the programs in a folder. Where there are none, standard error tells so.
fn checked_folder(rt: &HostRuntime, call: &Call, words: &CheckWords, folder: &str) -> Status {
    match programs_in(rt, folder) {
        Ok(programs) => {
            if programs.is_empty() {
                told_empty(rt, folder)
            } else {
                checked_files(rt, call, words, programs.as_slice())
            }
        }
        Err(_) => told_empty(rt, folder),
    }
}

/// `snl check`: checks each file and the programs of each folder that the call names, in their order. The status is that of the worst.
pub fn answered_checks(rt: &HostRuntime, call: &Call, words: &CheckWords) -> Status {
    let mut worst = Status::Well;
    for file in &words.files {
        let status = if is_folder(rt, file.as_str()) {
            checked_folder(rt, call, words, file.as_str())
        } else {
            checked_file(rt, call, words, file.as_str())
        };
        worst = worse(worst, status);
    }
    worst
}
