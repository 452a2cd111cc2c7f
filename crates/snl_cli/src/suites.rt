//! The folders that `snl test` looks into, and what is tested there.

use snc::Status;
use snl_args::TestWords;
use snl_suite::{Program, Suite, suite_of};
use std::alloc::{AllocError, Global};
use std::io::ErrorKind;
use std::{fs, io};

/// What is tested in a folder.
#[derive(Drop)]
pub struct Folder {
    /// What stands in front of the names of its files: nothing, or a path that ends in `/`.
    pub front: String,
    /// What is tested there.
    pub suite: Suite,
}

/// The names of the files in a folder, in their order. One that is no text can't be told, and is none of a test.
fn names_in(rt: &HostRuntime, folder: &str) -> io::Result<Vec<String>> {
    let mut names = Vec::new(rt.alloc());
    for entry in fs::read_dir(rt, folder)? {
        match entry {
            Ok(entry) => names.push(String::from_str(rt.alloc(), entry.file_name())?)?,
            Err(fault) if fault.kind() == ErrorKind::InvalidFilename => {}
            Err(fault) => return Err(fault),
        }
    }
    names.sort_unstable();
    Ok(names)
}

/// What stands in front of the names of a folder's files.
fn front_of(alloc: Global, folder: &str) -> Result<String, AllocError> {
    if folder == "." {
        return Ok(String::new(alloc));
    }
    if folder.ends_with('/') {
        return String::from_str(alloc, folder);
    }
    format!(in alloc; "{folder}/")
}

/// The names of the files in a folder; where it can't be read, the user is told.
fn told_names(rt: &HostRuntime, folder: &str) -> Result<Vec<String>, Status> {
    match names_in(rt, folder) {
        Ok(names) => Ok(names),
        Err(fault) if fault.kind() == ErrorKind::OutOfMemory => Err(Status::Memory),
        Err(fault) => {
            let _ = eprintln!(rt; "snl: cannot read {folder}: {fault}");
            Err(Status::InputOutput)
        }
    }
}

/// What is tested in a folder.
fn folder_at(rt: &HostRuntime, folder: &str) -> Result<Folder, Status> {
    let names = told_names(rt, folder)?;
    let suite = suite_of(rt.alloc(), names.as_slice())?;
    let front = front_of(rt.alloc(), folder)?;
    Ok(Folder { front, suite })
}

/// Of what is tested in a folder one program.
fn only(alloc: Global, suite: Suite, name: &str) -> Result<Suite, AllocError> {
    let mut programs: Vec<Program> = Vec::new(alloc);
    for program in suite.programs.into_iter() {
        if program.name.as_str() == name {
            programs.push(program)?;
        }
    }
    Ok(Suite {
        programs,
        orphans: Vec::new(alloc),
    })
}

/// What is tested of the program in a file, whose name is NAME.st: the traces beside it count.
fn program_at(rt: &HostRuntime, path: &str) -> Result<Option<Folder>, Status> {
    let (folder, file) = match path.rsplit_once('/') {
        Some(("", file)) => ("/", file),
        Some((folder, file)) => (folder, file),
        None => (".", path),
    };
    let Some(name) = file.strip_suffix(".st") else {
        return Ok(None);
    };
    let Folder { front, suite } = folder_at(rt, folder)?;
    let suite = only(rt.alloc(), suite, name)?;
    Ok(Some(Folder { front, suite }))
}

/// What is tested at a path; None where there is nothing to test.
fn found_at(rt: &HostRuntime, path: &str) -> Result<Option<Folder>, Status> {
    match fs::metadata(rt, path) {
        Ok(found) if found.is_dir() => Ok(Some(folder_at(rt, path)?)),
        Ok(_) => program_at(rt, path),
        Err(fault) => {
            let _ = eprintln!(rt; "snl: cannot read {path}: {fault}");
            Err(Status::InputOutput)
        }
    }
}

/// Whether a folder has a test, or a trace whose program is missing.
fn has_test(folder: &Folder) -> bool {
    !folder.suite.programs.is_empty() || !folder.suite.orphans.is_empty()
}

/// What is tested at a path. Where there is nothing, the user is told.
fn folder_of(rt: &HostRuntime, path: &str) -> Result<Folder, Status> {
    match found_at(rt, path)? {
        Some(folder) if has_test(&folder) => Ok(folder),
        _ => {
            let _ = eprintln!(rt; "error: no test in {path}");
            Err(Status::Usage)
        }
    }
}

/// What is tested at the paths of a call, before anything is run.
pub fn folders_of(rt: &HostRuntime, words: &TestWords) -> Result<Vec<Folder>, Status> {
    let mut folders = Vec::new(rt.alloc());
    for path in &words.paths {
        let folder = folder_of(rt, path.as_str())?;
        folders.push(folder)?;
    }
    Ok(folders)
}
