//! Files that are read or written as a whole, among them lists of paths.

use snc::Status;
use snc_cli::told_unread;
use std::alloc::{AllocError, Global};
use std::fs::File;
use std::io;
use std::io::{ErrorKind, Read};

/// How many bytes such a file has at most.
const MOST: u64 = 268_435_456;

/// The bytes of an input, one more at most than such a file has.
fn read_front<R: Read + Drop>(rt: &HostRuntime, input: R) -> io::Result<Vec<u8>> {
    let mut bytes = Vec::new(rt.alloc());
    let mut front = input.take(MOST + 1);
    front.read_to_end(&mut bytes)?;
    Ok(bytes)
}

/// The bytes of a file; of standard input where its path is `-`.
fn read_path(rt: &HostRuntime, path: &str) -> io::Result<Vec<u8>> {
    if path == "-" {
        return read_front(rt, rt.stdin());
    }
    read_front(rt, File::open(rt, path)?)
}

/// The bytes of a file; of standard input where its path is `-`. Where they cannot be read, or are too many, the user is told.
pub fn whole_of(rt: &HostRuntime, path: &str) -> Result<Vec<u8>, Status> {
    match read_path(rt, path) {
        Ok(bytes) if bytes.len() as u64 > MOST => {
            let _ = eprintln!(rt; "snl: {path} has more than {MOST} bytes");
            Err(Status::InputOutput)
        }
        Ok(bytes) => Ok(bytes),
        Err(fault) if fault.kind() == ErrorKind::OutOfMemory => Err(Status::Memory),
        Err(_) => Err(told_unread(rt, "snl", path)),
    }
}

/// Sees that a file was written. Where it was not, the user is told.
pub fn check_written(rt: &HostRuntime, path: &str, written: io::Result<()>) -> Result<(), Status> {
    if let Err(fault) = written {
        let _ = eprintln!(rt; "snl: cannot write {path}: {fault}");
        return Err(Status::InputOutput);
    }
    Ok(())
}

/// The lines of a text that are not empty.
fn lines_of(alloc: Global, text: &str) -> Result<Vec<String>, AllocError> {
    let mut lines = Vec::new(alloc);
    for line in text.lines() {
        if !line.is_empty() {
            lines.push(String::from_str(alloc, line)?)?;
        }
    }
    Ok(lines)
}

/// The paths that a list names, one a line. Where it names none, the user is told.
fn listed(rt: &HostRuntime, list: &str) -> Result<Vec<String>, Status> {
    let bytes = whole_of(rt, list)?;
    let Ok(text) = str::from_utf8(bytes.as_slice()) else {
        let _ = eprintln!(rt; "snl: {list} is no list of paths: it is no UTF-8 text");
        return Err(Status::InputOutput);
    };
    let lines = lines_of(rt.alloc(), text)?;
    if lines.is_empty() {
        let _ = eprintln!(rt; "snl: note: {list} names no file");
    }
    Ok(lines)
}

/// The paths that a list names, where there is a list.
pub fn paths_in(rt: &HostRuntime, list: &Option<String>) -> Result<Vec<String>, Status> {
    match list {
        Some(list) => listed(rt, list.as_str()),
        None => Ok(Vec::new(rt.alloc())),
    }
}
