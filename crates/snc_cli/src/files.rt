//! Reads FILE.

use snc::Status;
use snl_text::SOURCE_LIMIT;
use std::fs::File;
use std::io::{ErrorKind, Read};

/// The bytes of a file; of one that is longer than a source may be, just enough to show that.
///
/// `InputOutput` where it cannot be read, whatever the cause: then standard error has `PROGRAM: cannot read FILE`.
/// `Memory` where memory ran out.
pub fn source_of(rt: &HostRuntime, program: &str, path: &str) -> Result<Vec<u8>, Status> {
    let bytes = bytes_of(rt, path);
    if let Err(Status::InputOutput) = &bytes {
        told_unread(rt, program, path);
    }
    bytes
}

/// Tells that a file cannot be read, as `PROGRAM: cannot read FILE`; answers the status.
pub fn told_unread(rt: &HostRuntime, program: &str, path: &str) -> Status {
    let _ = eprintln!(rt; "{program}: cannot read {path}");
    Status::InputOutput
}

/// A file that is read piece by piece. Where it cannot be opened, the user is told.
pub fn opened(rt: &HostRuntime, program: &str, path: &str) -> Result<File, Status> {
    match File::open(rt, path) {
        Ok(file) => Ok(file),
        Err(fault) if fault.kind() == ErrorKind::OutOfMemory => Err(Status::Memory),
        Err(_) => Err(told_unread(rt, program, path)),
    }
}

/// The same, where `-` stands for standard input: that is read to its end then, or as far as a source may go.
pub fn source_in(rt: &HostRuntime, program: &str, path: &str) -> Result<Vec<u8>, Status> {
    if path != "-" {
        return source_of(rt, program, path);
    }
    let bytes = front_of(rt, rt.stdin());
    if let Err(Status::InputOutput) = &bytes {
        told_unread(rt, program, "standard input");
    }
    bytes
}

/// The bytes of a file, no more than are looked at.
fn bytes_of(rt: &HostRuntime, path: &str) -> Result<Vec<u8>, Status> {
    match File::open(rt, path) {
        Ok(file) => front_of(rt, file),
        Err(_) => Err(Status::InputOutput),
    }
}

/// All bytes, no more than are looked at.
fn front_of<R: Read + Drop>(rt: &HostRuntime, input: R) -> Result<Vec<u8>, Status> {
    let mut bytes = Vec::new(rt.alloc());
    let mut front = input.take(SOURCE_LIMIT as u64 + 1);
    match front.read_to_end(&mut bytes) {
        Ok(_) => Ok(bytes),
        Err(fault) if fault.kind() == ErrorKind::OutOfMemory => Err(Status::Memory),
        Err(_) => Err(Status::InputOutput),
    }
}
