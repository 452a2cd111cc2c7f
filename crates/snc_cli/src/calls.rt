//! The words of a call, and what is said to who made it.

use crate::output::Outlet;
use snc::{Job, Status, Tool, WordsFault, read_words};
use std::env;
use std::io::{ErrorKind, Write};

/// What the words of this call ask for. Where they ask for nothing that can be done, the user is told why, and the answer
/// is the status: `Well` behind help, `Usage` behind words that are no call, `InputOutput` where help could not be
/// written, `Memory` where memory ran out.
pub fn job_of(rt: &HostRuntime, tool: Tool) -> Result<Job, Status> {
    let words = words_of(rt)?;
    match read_words(rt.alloc(), tool, words.as_slice()) {
        Ok(job) => Ok(job),
        Err(fault) => Err(told(rt, &fault)),
    }
}

/// The words behind the program's own name. One that is not UTF-8 can't stand in messages: then the user is told so, and the
/// answer is `Usage`. `Memory` where memory ran out.
pub fn words_of(rt: &HostRuntime) -> Result<Vec<String>, Status> {
    let mut given = match env::args(rt) {
        Ok(given) => given,
        Err(fault) if fault.kind() == ErrorKind::OutOfMemory => return Err(Status::Memory),
        Err(_) => {
            tell(rt, b"error: the words of a call have to be UTF-8 text\n");
            return Err(Status::Usage);
        }
    };
    let _program = given.next();
    Ok(given.collect(rt.alloc())?)
}

/// Tells the user what is wrong with the words, or the help that was asked for.
fn told(rt: &HostRuntime, fault: &WordsFault) -> Status {
    match fault {
        WordsFault::BadOption(_, _) => {
            let _ = eprintln!(rt; "{fault}");
            Status::Usage
        }
        WordsFault::Usage(text) => {
            tell(rt, text.as_bytes());
            Status::Usage
        }
        WordsFault::Help(text) => match write(rt, text.as_bytes()) {
            Ok(()) => Status::Well,
            Err(status) => status,
        },
        WordsFault::Memory => Status::Memory,
    }
}

/// Writes text to standard output, and waits until it is there. An empty text leaves standard output untouched.
///
/// `InputOutput` where standard output fails.
pub fn write(rt: &HostRuntime, text: &[u8]) -> Result<(), Status> {
    Outlet::new(rt.stdout())
        .write_out(text)
        .map_err(|_| Status::InputOutput)
}

/// Writes text to standard error. Where that fails, there is nobody left to tell, and the status says how it ended.
pub fn tell(rt: &HostRuntime, text: &[u8]) {
    let _ = rt.stderr().write_all(text);
}
