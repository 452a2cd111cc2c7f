//! The files that a search writes. None of them takes the place of a file that somebody else made, or of one that the call reads.

use crate::wholes::check_written;
use snc::Status;
use snl_args::{Call, SearchWords};
use std::alloc::{AllocError, Global};
use std::fs::File;
use std::io::Read;
use std::os::unix::fs::MetadataExt;
use std::{fs, io};

/// The first line of each trace that is written.
const FIRST: &[u8] = b"# written by snl search\n";

/// Why a file is not written over.
#[derive(Clone, Copy)]
enum Guard {
    /// It is the program.
    Program,
    /// It is the recorded trace.
    Like,
    /// It is the day in which the search starts.
    After,
    /// Its first line is not that of a trace that is written here.
    Foreign,
}

/// What stands in the text for the user.
fn text_of(guard: Guard) -> &'static str {
    match guard {
        Guard::Program => "is the program",
        Guard::Like => "is the trace of --like",
        Guard::After => "is the trace of --after",
        Guard::Foreign => "was not written by snl search",
    }
}

/// Whether two names are those of one file.
fn is_same(rt: &HostRuntime, left: &str, right: &str) -> bool {
    match (fs::metadata(rt, left), fs::metadata(rt, right)) {
        (Ok(left), Ok(right)) => left.dev() == right.dev() && left.ino() == right.ino(),
        _ => false,
    }
}

/// Whether a file begins with the first line of a trace that is written here, or has nothing in it.
fn is_ours(rt: &HostRuntime, path: &str) -> io::Result<bool> {
    if fs::metadata(rt, path)?.len() == 0 {
        return Ok(true);
    }
    let mut room = vec![in rt.alloc(); 0u8; FIRST.len()]?;
    let mut file = File::open(rt, path)?;
    file.read_exact(room.as_mut_slice())?;
    Ok(room.as_slice() == FIRST)
}

/// Why a file that is there is not written over, if it is so.
fn guard_of(rt: &HostRuntime, call: &Call, words: &SearchWords, path: &str) -> Option<Guard> {
    if is_same(rt, path, call.job.file.as_str()) {
        return Some(Guard::Program);
    }
    if let Some(like) = &words.wanted.like {
        if is_same(rt, path, like.as_str()) {
            return Some(Guard::Like);
        }
    }
    if let Some(after) = &words.alphabet.after {
        if is_same(rt, path, after.trace.as_str()) {
            return Some(Guard::After);
        }
    }
    match is_ours(rt, path) {
        Ok(true) => None,
        Ok(false) | Err(_) => Some(Guard::Foreign),
    }
}

/// Sees that the file of `--out` may be written. What is no plain file, such as `/dev/stdout`, may be.
fn check_out(rt: &HostRuntime, call: &Call, words: &SearchWords, path: &str) -> Result<(), Status> {
    match fs::metadata(rt, path) {
        Ok(found) if found.is_file() => match guard_of(rt, call, words, path) {
            Some(guard) => {
                let text = text_of(guard);
                let _ = eprintln!(rt; "error: '--out {path}' {text}, and is not written over");
                Err(Status::Usage)
            }
            None => Ok(()),
        },
        _ => Ok(()),
    }
}

/// Whether a name is one that a trace of a suite has, as `12.trace`.
fn is_numbered(name: &str) -> bool {
    match name.strip_suffix(".trace") {
        Some(number) => !number.is_empty() && number.bytes().all(|byte| byte.is_ascii_digit()),
        None => false,
    }
}

/// The names of what is in a folder.
fn names_in(rt: &HostRuntime, folder: &str) -> io::Result<Vec<String>> {
    let mut names = Vec::new(rt.alloc());
    for entry in fs::read_dir(rt, folder)? {
        let entry = entry?;
        names.push(String::from_str(rt.alloc(), entry.file_name())?)?;
    }
    Ok(names)
}

/// A file in a folder.
fn path_in(alloc: Global, folder: &str, name: &str) -> Result<String, AllocError> {
    format!(in alloc; "{folder}/{name}")
}

/// Sees that a file in the folder of `--cover` may be taken away.
fn check_inner(
    rt: &HostRuntime,
    call: &Call,
    words: &SearchWords,
    folder: &str,
    name: &str,
) -> Result<(), Status> {
    let path = path_in(rt.alloc(), folder, name)?;
    let guard = match guard_of(rt, call, words, path.as_str()) {
        None if !is_numbered(name) => Some(Guard::Foreign),
        guard => guard,
    };
    match guard {
        Some(guard) => {
            let text = text_of(guard);
            let _ = eprintln!(rt;
                "error: '--cover {folder}' has '{name}' in it, which {text}: name a new or an empty folder"
            );
            Err(Status::Usage)
        }
        None => Ok(()),
    }
}

/// Sees that the folder of `--cover` is new, or has nothing in it but traces that were written here.
fn check_cover(
    rt: &HostRuntime,
    call: &Call,
    words: &SearchWords,
    folder: &str,
) -> Result<(), Status> {
    if !fs::exists(rt, folder).unwrap_or(true) {
        return Ok(());
    }
    match names_in(rt, folder) {
        Ok(names) => {
            for name in &names {
                check_inner(rt, call, words, folder, name.as_str())?;
            }
            Ok(())
        }
        Err(error) => {
            let _ = eprintln!(rt;
                "error: '--cover {folder}' is no folder that can be read: {error}"
            );
            Err(Status::Usage)
        }
    }
}

/// Sees that a search may write what its words name, before it begins. Where it may not, standard error tells why.
pub fn check_outputs(rt: &HostRuntime, call: &Call, words: &SearchWords) -> Result<(), Status> {
    if let Some(path) = &words.wanted.out {
        check_out(rt, call, words, path.as_str())?;
    }
    match &words.wanted.cover {
        Some(folder) => check_cover(rt, call, words, folder.as_str()),
        None => Ok(()),
    }
}

/// A trace with its first line.
fn with_first(alloc: Global, trace: &[u8]) -> Result<Vec<u8>, AllocError> {
    let mut text = Vec::from_slice(alloc, FIRST)?;
    text.extend_from_slice(trace)?;
    Ok(text)
}

/// Writes a trace into a file.
fn write_file(rt: &HostRuntime, path: &str, trace: &[u8]) -> io::Result<()> {
    let text = with_first(rt.alloc(), trace)?;
    fs::write(rt, path, text.as_slice())
}

/// Takes the numbered traces away that an earlier call left in a folder.
fn clear(rt: &HostRuntime, folder: &str) -> io::Result<()> {
    let names = names_in(rt, folder)?;
    for name in &names {
        if is_numbered(name.as_str()) {
            let path = path_in(rt.alloc(), folder, name.as_str())?;
            if is_ours(rt, path.as_str())? {
                fs::remove_file(rt, path.as_str())?;
            }
        }
    }
    Ok(())
}

/// Writes traces into a folder, which is made where it is missing.
fn write_folder(rt: &HostRuntime, folder: &str, suite: &[Vec<u8>]) -> io::Result<()> {
    fs::create_dir_all(rt, folder)?;
    clear(rt, folder)?;
    for (place, trace) in suite.iter().enumerate() {
        let number = place.saturating_add(1);
        let path = format!(in rt.alloc(); "{folder}/{number}.trace")?;
        write_file(rt, path.as_str(), trace.as_slice())?;
    }
    Ok(())
}

/// Writes a trace into the file of `--out`, where one is named. Where that fails, the user is told.
pub fn write_trace(
    rt: &HostRuntime,
    name: &Option<String>,
    trace: &Option<Vec<u8>>,
) -> Result<(), Status> {
    match (name, trace) {
        (Some(name), Some(trace)) => {
            let written = write_file(rt, name.as_str(), trace.as_slice());
            check_written(rt, name.as_str(), written)
        }
        _ => Ok(()),
    }
}

/// Writes traces into the folder of `--cover`, where one is named. Where that fails, the user is told.
pub fn write_suite(
    rt: &HostRuntime,
    folder: &Option<String>,
    suite: &[Vec<u8>],
) -> Result<(), Status> {
    match folder {
        Some(folder) => {
            let written = write_folder(rt, folder.as_str(), suite);
            check_written(rt, folder.as_str(), written)
        }
        None => Ok(()),
    }
}
