//! What only calls can show: each call that a user of the crates makes succeeds, places in bytes, small tables, and devices in memory
//! that cut the bytes or fail.
//!
//! What a source, a trace or the words of a call show stands in the folder `cases/` at the root, and runs on the built programs.

use snc::{Job, Options};
use std::alloc::{AllocError, Global};

mod beginnings;
mod machines;
mod made;
mod programs;
mod reports;
mod sessions;
mod tables;
mod tokens;
mod words;

/// What is to be said of [`crate::PROGRAM`].
pub const WARNING: &[u8] = b"p.st:12: warning: W7 state 'hi' has no clauses\n";

/// A source with an error, and what is to be said of it.
pub const REFUSED: &[u8] = b"program p option +s; ss s { state a { when (x) {} exit } }";

pub const ERROR: &[u8] = b"p.st:1: error: E13 'x' is not declared\n";

pub fn job(alloc: Global, tables: bool) -> Result<Job, AllocError> {
    Ok(Job {
        file: String::from_str(alloc, "p.st")?,
        options: Options::none(),
        tables,
        budget: 10,
        macros: None,
    })
}
