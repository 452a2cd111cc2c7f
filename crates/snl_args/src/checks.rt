//! What follows the word `check`: which lints say nothing, and whether the others make the status 1.

use crate::arguments::{Argument, Takes, argument_list};
use crate::found::texts_in;
use clap::ArgMatches;
use std::alloc::{AllocError, Global};

/// How a check writes what it found.
#[derive(Clone, Copy, Debug, PartialEq, Eq)]
pub enum Format {
    /// The lines of `snc`, a note on each, and a line for each remark.
    Text,
    /// Lines with columns, as compilers write them.
    Gcc,
    /// An object of JSON on a line.
    Json,
}

/// What a check is asked for.
#[derive(Drop)]
pub struct CheckWords {
    /// The files and folders, one at least.
    pub files: Vec<String>,
    /// How it writes what it found.
    pub format: Format,
    /// The names of lints that say nothing, or nothing on a line: `NAME=LINE`.
    pub silenced: Vec<String>,
    /// Whether what lints say makes the status 1.
    pub is_strict: bool,
}

/// What `check` takes.
pub(crate) const OF_CHECK: [Argument; 5] = argument_list! {
    "FILE": Takes::Places, "Files of programs, or folders with such, FILE.st; - for standard input";
    "format": Takes::Format, "How it is written: as text, as lines of a compiler, or as JSON";
    "MACROS": Takes::Behind("macros"), "The macros in the names of channels";
    "no-lint": Takes::Texts("NAME|NAME=LINE"), "A lint that says nothing, or nothing on a line; several add up";
    "strict": Takes::Nothing, "End with status 1 where a lint says something";
};

/// The format of a word.
fn format_of(word: &str) -> Format {
    match word {
        "gcc" => Format::Gcc,
        "json" => Format::Json,
        _ => Format::Text,
    }
}

/// What a check is asked for, as the command found it.
pub(crate) fn check_words(alloc: Global, matches: &ArgMatches) -> Result<CheckWords, AllocError> {
    let files = texts_in(alloc, matches, "FILE")?;
    let silenced = texts_in(alloc, matches, "no-lint")?;
    Ok(CheckWords {
        files,
        format: format_of(matches.get_str("format").unwrap_or("")),
        silenced,
        is_strict: matches.get_flag("strict"),
    })
}
