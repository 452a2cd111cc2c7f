//! What follows the word `test`: what is tested, and what is written.

use crate::arguments::{Argument, Takes, argument_list};
use crate::found::{text_in, texts_in};
use clap::ArgMatches;
use std::alloc::{AllocError, Global};

/// What tests are asked for.
#[derive(Drop)]
pub struct TestWords {
    /// The folders and programs, one at least.
    pub paths: Vec<String>,
    /// The file of the report, where one is written.
    pub junit: Option<String>,
    /// Whether what came is written as what is wanted.
    pub blesses: bool,
    /// Whether that is done of a run that faults, too.
    pub forces: bool,
}

/// What `test` takes.
pub(crate) const OF_TEST: [Argument; 4] = argument_list! {
    "PATH": Takes::Places, "Programs, NAME.st, or folders with such";
    "junit": Takes::Text("FILE"), "A file that gets a report in the XML of JUnit";
    "bless": Takes::Nothing, "Write what came as what is wanted";
    "force": Takes::Nothing, "With --bless: also of a run that faults, and of a program with errors";
};

/// What tests are asked for, as the command found it.
pub(crate) fn test_words(alloc: Global, matches: &ArgMatches) -> Result<TestWords, AllocError> {
    Ok(TestWords {
        paths: texts_in(alloc, matches, "PATH")?,
        junit: text_in(alloc, matches, "junit")?,
        blesses: matches.get_flag("bless"),
        forces: matches.get_flag("force"),
    })
}
