//! What a command found in the words of a call, as values of the caller's own.

use clap::ArgMatches;
use snc_args::{DEFAULT_BUDGET, Job};
use snl_resolve::Options;
use std::alloc::{AllocError, Global};

/// Texts of the caller's own.
fn all_owned(alloc: Global, texts: &[&str]) -> Result<Vec<String>, AllocError> {
    let mut list = Vec::new(alloc);
    for text in texts {
        list.push(String::from_str(alloc, text)?)?;
    }
    Ok(list)
}

/// Puts a value at the end of a row. The only error is that memory ends.
pub(crate) fn pushed<T: Drop>(row: &mut Vec<T>, value: T) -> Result<(), AllocError> {
    Ok(row.push(value)?)
}

/// The text of an argument that may be missing.
pub(crate) fn text_in(
    alloc: Global,
    matches: &ArgMatches,
    name: &str,
) -> Result<Option<String>, AllocError> {
    match matches.get_str(name) {
        Some(text) => Ok(Some(String::from_str(alloc, text)?)),
        None => Ok(None),
    }
}

/// The texts of an argument that may stand several times.
pub(crate) fn texts_in(
    alloc: Global,
    matches: &ArgMatches,
    name: &str,
) -> Result<Vec<String>, AllocError> {
    all_owned(alloc, matches.get_strs(name).unwrap_or(&[]))
}

/// How many ticks an instant may take in a run.
pub(crate) fn budget_in(matches: &ArgMatches) -> u32 {
    matches.get_one::<u32>("budget").unwrap_or(DEFAULT_BUDGET)
}

/// What a program is to be run with, whose file stands in the argument of a name.
pub(crate) fn job_in(
    alloc: Global,
    matches: &ArgMatches,
    name: &str,
    options: Options,
    budget: u32,
) -> Result<Job, AllocError> {
    Ok(Job {
        file: String::from_str(alloc, matches.get_str(name).unwrap_or(""))?,
        options,
        tables: false,
        budget,
        macros: text_in(alloc, matches, "MACROS")?,
    })
}

/// What a requirement is to be run with, where there is one.
pub(crate) fn watch_in(
    alloc: Global,
    matches: &ArgMatches,
    options: Options,
    budget: u32,
) -> Result<Option<Job>, AllocError> {
    match matches.get_str("watch") {
        Some(_) => Ok(Some(job_in(alloc, matches, "watch", options, budget)?)),
        None => Ok(None),
    }
}
