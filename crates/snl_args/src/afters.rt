//! Where a search starts in a recorded day: `--after`, `--every` and `--at`.

use crate::ats::times_in;
use crate::calls::{CallFault, usage};
use crate::searches::bad_text;
use clap::ArgMatches;
use std::alloc::{AllocError, Global};

/// Where a search starts in a recorded day.
#[derive(Drop)]
pub enum StopWords {
    /// After so many lines, after twice as many, and so on.
    Every(usize),
    /// At these times, in milliseconds: each once, and the earliest first.
    At(Vec<u64>),
}

/// A recorded day in which a search starts.
#[derive(Drop)]
pub struct AfterWords {
    /// The file of its trace.
    pub trace: String,
    /// Where it starts.
    pub stops: StopWords,
}

/// The error of an option that stands without another one, or beside it.
fn misplaced(alloc: Global, option: &str, how: &str) -> CallFault {
    match format!(in alloc; "'--{option}' {how}") {
        Ok(wrong) => usage(alloc, wrong.as_str()),
        Err(_) => CallFault::Memory,
    }
}

/// The number of lines of `--every N`.
fn every_in(alloc: Global, text: &str) -> Result<StopWords, CallFault> {
    match text.parse::<usize>() {
        Ok(each) if each > 0 => Ok(StopWords::Every(each)),
        _ => Err(bad_text(alloc, "every", text, "a number of lines from 1 on")),
    }
}

/// The times of `--at MS,MS..`.
fn at_in(alloc: Global, text: &str) -> Result<StopWords, CallFault> {
    match times_in(alloc, text)? {
        Some(times) => Ok(StopWords::At(times)),
        None => Err(bad_text(alloc, "at", text, "MS,MS..")),
    }
}

/// Where a search starts in a day: after each line, where nothing is said.
fn stops_in(alloc: Global, matches: &ArgMatches) -> Result<StopWords, CallFault> {
    match (matches.get_str("every"), matches.get_str("at")) {
        (Some(_), Some(_)) => Err(misplaced(alloc, "every", "and '--at' are not both taken")),
        (Some(text), None) => every_in(alloc, text),
        (None, Some(text)) => at_in(alloc, text),
        (None, None) => Ok(StopWords::Every(1)),
    }
}

/// Sees that nothing is said of a day where there is none.
fn check_none(alloc: Global, matches: &ArgMatches) -> Result<(), CallFault> {
    for option in ["every", "at"] {
        if matches.get_str(option).is_some() {
            return Err(misplaced(alloc, option, "goes with --after alone"));
        }
    }
    Ok(())
}

/// The day in which a search starts, with a file of that name.
fn day_in(alloc: Global, matches: &ArgMatches, name: &str) -> Result<AfterWords, CallFault> {
    if matches.get_strs("first").is_some() {
        return Err(misplaced(alloc, "first", "does not go with --after"));
    }
    let stops = stops_in(alloc, matches)?;
    Ok(AfterWords {
        trace: String::from_str(alloc, name)?,
        stops,
    })
}

/// The day of `--after`, if there is one, as the command found it.
pub(crate) fn after_in(
    alloc: Global,
    matches: &ArgMatches,
) -> Result<Option<AfterWords>, CallFault> {
    match matches.get_str("after") {
        Some(name) => Ok(Some(day_in(alloc, matches, name)?)),
        None => {
            check_none(alloc, matches)?;
            Ok(None)
        }
    }
}
