//! What follows the word `at`: times, or where a program faults, or comes into a state.

use crate::arguments::{Argument, Takes, argument_list};
use crate::calls::{CallFault, usage};
use clap::ArgMatches;
use std::alloc::{AllocError, Global};

/// No time of a trace is later, in milliseconds.
const TIME_LIMIT: u64 = 1_000_000_000_000_000;

/// When a program is looked at.
#[derive(Drop)]
pub enum AtWords {
    /// At these times, in milliseconds: each once, and the earliest first.
    Times(Vec<u64>),
    /// Where it faults.
    Trip,
    /// Where it came last into a state, as it was given: `SS.STATE`.
    Into(String),
}

/// The times.
pub(crate) const OF_AT: [Argument; 1] = argument_list! {
    "MS": Takes::Place, "The times in milliseconds, with commas between them";
};

/// What stands in the place of times.
pub(crate) const OF_AT_EVENT: [Argument; 2] = argument_list! {
    "trip": Takes::Nothing, "Where the program faults, in the place of times";
    "into": Takes::Text("SS.STATE"), "Where it came last into a state, in the place of times";
};

/// Whether the words behind `at` ask for a fault, or for a state.
pub(crate) fn asks_event(words: &[&str]) -> bool {
    for word in words {
        if *word == "--trip" || *word == "--into" || word.starts_with("--into=") {
            return true;
        }
    }
    false
}

/// The times in a text; None where a part of it is no time.
pub(crate) fn times_in(alloc: Global, text: &str) -> Result<Option<Vec<u64>>, AllocError> {
    let mut times = Vec::new(alloc);
    for word in text.split(',') {
        match word.parse::<u64>() {
            Ok(ms) if ms <= TIME_LIMIT => times.push(ms)?,
            _ => return Ok(None),
        }
    }
    times.sort_unstable();
    times.dedup();
    Ok(Some(times))
}

/// What is told of words that are no times.
fn bad_times(alloc: Global, text: &str) -> Result<CallFault, AllocError> {
    let wrong = format!(in alloc;
        "'{text}' is no time: times are whole numbers of milliseconds, as in 4100 or 4100,5200"
    )?;
    Ok(usage(alloc, wrong.as_str()))
}

/// The times of a call, as the command found them.
pub(crate) fn at_times(alloc: Global, matches: &ArgMatches) -> Result<AtWords, CallFault> {
    let text = matches.get_str("MS").unwrap_or("");
    match times_in(alloc, text)? {
        Some(times) => Ok(AtWords::Times(times)),
        None => Err(bad_times(alloc, text)?),
    }
}

/// The fault or the state of a call, as the command found it. Both at once are `Usage`.
pub(crate) fn at_event(alloc: Global, matches: &ArgMatches) -> Result<AtWords, CallFault> {
    match matches.get_str("into") {
        Some(_) if matches.get_flag("trip") => Err(usage(
            alloc,
            "'--trip' and '--into SS.STATE' are not both taken",
        )),
        Some(state) => Ok(AtWords::Into(String::from_str(alloc, state)?)),
        None => Ok(AtWords::Trip),
    }
}
