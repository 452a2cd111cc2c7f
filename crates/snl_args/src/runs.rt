//! What follows the word `run`: whether blocks are folded, and the requirement that watches the run.

use crate::calls::{CallFault, usage};
use crate::found::texts_in;
use clap::ArgMatches;
use snc_args::Job;
use std::alloc::Global;

/// What a run is asked for.
#[derive(Drop)]
pub struct RunWords {
    /// Whether no block of lines is folded.
    pub is_whole: bool,
    /// The requirement, with the options, the macros and the budget of the call; None where nobody watches.
    pub watch: Option<Job>,
    /// States of the requirement that must not be, as they were given: `SS.STATE`.
    pub never: Vec<String>,
}

/// What a run is asked for, as the command found it. A state that must not be is one of a requirement: without one it is `Usage`.
pub(crate) fn run_words(
    alloc: Global,
    matches: &ArgMatches,
    watch: Option<Job>,
) -> Result<RunWords, CallFault> {
    let never = texts_in(alloc, matches, "never")?;
    if watch.is_none() && !never.is_empty() {
        return Err(usage(
            alloc,
            "'--never SS.STATE' names a state of a requirement, and there is none: it is a program behind --watch",
        ));
    }
    Ok(RunWords {
        is_whole: matches.get_flag("whole"),
        watch,
        never,
    })
}
