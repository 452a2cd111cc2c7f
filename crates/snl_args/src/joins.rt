//! What follows `search --join`: the answers of jobs that went over shares of one search.

use crate::arguments::{Argument, Takes, argument_list};
use crate::found::texts_in;
use clap::ArgMatches;
use std::alloc::{AllocError, Global};

/// Which answers are joined.
#[derive(Drop)]
pub struct JoinWords {
    /// Their files.
    pub answers: Vec<String>,
}

/// What `search --join` takes.
pub(crate) const OF_JOIN: [Argument; 2] = argument_list! {
    "join": Takes::Nothing, "Join the answers of all parts of a search";
    "ANSWER": Takes::Places, "The files of the answers";
};

/// Which answers are joined, as the command found them.
pub(crate) fn join_words(alloc: Global, matches: &ArgMatches) -> Result<JoinWords, AllocError> {
    Ok(JoinWords {
        answers: texts_in(alloc, matches, "ANSWER")?,
    })
}
