//! What follows the word `same`: the other program, and what of the outputs is compared.

use crate::arguments::{Argument, Takes, argument_list};
use crate::calls::CallFault;
use crate::found::texts_in;
use crate::searches::{SearchWords, search_words};
use clap::ArgMatches;
use snc_args::Job;
use std::alloc::Global;

/// What a comparison is asked for.
#[derive(Drop)]
pub struct SameWords {
    /// The other program, with the options, the macros and the budget of the call.
    pub new: Job,
    /// Whether puts alone are compared, the last to each channel at each time.
    pub puts_only: bool,
    /// The channels whose puts are left out.
    pub but: Vec<String>,
    /// Whether each difference is told.
    pub is_whole: bool,
    /// What a search over every trace is asked for, in the place of a trace.
    pub search: Option<SearchWords>,
}

/// The two programs.
pub(crate) const OF_PAIR: [Argument; 3] = argument_list! {
    "OLD": Takes::Place, "The file of one program";
    "NEW": Takes::Place, "The file of the other one";
    "MACROS": Takes::MaybePlace, "The macros in the names of channels";
};

/// What of the outputs is compared.
pub(crate) const OF_PUTS: [Argument; 2] = argument_list! {
    "but": Takes::Texts("CHANNEL"), "A channel whose puts are left out; several add up";
    "puts": Takes::Nothing, "Compare puts alone, the last to each channel at each time";
};

/// What `same` takes alone.
pub(crate) const OF_SAME: [Argument; 1] = argument_list! {
    "whole": Takes::Nothing, "Tell each difference, and not the first alone";
};

/// What `same` takes for a search.
pub(crate) const OF_SAME_SEARCH: [Argument; 1] = argument_list! {
    "search": Takes::Nothing, "Compare over every trace, and read none";
};

/// What a search is asked for, as the command found it; None for a comparison over a trace.
fn search_in(
    alloc: Global,
    matches: &ArgMatches,
    is_search: bool,
) -> Result<Option<SearchWords>, CallFault> {
    if is_search {
        Ok(Some(search_words(alloc, matches, None)?))
    } else {
        Ok(None)
    }
}

/// What a comparison is asked for, as the command found it.
pub(crate) fn same_words(
    alloc: Global,
    matches: &ArgMatches,
    new: Job,
    is_search: bool,
) -> Result<SameWords, CallFault> {
    let but = texts_in(alloc, matches, "but")?;
    Ok(SameWords {
        new,
        puts_only: matches.get_flag("puts"),
        but,
        is_whole: matches.get_flag("whole"),
        search: search_in(alloc, matches, is_search)?,
    })
}
