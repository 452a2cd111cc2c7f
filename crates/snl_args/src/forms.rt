//! The forms of a call: what the words behind the first one may be.
//!
//! What a form takes is a static. A proof lists what a constant holds at each step of a function that borrows it, and what each static
//! holds that is borrowed there: so each has a function of its own.

use crate::arguments::{Argument, OF_PROGRAM, OF_RUNS, command_of};
use crate::ats::{OF_AT, OF_AT_EVENT, asks_event};
use crate::calls::{CallFault, matches_in};
use crate::checks::OF_CHECK;
use crate::commands::{
    OF_ANSWERS, OF_COVER, OF_DAY, OF_GRAPH, OF_RULES, OF_RUN, OF_SEARCH, OF_SETS, OF_WAITS,
};
use crate::joins::OF_JOIN;
use crate::sames::{OF_PAIR, OF_PUTS, OF_SAME, OF_SAME_SEARCH};
use crate::tests::OF_TEST;
use crate::texts::{self, Texts};
use crate::traces::OF_TRACE;
use clap::ArgMatches;
use std::alloc::Global;

/// The form of a call: its word, and for some words an option that makes them take other arguments.
#[derive(Clone, Copy)]
pub(crate) enum CallForm {
    /// `waits`.
    Waits,
    /// `run`.
    Run,
    /// `cover`.
    Cover,
    /// `graph`.
    Graph,
    /// `search`.
    Search,
    /// `search --join`.
    Join,
    /// `same`.
    Same,
    /// `same --search`.
    SameSearch,
    /// `at`.
    At,
    /// `at --trip` and `at --into`.
    AtEvent,
    /// `tree`.
    Tree,
    /// `sets`.
    Sets,
    /// `check`.
    Check,
    /// `trace`.
    Trace,
    /// `test`.
    Test,
}

/// What a form takes, and what its help tells.
pub(crate) struct Synopsis {
    /// The texts of the help.
    pub texts: Texts,
    /// The arguments, in the order of the help.
    pub arguments: &'static [&'static [Argument]],
}

/// What a form takes, by the texts of its help and the lists of its arguments.
macro_rules! synopsis {
    ($texts:ident: $($list:ident),*) => {
        Synopsis { texts: texts::$texts, arguments: &[$(&$list),*] }
    };
}

static WAITS: Synopsis = synopsis!(WAITS: OF_PROGRAM, OF_RUNS, OF_WAITS);

static RUN: Synopsis = synopsis!(RUN: OF_PROGRAM, OF_RUNS, OF_RUN);

static COVER: Synopsis = synopsis!(COVER: OF_PROGRAM, OF_RUNS, OF_COVER);

static GRAPH: Synopsis = synopsis!(GRAPH: OF_PROGRAM, OF_RUNS, OF_GRAPH);

static SEARCH: Synopsis = synopsis!(SEARCH: OF_PROGRAM, OF_RULES, OF_SEARCH, OF_DAY, OF_ANSWERS);

static JOIN: Synopsis = synopsis!(JOIN: OF_JOIN);

static SAME: Synopsis = synopsis!(SAME: OF_PAIR, OF_PUTS, OF_SAME, OF_RUNS);

static SAME_SEARCH: Synopsis = synopsis!(SAME_SEARCH: OF_PAIR, OF_SAME_SEARCH, OF_PUTS, OF_SEARCH);

static AT: Synopsis = synopsis!(AT: OF_AT, OF_PROGRAM, OF_RUNS);

static AT_EVENT: Synopsis = synopsis!(AT: OF_PROGRAM, OF_RUNS, OF_AT_EVENT);

static TREE: Synopsis = synopsis!(TREE: OF_PROGRAM);

static SETS: Synopsis = synopsis!(SETS: OF_PROGRAM, OF_SETS);

static CHECK: Synopsis = synopsis!(CHECK: OF_CHECK);

static TRACE: Synopsis = synopsis!(TRACE: OF_TRACE);

static TEST: Synopsis = synopsis!(TEST: OF_TEST);

/// Whether this option is among the words of a call.
fn has_word(words: &[&str], option: &str) -> bool {
    for word in words {
        if *word == option {
            return true;
        }
    }
    false
}

/// The form of a call whose first word has a name, by the words that follow; None where no word that asks for something has it.
pub(crate) fn form_of(name: &str, words: &[&str]) -> Option<CallForm> {
    Some(match name {
        "waits" => CallForm::Waits,
        "run" => CallForm::Run,
        "cover" => CallForm::Cover,
        "graph" => CallForm::Graph,
        "search" if has_word(words, "--join") => CallForm::Join,
        "search" => CallForm::Search,
        "same" if has_word(words, "--search") => CallForm::SameSearch,
        "same" => CallForm::Same,
        "at" if asks_event(words) => CallForm::AtEvent,
        "at" => CallForm::At,
        "tree" => CallForm::Tree,
        "sets" => CallForm::Sets,
        "check" => CallForm::Check,
        "trace" => CallForm::Trace,
        "test" => CallForm::Test,
        _ => return None,
    })
}

/// What `waits` takes.
fn waits_synopsis() -> &'static Synopsis {
    &WAITS
}

/// What `run` takes.
fn run_synopsis() -> &'static Synopsis {
    &RUN
}

/// What `cover` takes.
fn cover_synopsis() -> &'static Synopsis {
    &COVER
}

/// What `graph` takes.
fn graph_synopsis() -> &'static Synopsis {
    &GRAPH
}

/// What `search` takes.
fn search_synopsis() -> &'static Synopsis {
    &SEARCH
}

/// What `search --join` takes.
fn join_synopsis() -> &'static Synopsis {
    &JOIN
}

/// What `same` takes.
fn same_synopsis() -> &'static Synopsis {
    &SAME
}

/// What `same --search` takes.
fn same_search_synopsis() -> &'static Synopsis {
    &SAME_SEARCH
}

/// What `at` takes.
fn at_synopsis() -> &'static Synopsis {
    &AT
}

/// What `at --trip` and `at --into` take.
fn at_event_synopsis() -> &'static Synopsis {
    &AT_EVENT
}

/// What `tree` takes.
fn tree_synopsis() -> &'static Synopsis {
    &TREE
}

/// What `sets` takes.
fn sets_synopsis() -> &'static Synopsis {
    &SETS
}

/// What `check` takes.
fn check_synopsis() -> &'static Synopsis {
    &CHECK
}

/// What `trace` takes.
fn trace_synopsis() -> &'static Synopsis {
    &TRACE
}

/// What `test` takes.
fn test_synopsis() -> &'static Synopsis {
    &TEST
}

/// What a form takes.
fn synopsis_of(form: CallForm) -> &'static Synopsis {
    match form {
        CallForm::Waits => waits_synopsis(),
        CallForm::Run => run_synopsis(),
        CallForm::Cover => cover_synopsis(),
        CallForm::Graph => graph_synopsis(),
        CallForm::Search => search_synopsis(),
        CallForm::Join => join_synopsis(),
        CallForm::Same => same_synopsis(),
        CallForm::SameSearch => same_search_synopsis(),
        CallForm::At => at_synopsis(),
        CallForm::AtEvent => at_event_synopsis(),
        CallForm::Tree => tree_synopsis(),
        CallForm::Sets => sets_synopsis(),
        CallForm::Check => check_synopsis(),
        CallForm::Trace => trace_synopsis(),
        CallForm::Test => test_synopsis(),
    }
}

/// What is found in the words behind those of a form.
pub(crate) fn found_by<'w>(
    alloc: Global,
    synopsis: &'w Synopsis,
    words: &'w [&'w str],
) -> Result<ArgMatches<'w>, CallFault> {
    let command = command_of(alloc, &synopsis.texts, synopsis.arguments)?;
    matches_in(alloc, command, words)
}

/// What is found in the words behind those of a form.
pub(crate) fn found_in<'w>(
    alloc: Global,
    form: CallForm,
    words: &'w [&'w str],
) -> Result<ArgMatches<'w>, CallFault> {
    found_by(alloc, synopsis_of(form), words)
}
