//! The words behind `snl`, and what follows each of them.

use crate::ats::{AtWords, at_event, at_times};
use crate::calls::CallFault;
use crate::checks::{CheckWords, check_words};
use crate::forms::CallForm;
use crate::found::{job_in, text_in, texts_in, watch_in};
use crate::joins::{JoinWords, join_words};
use crate::runs::{RunWords, run_words};
use crate::sames::{SameWords, same_words};
use crate::searches::{SearchWords, search_words};
use crate::tests::{TestWords, test_words};
use crate::traces::{TraceWords, trace_words};
use clap::ArgMatches;
use snl_resolve::Options;
use std::alloc::{AllocError, Global};

/// What a coverage is asked for.
#[derive(Drop)]
pub struct CoverWords {
    /// The files of traces.
    pub traces: Vec<String>,
    /// The file that lists files of traces.
    pub trace_list: Option<String>,
    /// The files of counts of other calls.
    pub adds: Vec<String>,
    /// The file that lists such files.
    pub add_list: Option<String>,
    /// The file that the counts go to.
    pub counts: Option<String>,
    /// How many percent of the clauses have to be taken; 0 where nothing is said.
    pub fail_under: u32,
}

/// What a picture is asked for.
#[derive(Drop)]
pub struct GraphWords {
    /// Whether it is drawn without a run.
    pub no_trace: bool,
    /// The files of counts that it tells, in the place of those of a run.
    pub counts: Vec<String>,
}

/// What a call of `snl` may ask for, with what the word takes alone.
#[derive(Drop)]
pub enum Word {
    /// When a program begins over a trace, or what it waits for: `snl waits [--units FILE] FILE [MACROS]`.
    Waits,
    /// A run with notes and a summary: `snl run [--whole] [--watch W [--never SS.STATE]..] [--units FILE] FILE [MACROS]`.
    Run(RunWords),
    /// What of a program no run showed: `snl cover [--fail-under PERCENT] [--trace FILE].. [--add FILE].. FILE [MACROS]`.
    Cover(CoverWords),
    /// A picture of a program: `snl graph [--no-trace] [--counts FILE].. FILE [MACROS]`.
    Graph(GraphWords),
    /// Every trace over a small alphabet, the shortest first: `snl search [--watch W] [--never LINE].. FILE [MACROS]`.
    Search(SearchWords),
    /// The answers of the parts of a search, joined: `snl search --join ANSWER..`.
    Join(JoinWords),
    /// Where two programs differ over a trace, or over any: `snl same [--search] [--but CHANNEL].. [--puts] OLD NEW [MACROS]`.
    Same(SameWords),
    /// The tree of a program as JSON: `snl tree FILE [MACROS]`.
    Tree,
    /// A line for each state of a program: `snl sets [--declare] FILE [MACROS]`. Whether it is a declaration.
    Sets(bool),
    /// A trace of recorded logs: `snl trace [--program FILE] [--scale NAME=K].. LOG..`.
    Trace(TraceWords),
    /// The messages about a program, and what is seldom meant: `snl check [--macros MACROS] [--format FORMAT] [--no-lint NAME].. [--strict] FILE..`.
    Check(CheckWords),
    /// What a program is at times of a trace, where it faults, or comes into a state: `snl at MS[,MS].. FILE [MACROS]`.
    At(AtWords),
    /// Programs with recorded traces and the outputs that are wanted: `snl test [--junit FILE] [--bless [--force]] PATH..`.
    Test(TestWords),
}

/// The names of the words.
pub(crate) const NAMES: [&str; 13] = [
    "waits", "run", "at", "cover", "graph", "same", "search", "tree", "sets", "check", "explain",
    "trace", "test",
];

/// What a coverage is asked for, as its command found it.
fn cover_words(alloc: Global, matches: &ArgMatches) -> Result<CoverWords, AllocError> {
    Ok(CoverWords {
        traces: texts_in(alloc, matches, "trace")?,
        trace_list: text_in(alloc, matches, "trace-list")?,
        adds: texts_in(alloc, matches, "add")?,
        add_list: text_in(alloc, matches, "add-list")?,
        counts: text_in(alloc, matches, "counts")?,
        fail_under: matches.get_one::<u32>("fail-under").unwrap_or(0),
    })
}

/// What a picture is asked for, as its command found it.
fn graph_words(alloc: Global, matches: &ArgMatches) -> Result<GraphWords, AllocError> {
    Ok(GraphWords {
        no_trace: matches.get_flag("no-trace"),
        counts: texts_in(alloc, matches, "counts")?,
    })
}

/// A value in a box: what is in one is cheap to prove things about where it is dropped. The only error is that memory ends.
fn boxed<T: Drop>(alloc: Global, value: T) -> Result<Box<T>, CallFault> {
    match Box::new(alloc, value) {
        Ok(value) => Ok(value),
        Err(_) => Err(CallFault::Memory),
    }
}

/// The word `run`, with what its command found.
fn run_word(
    alloc: Global,
    matches: &ArgMatches,
    options: Options,
    budget: u32,
) -> Result<Box<Word>, CallFault> {
    let watch = watch_in(alloc, matches, options, budget)?;
    boxed(alloc, Word::Run(run_words(alloc, matches, watch)?))
}

/// The word `search`, with what its command found.
fn search_word(
    alloc: Global,
    matches: &ArgMatches,
    options: Options,
    budget: u32,
) -> Result<Box<Word>, CallFault> {
    let watch = watch_in(alloc, matches, options, budget)?;
    boxed(alloc, Word::Search(search_words(alloc, matches, watch)?))
}

/// The word `same`, with what its command found.
fn same_word(
    alloc: Global,
    matches: &ArgMatches,
    options: Options,
    budget: u32,
    is_search: bool,
) -> Result<Box<Word>, CallFault> {
    let new = job_in(alloc, matches, "NEW", options, budget)?;
    boxed(
        alloc,
        Word::Same(same_words(alloc, matches, new, is_search)?),
    )
}

/// The word of a form, with what its command found. Programs of the word have these options and this budget.
pub(crate) fn word_in(
    alloc: Global,
    form: CallForm,
    matches: &ArgMatches,
    options: Options,
    budget: u32,
) -> Result<Box<Word>, CallFault> {
    match form {
        CallForm::Waits => boxed(alloc, Word::Waits),
        CallForm::Run => run_word(alloc, matches, options, budget),
        CallForm::Cover => boxed(alloc, Word::Cover(cover_words(alloc, matches)?)),
        CallForm::Graph => boxed(alloc, Word::Graph(graph_words(alloc, matches)?)),
        CallForm::Search => search_word(alloc, matches, options, budget),
        CallForm::Join => boxed(alloc, Word::Join(join_words(alloc, matches)?)),
        CallForm::Same => same_word(alloc, matches, options, budget, false),
        CallForm::SameSearch => same_word(alloc, matches, options, budget, true),
        CallForm::At => boxed(alloc, Word::At(at_times(alloc, matches)?)),
        CallForm::AtEvent => boxed(alloc, Word::At(at_event(alloc, matches)?)),
        CallForm::Tree => boxed(alloc, Word::Tree),
        CallForm::Sets => boxed(alloc, Word::Sets(matches.get_flag("declare"))),
        CallForm::Check => boxed(alloc, Word::Check(check_words(alloc, matches)?)),
        CallForm::Trace => boxed(alloc, Word::Trace(trace_words(alloc, matches)?)),
        CallForm::Test => boxed(alloc, Word::Test(test_words(alloc, matches)?)),
    }
}
