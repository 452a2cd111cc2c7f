//! A word in the place of MACROS that gives no macro a value, and the call that was meant.

use crate::ats::AtWords;
use crate::calls::Call;
use crate::runs::RunWords;
use crate::sames::SameWords;
use crate::searches::SearchWords;
use crate::words::Word;
use snc_args::Job;
use std::alloc::{AllocError, Global};

/// Whether a shell takes a character as it is.
fn is_plain(character: char) -> bool {
    character.is_ascii_alphanumeric() || "_-./:,+@%=".contains(character)
}

/// A word as a shell takes it: in quotes where it has a blank or another character that a shell reads.
fn quoted(alloc: Global, word: &str) -> Result<String, AllocError> {
    if !word.is_empty() && word.chars().all(is_plain) {
        return String::from_str(alloc, word);
    }
    format!(in alloc; "'{word}'")
}

/// The right call of a word that reads a trace from standard input.
fn over_input(alloc: Global, word: &str, files: &str, trace: &str) -> Result<String, AllocError> {
    format!(in alloc; "The trace comes on standard input: snl {word} {files} < {trace}")
}

/// The right call of a word that takes a recorded trace behind `--like`.
fn over_like(alloc: Global, word: &str, files: &str, trace: &str) -> Result<String, AllocError> {
    format!(in alloc; "A recorded trace comes behind --like: snl {word} --like {trace} {files}")
}

/// The right call of a word that takes one file, with what there is to know of it.
fn over_file(alloc: Global, told: &str, word: &str, file: &str) -> Result<String, AllocError> {
    format!(in alloc; "{told}: snl {word} {file}")
}

/// The right call of a word that takes traces as files.
fn over_trace(alloc: Global, file: &str, trace: &str) -> Result<String, AllocError> {
    format!(in alloc; "A trace comes behind --trace: snl cover --trace {trace} {file}")
}

/// How a trace is given to a comparison, with the right call.
fn right_same(
    alloc: Global,
    words: &SameWords,
    file: &str,
    trace: &str,
) -> Result<String, AllocError> {
    let new = quoted(alloc, words.new.file.as_str())?;
    let files = format!(in alloc; "{file} {new}")?;
    if words.search.is_some() {
        over_like(alloc, "same --search", files.as_str(), trace)
    } else {
        over_input(alloc, "same", files.as_str(), trace)
    }
}

/// A word with the requirement of a call, where it has one.
fn with_watch(alloc: Global, word: &str, watch: &Option<Job>) -> Result<String, AllocError> {
    let Some(watch) = watch else {
        return String::from_str(alloc, word);
    };
    let watch = quoted(alloc, watch.file.as_str())?;
    format!(in alloc; "{word} --watch {watch}")
}

/// How a trace is given to a run, with the right call.
fn right_run(
    alloc: Global,
    words: &RunWords,
    file: &str,
    trace: &str,
) -> Result<String, AllocError> {
    let word = with_watch(alloc, "run", &words.watch)?;
    over_input(alloc, word.as_str(), file, trace)
}

/// How a trace is given to a search, with the right call.
fn right_search(
    alloc: Global,
    words: &SearchWords,
    file: &str,
    trace: &str,
) -> Result<String, AllocError> {
    let word = with_watch(alloc, "search", &words.watch)?;
    over_like(alloc, word.as_str(), file, trace)
}

/// How a trace is given to a look at a program, with the right call.
fn right_at(alloc: Global, words: &AtWords, file: &str, trace: &str) -> Result<String, AllocError> {
    let word = match words {
        AtWords::Times(_) => "at MS",
        AtWords::Trip => "at --trip",
        AtWords::Into(state) => return right_into(alloc, state.as_str(), file, trace),
    };
    over_input(alloc, word, file, trace)
}

/// The same, where a state is asked for.
fn right_into(alloc: Global, state: &str, file: &str, trace: &str) -> Result<String, AllocError> {
    let word = format!(in alloc; "at --into {state}")?;
    over_input(alloc, word.as_str(), file, trace)
}

/// How a trace is given to a word, with the right call.
fn right_call(alloc: Global, word: &Word, file: &str, trace: &str) -> Result<String, AllocError> {
    match word {
        Word::Waits => over_input(alloc, "waits", file, trace),
        Word::Run(words) => right_run(alloc, words, file, trace),
        Word::Graph(_) => over_input(alloc, "graph", file, trace),
        Word::Cover(_) => over_trace(alloc, file, trace),
        Word::Tree => over_file(alloc, "No trace is read", "tree", file),
        Word::Sets(_) => over_file(alloc, "No trace is read", "sets", file),
        Word::Check(_) => over_file(alloc, "No trace is read", "check", file),
        Word::Trace(_) => over_file(alloc, "A log stands behind the word", "trace", trace),
        Word::Test(_) => over_file(alloc, "Traces are found by their names", "test", file),
        Word::At(words) => right_at(alloc, words, file, trace),
        Word::Join(_) => over_file(
            alloc,
            "Answers stand behind the word",
            "search --join",
            trace,
        ),
        Word::Same(words) => right_same(alloc, words, file, trace),
        Word::Search(words) => right_search(alloc, words, file, trace),
    }
}

/// What is told of a call whose MACROS are none: that they are NAME=VALUE,.., and the call with a trace, which was most likely meant.
/// Fails only where memory ran out.
pub fn misplaced_text(alloc: Global, call: &Call, macros: &str) -> Result<String, AllocError> {
    let file = quoted(alloc, call.job.file.as_str())?;
    let trace = quoted(alloc, macros)?;
    let call = right_call(alloc, &*call.word, file.as_str(), trace.as_str())?;
    format!(in alloc;
        "error: '{macros}' stands in the place of MACROS, which are NAME=VALUE,..\n\n{call}\n\n\
         For more information, try '--help'.\n"
    )
}
