//! What the words of a call ask for, and what may be wrong with them.

use crate::explains::read_explain;
use crate::forms::{CallForm, form_of, found_in};
use crate::found::{budget_in, job_in, text_in};
use crate::language::with_help;
use crate::texts::{ABOUT, MORE, WORDS};
use crate::words::{NAMES, Word, word_in};
use clap::error::ErrorKind;
use clap::{ArgMatches, Command, Error};
use snc_args::{DEFAULT_BUDGET, Job, first_refused, options_in_force, rest_of};
use snl_resolve::Options;
use std::alloc::{AllocError, Global};
use strsim::levenshtein;
use thiserror::Error;

/// What a call asks for.
pub struct Call {
    /// The file, the options, the macros and the budget.
    pub job: Job,
    /// The word behind `snl`, with what it takes alone; in a box, since it is large.
    pub word: Box<Word>,
    /// Whether to tell how far the trace was read.
    pub progress: bool,
    /// The file of units.
    pub units: Option<String>,
}

// Written out: a derived drop is proved anew wherever such a value ends.
impl Drop for Call {
    fn drop(self) {
        let Call {
            job: _,
            word: _,
            progress: _,
            units: _,
        } = self;
    }
}

/// Why words ask for nothing that is to be done. `Display` gives the text for the user.
#[derive(Debug, Drop, Error)]
pub enum CallFault {
    /// The sign and the first refused character of the first option that has one.
    #[error("snl: option '{0}{1}' is not supported")]
    BadOption(char, char),
    /// The words are no call; with a text that ends with a newline.
    #[error("{0}")]
    Usage(String),
    /// A text was asked for, that of `--help` or of `--version`; it ends with a newline.
    #[error("{0}")]
    Told(String),
    /// Memory ran out.
    #[error("out of memory")]
    Memory,
}

impl From<AllocError> for CallFault {
    fn from(_error: AllocError) -> CallFault {
        CallFault::Memory
    }
}

/// The fault of words that are no call, by what is wrong with them.
pub(crate) fn usage(alloc: Global, wrong: &str) -> CallFault {
    match format!(in alloc; "error: {wrong}\n\nFor more information, try '--help'.\n") {
        Ok(text) => CallFault::Usage(text),
        Err(_) => CallFault::Memory,
    }
}

/// What an error of `clap` says.
fn fault_in(alloc: Global, error: Error) -> CallFault {
    let kind = error.kind();
    match format!(in alloc; "{error}") {
        Ok(text) => match kind {
            ErrorKind::OutOfMemory => CallFault::Memory,
            ErrorKind::DisplayHelp => CallFault::Told(text),
            _ => CallFault::Usage(text),
        },
        Err(_) => CallFault::Memory,
    }
}

/// What a command finds in the words, or what is wrong with them.
pub(crate) fn matches_in<'w>(
    alloc: Global,
    command: Command<'w>,
    words: &'w [&'w str],
) -> Result<ArgMatches<'w>, CallFault> {
    match command.try_get_matches_from(words) {
        Ok(matches) => Ok(matches),
        Err(error) => Err(fault_in(alloc, error)),
    }
}

/// The names of the words, as a static: a proof lists what a constant holds at each step of a function that borrows it.
static KNOWN: [&str; 13] = NAMES;

/// The word that may have been meant: one of which less than half the letters have to be changed.
fn meant(alloc: Global, name: &str) -> Result<Option<&'static str>, AllocError> {
    for word in &KNOWN {
        if levenshtein(alloc, name, word)? <= word.len() / 2 {
            return Ok(Some(word));
        }
    }
    Ok(None)
}

/// The fault of words that begin with none that is known, by what is wrong with them.
fn no_word(alloc: Global, wrong: &str) -> Result<CallFault, AllocError> {
    Ok(CallFault::Usage(format!(in alloc;
        "error: {wrong}\n\n{WORDS}\nFor more information, try 'snl --help'.\n"
    )?))
}

/// The fault of a first word that is none, with the one that may have been meant.
fn unknown_word(alloc: Global, name: &str) -> Result<CallFault, AllocError> {
    let wrong = match meant(alloc, name)? {
        Some(word) => format!(in alloc; "there is no word '{name}'; did you mean '{word}'?")?,
        None => format!(in alloc; "there is no word '{name}'")?,
    };
    no_word(alloc, wrong.as_str())
}

/// What a first word tells, where it is none that asks for something.
fn fault_of(
    alloc: Global,
    name: &str,
    words: &[&str],
    version: &str,
) -> Result<CallFault, AllocError> {
    match name {
        "explain" => Ok(read_explain(alloc, words)),
        "--help" => Ok(CallFault::Told(format!(in alloc; "{ABOUT}\n{WORDS}\n{MORE}")?)),
        "--version" => Ok(CallFault::Told(format!(in alloc;
            "snl {version}\nLicence: Apache-2.0\n"
        )?)),
        _ => unknown_word(alloc, name),
    }
}

/// How many ticks an instant of a run may take. What a search found is run again with the budget that `snlrun` has where nothing
/// is said.
fn budget_of(form: CallForm, matches: &ArgMatches) -> u32 {
    match form {
        CallForm::Search | CallForm::SameSearch => DEFAULT_BUDGET,
        _ => budget_in(matches),
    }
}

/// What the program of a call is to be run with. A call of `trace` runs none, and one of `test` has many.
fn job_of(
    alloc: Global,
    form: CallForm,
    matches: &ArgMatches,
    options: Options,
) -> Result<Job, AllocError> {
    let file = match form {
        CallForm::Same | CallForm::SameSearch => "OLD",
        _ => "FILE",
    };
    job_in(alloc, matches, file, options, budget_of(form, matches))
}

/// What a call of a form asks for, as its command found it.
fn call_in(
    alloc: Global,
    form: CallForm,
    matches: &ArgMatches,
    options: Options,
) -> Result<Call, CallFault> {
    let word = word_in(alloc, form, matches, options, budget_of(form, matches))?;
    let job = job_of(alloc, form, matches, options)?;
    Ok(Call {
        job,
        word,
        progress: matches.get_flag("progress"),
        units: text_in(alloc, matches, "units")?,
    })
}

/// What a call of a form asks for, by the words behind its own.
fn read_form(
    alloc: Global,
    form: CallForm,
    words: &[&str],
    options: Options,
) -> Result<Call, CallFault> {
    let matches = found_in(alloc, form, words)?;
    call_in(alloc, form, &matches, options)
}

/// What words ask for that are no options of the language.
fn call_by(
    alloc: Global,
    words: &[&str],
    options: Options,
    version: &str,
) -> Result<Call, CallFault> {
    let [first, more @ ..] = words else {
        return Err(no_word(alloc, "no word was given")?);
    };
    match form_of(first, more) {
        Some(form) => read_form(alloc, form, more, options),
        None => Err(fault_of(alloc, first, more, version)?),
    }
}

/// What words ask for that have `--help` in the place of `-h`.
fn call_of(alloc: Global, words: &[String], version: &str) -> Result<Call, CallFault> {
    if let Some((sign, character)) = first_refused(words) {
        return Err(CallFault::BadOption(sign, character));
    }
    let rest = rest_of(alloc, words)?;
    call_by(alloc, rest.as_slice(), options_in_force(words), version)
}

/// What the words of a call ask for; `words` are those after the program's own name, `version` is what `--version` tells.
///
/// Options of the language are taken out first, as `snc_args` says, but `-h` is `--help`. `BadOption` comes before all else.
/// `Usage` comes of other words that are no call, `Told` of `--help` and `--version`; `Memory` where a growth was refused.
pub fn read_call(alloc: Global, words: &[String], version: &str) -> Result<Call, CallFault> {
    let words = with_help(alloc, words)?;
    call_of(alloc, words.as_slice(), version)
}
