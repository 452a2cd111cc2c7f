//! What the words of a call ask for, and what may be wrong with them.

ghost use Rattle.std.specs.Prelude.{IfErr, IfOk, map};
ghost use Rattle.std.specs.String.{string_bytes};
ghost use Rattle.snc_args.specs.Reads.{FailsOn, IsBudget, IsMemory, ReadsTo};

use crate::options::{first_refused, options_in_force, rest_of};
use crate::reading::{read_snc, read_snlrun};
use snl_names::Options;
use std::alloc::{AllocError, Global};
use thiserror::Error;

/// The program that is called.
#[derive(Clone, Copy, Debug, PartialEq, Eq)]
pub enum Tool {
    /// Checks a program: `snc [±X..] [--tables] FILE`.
    Snc,
    /// Runs a program over a trace: `snlrun [±X..] [--budget N] FILE [MACROS]`.
    Snlrun,
}

/// How many ticks an instant may take, where nothing is said.
pub const DEFAULT_BUDGET: u32 = 100_000;

/// What is to be done with a program.
#[derive(Drop)]
pub struct Job {
    /// The file of the program, as it was given: any text, also the empty one.
    pub file: String,
    /// The signs of the options: of each letter that of the last word with it. None where no word has the letter.
    pub options: Options,
    /// Whether the tables of the program are to be written. `false` for `snlrun`.
    pub tables: bool,
    /// How many ticks an instant may take, from 1 to 1,000,000,000. 100,000 where nothing is said, and for `snc`.
    pub budget: u32,
    /// The text of the macros, as it was given. None where it was left out, and for `snc`.
    pub macros: Option<String>,
}

/// Why words ask for nothing that a program can do. `Display` gives the text for the user.
#[derive(Debug, Drop, Error)]
pub enum WordsFault {
    /// The sign and the first refused character of the first option that has one.
    #[error("snc: option '{0}{1}' is not supported")]
    BadOption(char, char),
    /// The other words are no call of the program; with `clap`'s text, which ends with a newline.
    #[error("{0}")]
    Usage(String),
    /// `--help` was asked for; with `clap`'s text, which ends with a newline.
    #[error("{0}")]
    Help(String),
    /// Memory ran out.
    #[error("out of memory")]
    Memory,
}

impl From<AllocError> for WordsFault {
    ghost from_gives = { λ _ fault. IsMemory fault };

    fn from(_error: AllocError) -> WordsFault {
        WordsFault::Memory
    }
}

/// What the words of a call ask for; `words` are those after the program's own name.
///
/// A word is an option where it begins with `+`, or with `-` but not `--`, and has another byte; it is taken out wherever
/// it stands, also after `--`. The letters are those of the language (SNL Reference, "Option"): `a`, `c`, `d`, `e`, `i`,
/// `l`, `m`, `r`, `s`, `u`, `w` and `W`, but not `+a` and not `-e`. `clap` reads the other words.
///
/// `BadOption` comes before all else, with the sign and the first refused character of the first option that has one; it
/// takes no memory. `Usage` and `Help` come of the other words. `Memory` comes where a growth was refused.
pub fn read_words(alloc: Global, tool: Tool, words: &[String]) -> Result<Job, WordsFault>
    ensures ok { IfOk result (ReadsTo tool (map string_bytes words.now)) }
    ensures budget { IfOk result (λ job. IsBudget job.budget) }
    ensures err { IfErr result (FailsOn tool (map string_bytes words.now)) }
{
    if let Some((sign, character)) = first_refused(words) {
        return Err(WordsFault::BadOption(sign, character));
    }
    let options = options_in_force(words);
    let rest = rest_of(alloc, words)?;
    match tool {
        Tool::Snc => read_snc(alloc, rest.as_slice(), options),
        Tool::Snlrun => read_snlrun(alloc, rest.as_slice(), options),
    }
}
