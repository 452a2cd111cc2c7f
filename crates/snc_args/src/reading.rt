//! The words that are no options, as `clap` reads them: for each program what they ask for, or what
//! is wrong with them.

ghost use Rattle.std.specs.Prelude.{◌≡◌, IfErr, IfOk, [], map, option_map, true};
ghost use Rattle.std.specs.String.{string_bytes};
ghost use Rattle.clap.specs.Words.{IsParsedFrom, app_of, fault_of, found_of, is_simple_and_free};
ghost use Rattle.clap.specs.Words.{kind_of, matches_of, rows_of};
ghost use Rattle.snc_args.specs.Commands.{snc_app, snlrun_app};
ghost use Rattle.snc_args.specs.Reads.{FailsBy, FaultGives, ReadsSnc, ReadsSnlrun};

use crate::commands::{snc_command, snlrun_command};
use crate::words::{DEFAULT_BUDGET, Job, WordsFault};
use clap::error::ErrorKind;
use clap::{ArgMatches, Command, Error};
use snl_names::Options;
use std::alloc::{AllocError, Global};

/// What an error of `clap` says.
fn fault_in(alloc: Global, error: Error) -> WordsFault
    ensures { FaultGives (kind_of error) result }
{
    let kind = error.kind();
    match format!(in alloc; "{error}") {
        Ok(text) => match kind {
            ErrorKind::OutOfMemory => WordsFault::Memory,
            ErrorKind::DisplayHelp => WordsFault::Help(text),
            _ => WordsFault::Usage(text),
        },
        Err(_) => WordsFault::Memory,
    }
}

/// What a command finds in the words, or what is wrong with them.
fn matches_in<'w>(
    alloc: Global,
    command: Command<'w>,
    words: &'w [&'w str],
) -> Result<ArgMatches<'w>, WordsFault>
    requires { is_simple_and_free (app_of command) ≡ true }
    ensures faultless { IfOk result (λ _.
        fault_of (app_of command.entry) (map (λ w. w.now) words.entry.now) ≡ []) }
    ensures parsed { IfOk result (λ m. IsParsedFrom command.entry m) }
    ensures rows { IfOk result (λ m. rows_of (found_of m)
        ≡ matches_of (app_of command.entry) (map (λ w. w.now) words.entry.now)) }
    ensures err { IfErr result (FailsBy
        (fault_of (app_of command.entry) (map (λ w. w.now) words.entry.now))) }
{
    match command.try_get_matches_from(words) {
        Ok(matches) => Ok(matches),
        Err(error) => Err(fault_in(alloc, error)),
    }
}

/// What the words ask `snc` for.
pub(crate) fn read_snc(alloc: Global, words: &[&str], options: Options) -> Result<Job, WordsFault>
    ensures faultless { IfOk result (λ _. fault_of snc_app (map (λ w. w.now) words.now) ≡ []) }
    ensures options { IfOk result (λ job. job.options ≡ options) }
    ensures rows { IfOk result (ReadsSnc (matches_of snc_app (map (λ w. w.now) words.now))) }
    ensures err { IfErr result (FailsBy (fault_of snc_app (map (λ w. w.now) words.now))) }
{
    let command = snc_command(alloc)?;
    let matches = matches_in(alloc, command, words)?;
    let Some(file) = matches.get_str("FILE") else {
        unreachable!()
    };
    let tables = matches.get_flag("tables");
    Ok(Job {
        file: String::from_str(alloc, file)?,
        options,
        tables,
        budget: DEFAULT_BUDGET,
        macros: None,
    })
}

/// A text of the caller's own, where there is one.
fn owned(alloc: Global, text: Option<&str>) -> Result<Option<String>, AllocError>
    ensures { IfOk result (λ own.
        option_map string_bytes own ≡ option_map (λ t. t.now) text.entry) }
{
    match text {
        Some(text) => Ok(Some(String::from_str(alloc, text)?)),
        None => Ok(None),
    }
}

/// What the words ask `snlrun` for.
pub(crate) fn read_snlrun(
    alloc: Global,
    words: &[&str],
    options: Options,
) -> Result<Job, WordsFault>
    ensures faultless { IfOk result (λ _. fault_of snlrun_app (map (λ w. w.now) words.now) ≡ []) }
    ensures options { IfOk result (λ job. job.options ≡ options) }
    ensures rows { IfOk result (ReadsSnlrun (matches_of snlrun_app (map (λ w. w.now) words.now))) }
    ensures err { IfErr result (FailsBy (fault_of snlrun_app (map (λ w. w.now) words.now))) }
{
    let command = snlrun_command(alloc)?;
    let matches = matches_in(alloc, command, words)?;
    let Some(file) = matches.get_str("FILE") else {
        unreachable!()
    };
    let Some(budget) = matches.get_one::<u32>("budget") else {
        unreachable!()
    };
    let macros = owned(alloc, matches.get_str("MACROS"))?;
    Ok(Job {
        file: String::from_str(alloc, file)?,
        options,
        tables: false,
        budget,
        macros,
    })
}
