//! The two commands that `clap` reads the words by.

ghost use Rattle.std.specs.Prelude.{◌≡◌, false, IfOk};
ghost use Rattle.clap.specs.Words.{app_of, rule_of};
ghost use Rattle.snc_args.specs.Commands as spec;

use clap::{Arg, ArgAction, Command};
use std::alloc::{AllocError, Global};

/// FILE.
fn file_argument<'a>(alloc: Global) -> Arg<'a>
    ensures rule { rule_of result ≡ spec.file_rule }
    ensures local { result.global ≡ false }
{
    Arg::new(alloc, "FILE")
        .required(true)
        .action(ArgAction::Set)
        .help("The file of the program")
}

/// MACROS.
fn macros_argument<'a>(alloc: Global) -> Arg<'a>
    ensures rule { rule_of result ≡ spec.macros_rule }
    ensures local { result.global ≡ false }
{
    Arg::new(alloc, "MACROS")
        .action(ArgAction::Set)
        .help("The macros in the names of channels")
}

/// `--budget`.
fn budget_argument<'a>(alloc: Global) -> Arg<'a>
    ensures rule { rule_of result ≡ spec.budget_rule }
    ensures local { result.global ≡ false }
{
    Arg::new(alloc, "budget")
        .long("budget")
        .value_name("N")
        .action(ArgAction::Set)
        .value_parser(clap::value_parser!(u32).range(1..=1_000_000_000))
        .default_value("100000")
        .help("The ticks that an instant may take")
}

/// `--tables`.
fn tables_argument<'a>(alloc: Global) -> Arg<'a>
    ensures rule { rule_of result ≡ spec.tables_rule }
    ensures local { result.global ≡ false }
{
    Arg::new(alloc, "tables")
        .long("tables")
        .action(ArgAction::SetTrue)
        .value_parser(clap::value_parser!(bool))
        .help("Write the tables of the program")
}

/// `--help`.
fn help_argument<'a>(alloc: Global) -> Arg<'a>
    ensures rule { rule_of result ≡ spec.help_rule }
    ensures local { result.global ≡ false }
{
    Arg::new(alloc, "help")
        .long("help")
        .action(ArgAction::Help)
        .help("Print this help")
}

/// A command with no arguments, for words that don't begin with the name of the program. `clap` would add `-h` beside
/// `--help`, but `-h` is an option word, so the command has a `--help` of its own.
fn bare_command<'a>(alloc: Global, name: &'a str) -> Command<'a>
    ensures { app_of result ≡ spec.bare_app name.entry.now }
{
    Command::new(alloc, name)
        .no_binary_name(true)
        .disable_help_flag(true)
}

/// What stands at the top of `snc --help`, and at its end.
const SNC_ABOUT: &str =
    "Checks a program in the State Notation Language, and says all that is wrong with it.";

const SNC_MORE: &str = "\
Options of the language: a sign and letters, as +u (more warnings) or -w (no warnings).

Messages go to standard error, the tables to standard output. Standard input is not read.

Example: snc --tables interlock.st

Status: 0 well, 1 errors in the program, 2 the words of the call are wrong,
3 the file or the output failed, 4 memory ran out.

Licence: Apache-2.0.

snc 0.9.0";

/// What stands at the top of `snlrun --help`, and at its end.
const SNLRUN_ABOUT: &str =
    "Runs a program in the State Notation Language over a trace, which is read from standard input.";

const SNLRUN_MORE: &str = "\
Options of the language: a sign and letters, as +u (more warnings) or -w (no warnings).

The trace has a line for each event, as \"0 up a\", \"5 val a 7\", \"9 tick\": milliseconds, what
happened, the channel, its values. The lines of the run go to standard output, messages to standard error.

Example: snlrun interlock.st < interlock.trace

Status: 0 well, 1 errors in the program, 2 the words of the call are wrong,
3 the file, the input or the output failed, 4 memory ran out, 5 the program faulted,
6 a line of the trace is bad.

Licence: Apache-2.0.

MACROS are NAME=VALUE,..; the trace comes on standard input

snlrun 0.9.0";

/// What stands at the top of `snc --help`. A function of its own gives each long text: where one is borrowed, each point of a proof lists it.
fn snc_about() -> &'static str {
    SNC_ABOUT
}

/// What stands at the end of `snc --help`.
fn snc_more() -> &'static str {
    SNC_MORE
}

/// What stands at the top of `snlrun --help`.
fn snlrun_about() -> &'static str {
    SNLRUN_ABOUT
}

/// What stands at the end of `snlrun --help`.
fn snlrun_more() -> &'static str {
    SNLRUN_MORE
}

/// The command of `snc`.
pub(crate) fn snc_command<'a>(alloc: Global) -> Result<Command<'a>, AllocError>
    ensures { IfOk result (λ c. app_of c ≡ spec.snc_app) }
{
    bare_command(alloc, "snc")
        .override_usage("snc [±X..] [--tables] FILE")
        .about(snc_about())
        .after_help(snc_more())
        .arg(file_argument(alloc))?
        .arg(tables_argument(alloc))?
        .arg(help_argument(alloc))
}

/// The command of `snlrun`.
pub(crate) fn snlrun_command<'a>(alloc: Global) -> Result<Command<'a>, AllocError>
    ensures { IfOk result (λ c. app_of c ≡ spec.snlrun_app) }
{
    bare_command(alloc, "snlrun")
        .override_usage("snlrun [±X..] [--budget N] FILE [MACROS]")
        .about(snlrun_about())
        .after_help(snlrun_more())
        .arg(file_argument(alloc))?
        .arg(macros_argument(alloc))?
        .arg(budget_argument(alloc))?
        .arg(help_argument(alloc))
}
