//! The arguments of words, and the commands that `clap` reads them by.

use crate::texts::Texts;
use clap::{Arg, ArgAction, Command};
use std::alloc::{AllocError, Global};

/// A number that an option takes.
#[derive(Clone, Copy)]
pub(crate) struct Number {
    /// What stands for it in the help.
    pub value: &'static str,
    /// The least one; the greatest is 1,000,000,000.
    pub least: i64,
    /// What it is where nothing is said.
    pub usual: &'static str,
}

/// What an argument takes.
#[derive(Clone, Copy)]
pub(crate) enum Takes {
    /// Nothing: the option is there or not.
    Nothing,
    /// A text, by what stands for it in the help.
    Text(&'static str),
    /// A text each time; several add up.
    Texts(&'static str),
    /// A text behind the option of this name; the name of the argument stands for the text.
    Behind(&'static str),
    /// A number.
    Number(Number),
    /// How much of 100.
    Percent,
    /// How a check writes what it found.
    Format,
    /// It has no option: it is the word at this place, which has to be there.
    Place,
    /// The word at this place, which may be missing.
    MaybePlace,
    /// All words from this place on, one at least.
    Places,
}

/// An argument of a word.
#[derive(Clone, Copy)]
pub(crate) struct Argument {
    /// The name of the option, or what stands for the word at this place.
    pub name: &'static str,
    /// What it takes.
    pub takes: Takes,
    /// What the help tells of it.
    pub help: &'static str,
}

/// A list of arguments, a row for each: its name, what it takes, and what the help tells of it.
macro_rules! argument_list {
    ($($name:literal: $takes:expr, $help:literal;)*) => {
        [$(Argument { name: $name, takes: $takes, help: $help }),*]
    };
}

pub(crate) use argument_list;

/// What a word takes of a program.
pub(crate) const OF_PROGRAM: [Argument; 2] = argument_list! {
    "FILE": Takes::Place, "The file of the program; - for standard input";
    "MACROS": Takes::MaybePlace, "The macros in the names of channels";
};

/// What each word takes that runs something over a trace.
pub(crate) const OF_RUNS: [Argument; 2] = argument_list! {
    "budget": Takes::Number(Number { value: "N", least: 1, usual: "100000" }), "The ticks that an instant may take";
    "progress": Takes::Nothing, "Tell once a second how far the trace was read";
};

/// An option that is there or not.
fn flag<'a>(alloc: Global, name: &'static str) -> Arg<'a> {
    Arg::new(alloc, name)
        .long(name)
        .action(ArgAction::SetTrue)
        .value_parser(clap::value_parser!(bool))
}

/// An argument with a text behind an option.
fn text_behind<'a>(
    alloc: Global,
    name: &'static str,
    option: &'static str,
    value: &'static str,
    action: ArgAction,
) -> Arg<'a> {
    Arg::new(alloc, name)
        .long(option)
        .value_name(value)
        .action(action)
}

/// An option with a text.
fn option<'a>(
    alloc: Global,
    name: &'static str,
    value: &'static str,
    action: ArgAction,
) -> Arg<'a> {
    text_behind(alloc, name, name, value, action)
}

/// An option with a number in a range.
fn ranged_option<'a>(
    alloc: Global,
    name: &'static str,
    value: &'static str,
    least: i64,
    most: i64,
) -> Arg<'a> {
    option(alloc, name, value, ArgAction::Set).value_parser(clap::value_parser!(u32).range(
        least..=most,
    ))
}

/// An option with a number, which is told where it is not given.
fn number_option<'a>(alloc: Global, name: &'static str, number: Number) -> Arg<'a> {
    ranged_option(alloc, name, number.value, number.least, 1_000_000_000).default_value(
        number.usual,
    )
}

/// The option of a format.
fn format_option<'a>(alloc: Global, name: &'static str) -> Arg<'a> {
    option(alloc, name, "FORMAT", ArgAction::Set)
        .value_parser(["text", "gcc", "json"].as_slice())
        .default_value("text")
}

/// The word at a place.
fn place<'a>(alloc: Global, name: &'static str, is_needed: bool) -> Arg<'a> {
    Arg::new(alloc, name)
        .required(is_needed)
        .action(ArgAction::Set)
}

/// All words from a place on.
fn places<'a>(alloc: Global, name: &'static str) -> Arg<'a> {
    place(alloc, name, true)
        .num_args(1usize..)
        .action(ArgAction::Append)
}

/// An argument as `clap` has it.
fn made_argument<'a>(alloc: Global, argument: Argument) -> Arg<'a> {
    let Argument { name, takes, help } = argument;
    let made = match takes {
        Takes::Nothing => flag(alloc, name),
        Takes::Text(value) => option(alloc, name, value, ArgAction::Set),
        Takes::Texts(value) => option(alloc, name, value, ArgAction::Append),
        Takes::Behind(option) => text_behind(alloc, name, option, name, ArgAction::Set),
        Takes::Number(of) => number_option(alloc, name, of),
        Takes::Percent => ranged_option(alloc, name, "PERCENT", 0, 100),
        Takes::Format => format_option(alloc, name),
        Takes::Place => place(alloc, name, true),
        Takes::MaybePlace => place(alloc, name, false),
        Takes::Places => places(alloc, name),
    };
    made.help(help)
}

/// `--help`, and `-h`, which is no letter of the language's options. `clap` would add one with a text of its own.
fn help_argument<'a>(alloc: Global) -> Arg<'a> {
    Arg::new(alloc, "help")
        .short('h')
        .long("help")
        .action(ArgAction::Help)
        .help("Print this help")
}

/// The command of a word with these texts, without arguments.
fn bare<'a>(alloc: Global, texts: &'a Texts) -> Command<'a> {
    Command::new(alloc, "snl")
        .no_binary_name(true)
        .disable_help_flag(true)
        .override_usage(texts.usage)
        .about(texts.about)
        .after_help(texts.more)
}

/// Puts a value at the end of a row. It stands first, so that its lifetime has the same number here as where it is made.
fn added<T: Drop>(value: T, row: &mut Vec<T>) -> Result<(), AllocError> {
    row.push(value)?;
    Ok(())
}

/// Adds arguments as `clap` has them.
fn push_all<'a>(
    alloc: Global,
    arguments: &'a [Argument],
    all: &mut Vec<Arg<'a>>,
) -> Result<(), AllocError> {
    for one in arguments {
        added(made_argument(alloc, *one), all)?;
    }
    Ok(())
}

/// The command of a word with these texts, these lists of arguments and `--help`.
pub(crate) fn command_of<'a>(
    alloc: Global,
    texts: &'a Texts,
    arguments: &'a [&'a [Argument]],
) -> Result<Command<'a>, AllocError> {
    let mut all = Vec::new(alloc);
    for list in arguments {
        push_all(alloc, list, &mut all)?;
    }
    added(help_argument(alloc), &mut all)?;
    bare(alloc, texts).args(all)
}
