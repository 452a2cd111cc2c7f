//! What follows the word `search`: what is looked for, over which values, and where the search stops.

use crate::afters::{AfterWords, after_in};
use crate::calls::{CallFault, usage};
use crate::found::{pushed, text_in, texts_in};
use clap::ArgMatches;
use snc_args::Job;
use std::alloc::{AllocError, Global};

/// Values for a channel, by its name.
#[derive(Drop)]
pub struct ChannelValues {
    /// The channel's name.
    pub name: String,
    /// As they were given; none behind `NAME=`. Where no file of units says what they are, each is a whole number.
    pub values: Vec<String>,
}

/// A share of the starts: which one, from 1 on, and of how many.
#[derive(Clone, Copy, Debug, PartialEq, Eq)]
pub struct PartWord {
    /// Which one.
    pub number: usize,
    /// Of how many.
    pub of: usize,
}

/// What must not happen, and the files of a search.
#[derive(Drop)]
pub struct WantedWords {
    /// Lines that the output may not have, or states that may not be entered; with a requirement states of that.
    pub never: Vec<String>,
    /// What no line may end with, byte for byte.
    pub ends: Vec<String>,
    /// The file of a recorded trace, whose values take the place of those of the source.
    pub like: Option<String>,
    /// The file that the trace of what was found goes to.
    pub out: Option<String>,
    /// The folder that traces go to which take the clauses of the program.
    pub cover: Option<String>,
}

/// How traces begin, and what their lines are made of.
#[derive(Drop)]
pub struct AlphabetWords {
    /// The recorded day in which the search starts, in the place of first values.
    pub after: Option<AfterWords>,
    /// Values of channels, in the place of those of the source or the trace.
    pub values: Vec<ChannelValues>,
    /// Values at the start.
    pub firsts: Vec<ChannelValues>,
    /// Times between lines in milliseconds, in the place of 0; None where a line may come at any time.
    pub gaps: Option<Vec<u64>>,
    /// The share of the starts that the search goes over, in the place of all.
    pub part: Option<PartWord>,
    /// Channels that may go down and up.
    pub down: Vec<String>,
}

/// Where a search stops.
#[derive(Clone, Copy)]
pub struct LimitWords {
    /// How many lines a trace has at most behind the start.
    pub lines: u32,
    /// How many worlds are kept at most.
    pub worlds: u32,
    /// How many million bytes these may take.
    pub memory: u32,
    /// How many seconds the search may take.
    pub seconds: u32,
    /// How many ticks an instant may take while it is searched.
    pub budget: u32,
}

/// What a search is asked for.
#[derive(Drop)]
pub struct SearchWords {
    /// The requirement, with the options and the macros of the call; None where nobody watches.
    pub watch: Option<Job>,
    /// What must not happen, and the files.
    pub wanted: WantedWords,
    /// How traces begin, and what their lines are made of.
    pub alphabet: AlphabetWords,
    /// Where it stops.
    pub limits: LimitWords,
}

/// The error of an option whose text is none.
pub(crate) fn bad_text(alloc: Global, option: &str, text: &str, form: &str) -> CallFault {
    match format!(in alloc; "error: '--{option} {text}' is not {form}\n") {
        Ok(text) => CallFault::Usage(text),
        Err(_) => CallFault::Memory,
    }
}

/// How many numbers an interval of values may have.
const INTERVAL: i64 = 1_000;

/// The ends of an interval of whole numbers, `A..B`, if a word is one.
fn ends_in(word: &str) -> Option<(i64, i64)> {
    let (first, last) = word.split_once("..")?;
    match (first.parse::<i64>(), last.parse::<i64>()) {
        (Ok(first), Ok(last)) => Some((first, last)),
        _ => None,
    }
}

/// Adds each whole number of an interval. Answers whether it has one, and not too many.
fn push_interval(
    alloc: Global,
    first: i64,
    last: i64,
    values: &mut Vec<String>,
) -> Result<bool, AllocError> {
    if last < first || last.saturating_sub(first) >= INTERVAL {
        return Ok(false);
    }
    for number in first..last {
        values.push(format!(in alloc; "{number}")?)?;
    }
    values.push(format!(in alloc; "{last}")?)?;
    Ok(true)
}

/// Adds the values that a word stands for. Answers whether it is good: a whole number, where it has to be one, or an interval of them.
fn push_word(
    alloc: Global,
    word: &str,
    are_numbers: bool,
    values: &mut Vec<String>,
) -> Result<bool, AllocError> {
    if let Some((first, last)) = ends_in(word) {
        return push_interval(alloc, first, last, values);
    }
    if are_numbers && word.parse::<i64>().is_err() {
        return Ok(false);
    }
    values.push(String::from_str(alloc, word)?)?;
    Ok(true)
}

/// The values of words with commas between them; none in an empty text. None where a word is not good.
fn values_in(
    alloc: Global,
    text: &str,
    are_numbers: bool,
) -> Result<Option<Vec<String>>, AllocError> {
    let mut values = Vec::new(alloc);
    if text.is_empty() {
        return Ok(Some(values));
    }
    for word in text.split(',') {
        if !push_word(alloc, word, are_numbers, &mut values)? {
            return Ok(None);
        }
    }
    Ok(Some(values))
}

/// What the text of an option has to be that has values of a channel.
fn form_of(text: &str) -> &'static str {
    if text.contains("..") {
        "NAME=A..B, at most 1000 whole numbers"
    } else {
        "NAME=V,V.."
    }
}

/// A name and its values, of `NAME=V,V..`.
fn named_in(
    alloc: Global,
    option: &str,
    text: &str,
    are_numbers: bool,
) -> Result<ChannelValues, CallFault> {
    let Some((name, values)) = text.rsplit_once('=') else {
        return Err(bad_text(alloc, option, text, form_of(text)));
    };
    match values_in(alloc, values, are_numbers)? {
        Some(values) => Ok(ChannelValues {
            name: String::from_str(alloc, name)?,
            values,
        }),
        None => Err(bad_text(alloc, option, text, form_of(text))),
    }
}

/// The channels with values of an option. With a file of units they are no whole numbers yet.
fn all_named(
    alloc: Global,
    matches: &ArgMatches,
    option: &str,
) -> Result<Vec<ChannelValues>, CallFault> {
    let are_numbers = matches.get_str("units").is_none();
    let mut all = Vec::new(alloc);
    for text in matches.get_strs(option).unwrap_or(&[]) {
        pushed(&mut all, named_in(alloc, option, text, are_numbers)?)?;
    }
    Ok(all)
}

/// The time of a word, in milliseconds.
fn time_of(word: &str) -> Option<u64> {
    u64::try_from(word.parse::<i64>().ok()?).ok()
}

/// Adds the times of `MS,MS..`; none of an empty text. Answers whether it is that.
fn push_gaps(text: &str, times: &mut Vec<u64>) -> Result<bool, AllocError> {
    if text.is_empty() {
        return Ok(true);
    }
    for word in text.split(',') {
        match time_of(word) {
            Some(ms) => times.push(ms)?,
            None => return Ok(false),
        }
    }
    Ok(true)
}

/// The times of `--gaps`; None where `all` is one of its texts.
fn gaps_in(alloc: Global, matches: &ArgMatches) -> Result<Option<Vec<u64>>, CallFault> {
    let mut times = Vec::new(alloc);
    let mut are_all = false;
    for text in matches.get_strs("gaps").unwrap_or(&[]) {
        if *text == "all" {
            are_all = true;
        } else if !push_gaps(text, &mut times)? {
            return Err(bad_text(alloc, "gaps", text, "MS,MS.. or all"));
        }
    }
    if are_all { Ok(None) } else { Ok(Some(times)) }
}

/// A number of an option.
fn number_in(matches: &ArgMatches, option: &str) -> u32 {
    matches.get_one::<u32>(option).unwrap_or(1)
}

/// A share, of `I/N` with I from 1 to N; None where the text is none.
fn part_of(text: &str) -> Option<PartWord> {
    let (number, of) = text.split_once('/')?;
    let number = number.parse::<usize>().ok()?;
    let of = of.parse::<usize>().ok()?;
    if 1 <= number && number <= of {
        Some(PartWord { number, of })
    } else {
        None
    }
}

/// The share of `--part`.
fn part_in(alloc: Global, matches: &ArgMatches) -> Result<Option<PartWord>, CallFault> {
    let Some(text) = matches.get_str("part") else {
        return Ok(None);
    };
    match part_of(text) {
        Some(part) => Ok(Some(part)),
        None => Err(bad_text(alloc, "part", text, "I/N with I from 1 to N")),
    }
}

/// How traces begin, and what their lines are made of, as a command found it.
fn alphabet_in(alloc: Global, matches: &ArgMatches) -> Result<AlphabetWords, CallFault> {
    Ok(AlphabetWords {
        after: after_in(alloc, matches)?,
        values: all_named(alloc, matches, "values")?,
        firsts: all_named(alloc, matches, "first")?,
        gaps: gaps_in(alloc, matches)?,
        part: part_in(alloc, matches)?,
        down: texts_in(alloc, matches, "down")?,
    })
}

/// What must not happen, and the files of a search, as a command found them.
fn wanted_in(alloc: Global, matches: &ArgMatches) -> Result<WantedWords, AllocError> {
    Ok(WantedWords {
        never: texts_in(alloc, matches, "never")?,
        ends: texts_in(alloc, matches, "never-end")?,
        like: text_in(alloc, matches, "like")?,
        out: text_in(alloc, matches, "out")?,
        cover: text_in(alloc, matches, "cover")?,
    })
}

/// Where a search stops, as a command found it.
fn limits_in(matches: &ArgMatches) -> LimitWords {
    LimitWords {
        lines: number_in(matches, "lines"),
        worlds: number_in(matches, "worlds"),
        memory: number_in(matches, "memory"),
        seconds: number_in(matches, "seconds"),
        budget: number_in(matches, "budget"),
    }
}

/// What a search with a requirement is asked for that it does not do, if it is asked for such a thing.
fn unwatched_option(wanted: &WantedWords, alphabet: &AlphabetWords) -> Option<&'static str> {
    if !wanted.ends.is_empty() {
        Some("--never-end")
    } else if wanted.cover.is_some() {
        Some("--cover")
    } else if alphabet.part.is_some() {
        Some("--part")
    } else if alphabet.after.is_some() {
        Some("--after")
    } else {
        None
    }
}

/// Sees that a search with a requirement is asked for nothing that it does not do.
fn check_watched(
    alloc: Global,
    wanted: &WantedWords,
    alphabet: &AlphabetWords,
) -> Result<(), CallFault> {
    let Some(option) = unwatched_option(wanted, alphabet) else {
        return Ok(());
    };
    let wrong = format!(in alloc; "'{option}' does not go with --watch")?;
    Err(usage(alloc, wrong.as_str()))
}

/// What a search is asked for, as a command found it.
pub(crate) fn search_words(
    alloc: Global,
    matches: &ArgMatches,
    watch: Option<Job>,
) -> Result<SearchWords, CallFault> {
    let alphabet = alphabet_in(alloc, matches)?;
    let wanted = wanted_in(alloc, matches)?;
    if watch.is_some() {
        check_watched(alloc, &wanted, &alphabet)?;
    }
    Ok(SearchWords {
        watch,
        wanted,
        alphabet,
        limits: limits_in(matches),
    })
}
