//! What follows the word `trace`: the logs, the program, the units of their channels, and where the trace begins and ends.

use crate::arguments::{Argument, Number, Takes, argument_list};
use crate::calls::{CallFault, usage};
use crate::found::{pushed, text_in, texts_in};
use crate::searches::bad_text;
use clap::ArgMatches;
use std::alloc::{AllocError, Global};

/// A whole number of a channel, by its name.
#[derive(Drop)]
pub struct NamedNumber {
    /// The channel's name.
    pub name: String,
    /// The number.
    pub number: i64,
}

/// A text of a channel, and the number that it stands for.
#[derive(Drop)]
pub struct NamedText {
    /// The channel's name.
    pub name: String,
    /// The text.
    pub text: String,
    /// The number.
    pub number: i64,
}

/// What the values of the logs stand for.
#[derive(Drop)]
pub struct MeaningWords {
    /// The powers of ten that values of channels are multiplied by.
    pub scales: Vec<NamedNumber>,
    /// The texts that stand for numbers.
    pub texts: Vec<NamedText>,
    /// The values that channels have at the begin.
    pub values: Vec<NamedNumber>,
}

/// The files, and the times between which they are read.
#[derive(Drop)]
pub struct SpanWords {
    /// By how many minutes the clocks of files are ahead.
    pub offsets: Vec<NamedNumber>,
    /// The time at which the trace begins.
    pub from: Option<String>,
    /// The time at which it ends.
    pub to: Option<String>,
    /// The files.
    pub logs: Vec<String>,
}

/// What a trace is made of, and how.
#[derive(Drop)]
pub struct TraceWords {
    /// Whether the trace is made for the program of the call.
    pub has_program: bool,
    /// What the values of the logs stand for.
    pub meanings: MeaningWords,
    /// The files, and the times between which they are read.
    pub span: SpanWords,
    /// How many seconds the trace begins before the first change at most.
    pub lead: u32,
    /// Whether alarms are written.
    pub tells_alarms: bool,
}

/// What `trace` takes.
pub(crate) const OF_TRACE: [Argument; 12] = argument_list! {
    "LOG": Takes::Places, "The files of the logs; - for standard input";
    "FILE": Takes::Behind("program"), "The file of a program: what it does not take is left out, and what it lacks is told";
    "MACROS": Takes::Behind("macros"), "The macros in the names of its channels";
    "units": Takes::Text("FILE"), "A file of units, as snl-port writes it; the words below count more";
    "scale": Takes::Texts("NAME=K"), "The values of a channel are multiplied by 10 to the power of K, and rounded";
    "enum": Takes::Texts("NAME=TEXT:N,.."), "The numbers that texts of a channel stand for";
    "value": Takes::Texts("NAME=N"), "The value that a channel has at 0 ms, if no log says otherwise";
    "offset": Takes::Texts("FILE=+HH:MM"), "By how much the clock of a file is ahead of those of the others";
    "lead": Takes::Number(Number { value: "S", least: 0, usual: "10" }), "How many seconds before the first change the trace begins at most";
    "severity": Takes::Nothing, "Write the alarms too, as channels NAME.SEVR";
    "from": Takes::Text("T"), "The time of 0 ms, as the logs tell it";
    "to": Takes::Text("T"), "The time behind which no log is read";
};

/// The texts of an option; none where it is not given.
fn texts_of<'m>(matches: &'m ArgMatches, option: &str) -> &'m [&'m str] {
    matches.get_strs(option).unwrap_or(&[])
}

/// Two digits as a number.
fn two_digits(text: &str) -> Option<i64> {
    if text.len() != 2 || !text.bytes().all(|byte| byte.is_ascii_digit()) {
        return None;
    }
    text.parse::<i64>().ok()
}

/// The minutes of `HH:MM`.
fn minutes_of(text: &str) -> Option<i64> {
    let (hours, minutes) = text.split_once(':')?;
    let hours = two_digits(hours)?;
    let minutes = two_digits(minutes)?;
    if hours < 24 && minutes < 60 {
        Some(hours.saturating_mul(60).saturating_add(minutes))
    } else {
        None
    }
}

/// The minutes of `+HH:MM` or `-HH:MM`.
fn offset_of(text: &str) -> Option<i64> {
    match text.strip_prefix('+') {
        Some(ahead) => minutes_of(ahead),
        None => Some(0i64.saturating_sub(minutes_of(text.strip_prefix('-')?)?)),
    }
}

/// What stands behind the name of an option.
#[derive(Clone, Copy)]
enum Counted {
    /// A whole number.
    Number,
    /// By how many minutes a clock is ahead: `+HH:MM` or `-HH:MM`.
    Minutes,
}

/// The number of a text.
fn number_of(text: &str, counted: Counted) -> Option<i64> {
    match counted {
        Counted::Number => text.parse::<i64>().ok(),
        Counted::Minutes => offset_of(text),
    }
}

/// The name and the number of `NAME=N`, or the file and the minutes of `FILE=+HH:MM`. A channel has a name; that of a file may be
/// empty.
fn number_in(
    alloc: Global,
    text: &str,
    counted: Counted,
) -> Result<Option<NamedNumber>, AllocError> {
    let Some((name, text)) = text.rsplit_once('=') else {
        return Ok(None);
    };
    match number_of(text, counted) {
        Some(number) if matches!(counted, Counted::Minutes) || !name.is_empty() => {
            Ok(Some(NamedNumber {
                name: String::from_str(alloc, name)?,
                number,
            }))
        }
        _ => Ok(None),
    }
}

/// The names and numbers of an option.
fn numbers_of(
    alloc: Global,
    matches: &ArgMatches,
    option: &str,
    counted: Counted,
    form: &str,
) -> Result<Vec<NamedNumber>, CallFault> {
    let mut all = Vec::new(alloc);
    for text in texts_of(matches, option) {
        match number_in(alloc, text, counted)? {
            Some(number) => pushed(&mut all, number)?,
            None => return Err(bad_text(alloc, option, text, form)),
        }
    }
    Ok(all)
}

/// Adds the text and the number of `TEXT:N`. Answers whether it is that.
fn push_text(
    alloc: Global,
    name: &str,
    word: &str,
    all: &mut Vec<NamedText>,
) -> Result<bool, AllocError> {
    let Some((text, digits)) = word.rsplit_once(':') else {
        return Ok(false);
    };
    let Ok(number) = digits.parse::<i64>() else {
        return Ok(false);
    };
    let name = String::from_str(alloc, name)?;
    let text = String::from_str(alloc, text)?;
    all.push(NamedText { name, text, number })?;
    Ok(true)
}

/// Adds the texts and numbers of `NAME=TEXT:N,..`. Answers whether it is that.
fn push_texts(alloc: Global, words: &str, all: &mut Vec<NamedText>) -> Result<bool, AllocError> {
    let Some((name, words)) = words.split_once('=') else {
        return Ok(false);
    };
    for word in words.split(',') {
        if name.is_empty() || !push_text(alloc, name, word, all)? {
            return Ok(false);
        }
    }
    Ok(true)
}

/// The texts that stand for numbers.
fn enums_of(alloc: Global, matches: &ArgMatches) -> Result<Vec<NamedText>, CallFault> {
    let mut all = Vec::new(alloc);
    for words in texts_of(matches, "enum") {
        if !push_texts(alloc, words, &mut all)? {
            return Err(bad_text(alloc, "enum", words, "NAME=TEXT:N,.."));
        }
    }
    Ok(all)
}

/// Whether a program is named, as a command found it. Macros are those of a program.
fn names_program(alloc: Global, matches: &ArgMatches) -> Result<bool, CallFault> {
    let has_program = matches.get_str("FILE").is_some();
    if !has_program && matches.get_str("MACROS").is_some() {
        return Err(usage(alloc, "'--macros' says nothing without '--program'"));
    }
    Ok(has_program)
}

/// What the values of the logs stand for, as a command found it.
fn meanings_of(alloc: Global, matches: &ArgMatches) -> Result<MeaningWords, CallFault> {
    Ok(MeaningWords {
        scales: numbers_of(alloc, matches, "scale", Counted::Number, "NAME=K")?,
        texts: enums_of(alloc, matches)?,
        values: numbers_of(alloc, matches, "value", Counted::Number, "NAME=N")?,
    })
}

/// The files, and the times between which they are read, as a command found them.
fn span_of(alloc: Global, matches: &ArgMatches) -> Result<SpanWords, CallFault> {
    let form = "FILE=+HH:MM or FILE=-HH:MM";
    Ok(SpanWords {
        offsets: numbers_of(alloc, matches, "offset", Counted::Minutes, form)?,
        from: text_in(alloc, matches, "from")?,
        to: text_in(alloc, matches, "to")?,
        logs: texts_in(alloc, matches, "LOG")?,
    })
}

/// What a trace is made of, as a command found it.
pub(crate) fn trace_words(alloc: Global, matches: &ArgMatches) -> Result<TraceWords, CallFault> {
    Ok(TraceWords {
        has_program: names_program(alloc, matches)?,
        meanings: meanings_of(alloc, matches)?,
        span: span_of(alloc, matches)?,
        lead: matches.get_one::<u32>("lead").unwrap_or(10),
        tells_alarms: matches.get_flag("severity"),
    })
}
