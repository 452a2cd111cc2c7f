//! A share of a search, and of what search it is.

use crate::asked::Asked;
use crate::count_files::{head_of, words_of};
use crate::version::VERSION;
use snl_args::{AfterWords, ChannelValues, SearchWords, StopWords};
use snl_joins::Part;
use std::alloc::{AllocError, Global};

/// Adds the texts of an option, each with its name in front.
fn push_texts(out: &mut String, option: &str, texts: &[String]) -> Result<(), AllocError> {
    for text in texts {
        out.push_str("\n")?;
        out.push_str(option)?;
        out.push_str(" ")?;
        out.push_str(text.as_str())?;
    }
    Ok(())
}

/// Adds the values of channels.
fn push_values(
    out: &mut String,
    option: &str,
    channels: &[ChannelValues],
) -> Result<(), AllocError> {
    for channel in channels {
        out.push_str("\n")?;
        out.push_str(option)?;
        out.push_str(" ")?;
        out.push_str(channel.name.as_str())?;
        push_texts(out, "=", channel.values.as_slice())?;
    }
    Ok(())
}

/// Adds times, each behind a word.
fn push_times(
    alloc: Global,
    out: &mut String,
    word: &str,
    times: &[u64],
) -> Result<(), AllocError> {
    for ms in times {
        let time = format!(in alloc; "\n{word} {ms}")?;
        out.push_str(time.as_str())?;
    }
    Ok(())
}

/// Adds the times between lines.
fn push_gaps(alloc: Global, out: &mut String, gaps: &Option<Vec<u64>>) -> Result<(), AllocError> {
    match gaps {
        Some(gaps) => push_times(alloc, out, "gap", gaps.as_slice()),
        None => out.push_str("\ngap all"),
    }
}

/// Adds where a search starts in a recorded day, if it starts in one.
fn push_after(
    alloc: Global,
    out: &mut String,
    after: &Option<AfterWords>,
) -> Result<(), AllocError> {
    let Some(after) = after else {
        return Ok(());
    };
    match &after.stops {
        StopWords::Every(each) => {
            let every = format!(in alloc; "\nevery {each}")?;
            out.push_str(every.as_str())
        }
        StopWords::At(times) => push_times(alloc, out, "at", times.as_slice()),
    }
}

/// The words of a call that the answer of a search depends on, but for those of its bounds.
fn search_text(alloc: Global, asked: Asked, words: &SearchWords) -> Result<String, AllocError> {
    let mut out = words_of(alloc, asked)?;
    let budget = format!(in alloc; "\nbudget {}", words.limits.budget)?;
    out.push_str(budget.as_str())?;
    push_texts(&mut out, "never", words.wanted.never.as_slice())?;
    push_texts(&mut out, "never-end", words.wanted.ends.as_slice())?;
    push_values(&mut out, "values", words.alphabet.values.as_slice())?;
    push_values(&mut out, "first", words.alphabet.firsts.as_slice())?;
    push_texts(&mut out, "down", words.alphabet.down.as_slice())?;
    push_gaps(alloc, &mut out, &words.alphabet.gaps)?;
    push_after(alloc, &mut out, &words.alphabet.after)?;
    Ok(out)
}

/// The share of a search that a call names, with the version of the programs and the digest of the search. `day` is the trace of the day in
/// which it starts.
pub fn part_of(
    alloc: Global,
    asked: Asked,
    words: &SearchWords,
    day: Option<&[u8]>,
) -> Result<Option<Part>, AllocError> {
    let Some(part) = words.alphabet.part else {
        return Ok(None);
    };
    let text = search_text(alloc, asked, words)?;
    let mut text = Vec::from_slice(alloc, text.as_bytes())?;
    if let Some(day) = day {
        text.extend_from_slice(b"\nafter ")?;
        text.extend_from_slice(day)?;
    }
    let head = head_of(alloc, asked, text.as_slice())?;
    let mut subject = Vec::from_slice(alloc, b"snl ")?;
    subject.extend_from_slice(VERSION.as_bytes())?;
    subject.extend_from_slice(b" ")?;
    subject.extend_from_slice(head.digits())?;
    Ok(Some(Part {
        number: part.number,
        of: part.of,
        subject,
    }))
}
