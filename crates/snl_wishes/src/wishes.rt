//! What the words of a call wish of a search.

use crate::traces::recorded;
use crate::units::{wished_lines, wished_values};
use snc::Status;
use snl_alphabet::{Bounds, Day, WishedValues, Wishes};
use snl_args::SearchWords;
use snl_joins::Part;
use snl_units::ChannelUnits;
use std::alloc::{AllocError, Global};
use std::fs::File;

/// A copy of texts.
pub fn owned(alloc: Global, texts: &[String]) -> Result<Vec<String>, AllocError> {
    let mut all = Vec::new(alloc);
    for text in texts {
        all.push(String::from_str(alloc, text.as_str())?)?;
    }
    Ok(all)
}

/// What the words of a call wish of channels and lines, in the units of the trace.
#[derive(Drop)]
struct Wished {
    never: Vec<String>,
    values: Vec<WishedValues>,
    firsts: Vec<WishedValues>,
}

/// What the words of a call wish of channels and lines. Where a value is none, the user is told.
fn wished_in(
    rt: &HostRuntime,
    words: &SearchWords,
    units: &[ChannelUnits],
) -> Result<Wished, Status> {
    Ok(Wished {
        never: wished_lines(rt, units, words.wanted.never.as_slice())?,
        values: wished_values(rt, units, "values", words.alphabet.values.as_slice())?,
        firsts: wished_values(rt, units, "first", words.alphabet.firsts.as_slice())?,
    })
}

/// A copy of the times between lines; None where a line may come at any time.
pub fn times_of(alloc: Global, times: &Option<Vec<u64>>) -> Result<Option<Vec<u64>>, AllocError> {
    match times {
        Some(times) => Ok(Some(Vec::from_slice(alloc, times.as_slice())?)),
        None => Ok(None),
    }
}

/// Where a search stops, by the words of its call.
pub fn bounds_of(words: &SearchWords) -> Bounds {
    Bounds {
        lines: words.limits.lines as usize,
        worlds: words.limits.worlds as usize,
        memory: u64::from(words.limits.memory).saturating_mul(1_000_000),
        covers: words.wanted.cover.is_some(),
    }
}

/// What the words of a call wish. `like` is the recorded trace that they name, and `day` that in which the search starts.
fn wishes_of(
    alloc: Global,
    words: &SearchWords,
    wished: Wished,
    like: Option<File>,
    day: Option<Day>,
    part: Option<Part>,
) -> Result<Wishes, AllocError> {
    let Wished {
        never,
        values,
        firsts,
    } = wished;
    Ok(Wishes {
        never,
        ends: owned(alloc, words.wanted.ends.as_slice())?,
        like,
        day,
        values,
        firsts,
        gaps: times_of(alloc, &words.alphabet.gaps)?,
        down: owned(alloc, words.alphabet.down.as_slice())?,
        part,
        bounds: bounds_of(words),
        budget: words.limits.budget,
    })
}

/// What the words of a call wish of a search over all starts, or over a part of them; those of channels, or of a recorded day. Where a value is
/// none, or the recorded trace cannot be opened, the user is told.
pub fn wishes_over(
    rt: &HostRuntime,
    words: &SearchWords,
    units: &[ChannelUnits],
    day: Option<Day>,
    part: Option<Part>,
) -> Result<Wishes, Status> {
    let wished = wished_in(rt, words, units)?;
    let like = recorded(rt, words)?;
    Ok(wishes_of(rt.alloc(), words, wished, like, day, part)?)
}
