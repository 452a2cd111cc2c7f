//! What no search may find: the files `NAME.never` and `NAME.watch.never`.

use std::alloc::{AllocError, Global};

/// What a search is asked for by a file.
#[derive(Drop)]
pub struct Never {
    /// How many lines its traces have; None: any number.
    pub lines: Option<u32>,
    /// What may not be found, and what else the file says of the search, as words of `snl search`.
    pub words: Vec<String>,
}

/// Whether a line says something: it is no comment, and not empty.
fn says(line: &str) -> bool {
    !line.is_empty() && !line.starts_with('#')
}

/// How many lines the traces have, by the first line of a file: None where it doesn't say so, Some(None) for any number.
fn lines_in(line: &str) -> Option<Option<u32>> {
    if line == "ever" {
        return Some(None);
    }
    match line.strip_prefix("lines ")?.parse::<u32>() {
        Ok(count) if count > 0 => Some(Some(count)),
        _ => None,
    }
}

/// Adds a word.
fn push_word(alloc: Global, words: &mut Vec<String>, word: &str) -> Result<(), AllocError> {
    words.push(String::from_str(alloc, word)?)?;
    Ok(())
}

/// Adds the words that a line stands for: an option with its value, or what may not be found.
fn push_line(alloc: Global, words: &mut Vec<String>, line: &str) -> Result<(), AllocError> {
    if !line.starts_with("--") {
        push_word(alloc, words, "--never")?;
        return push_word(alloc, words, line);
    }
    match line.split_once(' ') {
        Some((option, value)) => {
            push_word(alloc, words, option)?;
            push_word(alloc, words, value)
        }
        None => push_word(alloc, words, line),
    }
}

/// What the text of a `NAME.never` asks for. Its first line is `lines K`, or `ever`. Each other line is one of the output that may not come, a
/// state `SS.STATE` that may not be entered, or an option of `snl search` with its value. Empty lines, and those that begin with `#`, say
/// nothing. None where the first line is another one. The only error is that memory ends.
pub fn never_in(alloc: Global, text: &str) -> Result<Option<Never>, AllocError> {
    let mut lines = None;
    let mut words = Vec::new(alloc);
    for line in text.lines() {
        if !says(line) {
            continue;
        }
        if lines.is_some() {
            push_line(alloc, &mut words, line)?;
        } else {
            lines = lines_in(line);
            if lines.is_none() {
                return Ok(None);
            }
        }
    }
    match lines {
        Some(lines) => Ok(Some(Never { lines, words })),
        None => Ok(None),
    }
}

/// The states in the text of a `NAME.watch.never`, a line each. Empty lines, and those that begin with `#`, say nothing. The only error is
/// that memory ends.
pub fn states_in<'t>(alloc: Global, text: &'t str) -> Result<Vec<&'t str>, AllocError> {
    let mut states = Vec::new(alloc);
    for line in text.lines() {
        if says(line) {
            states.push(line)?;
        }
    }
    Ok(states)
}
