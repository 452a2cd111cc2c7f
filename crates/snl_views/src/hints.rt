//! What a user may have meant by a name that is none of a program's channels.

use snl_links::Link;
use std::alloc::{AllocError, Global};
use std::str;
use strsim::levenshtein;

/// What a user may have meant.
#[derive(Clone, Copy)]
pub(crate) enum Hint<'n> {
    /// The name without its quotes.
    NoQuotes,
    /// Another name.
    Name(&'n [u8]),
}

/// The one of several names that fits; the same name counts once.
#[derive(Clone, Copy)]
enum Found<'n> {
    Nothing,
    One(&'n [u8]),
    Several,
}

impl<'n> Found<'n> {
    /// What is found with one more name.
    fn with(self, name: &'n [u8]) -> Found<'n> {
        match self {
            Found::Nothing => Found::One(name),
            Found::One(other) if other == name => self,
            Found::One(_) | Found::Several => Found::Several,
        }
    }

    /// The name that was found alone.
    fn name(self) -> Option<&'n [u8]> {
        match self {
            Found::One(name) => Some(name),
            Found::Nothing | Found::Several => None,
        }
    }
}

/// A name without the quotes round it; None where it has none.
fn unquoted(name: &[u8]) -> Option<&[u8]> {
    match name {
        [b'"', inner @ .., b'"'] => Some(inner),
        _ => None,
    }
}

/// Whether a link has the channel of a name.
fn is_channel(links: &[Link], name: &[u8]) -> bool {
    links.iter().any(|link| link.name.as_slice() == name)
}

/// The channel that is the same name but for small and capital letters, if there is one alone.
fn same_but_case<'n>(links: &'n [Link], name: &[u8]) -> Option<&'n [u8]> {
    let mut found = Found::Nothing;
    for link in links {
        if link.name.as_slice().eq_ignore_ascii_case(name) {
            found = found.with(link.name.as_slice());
        }
    }
    found.name()
}

/// Whether one of two names begins with the other, which has at least half as many bytes.
fn begin_alike(left: &[u8], right: &[u8]) -> bool {
    let (shorter, longer) = if left.len() < right.len() {
        (left, right)
    } else {
        (right, left)
    };
    shorter.len() >= longer.len() / 2 && longer.starts_with(shorter)
}

/// The channel of which one name begins with the other, if there is one alone.
fn begun_alike<'n>(links: &'n [Link], name: &[u8]) -> Option<&'n [u8]> {
    let mut found = Found::Nothing;
    for link in links {
        if !link.name.is_empty() && begin_alike(link.name.as_slice(), name) {
            found = found.with(link.name.as_slice());
        }
    }
    found.name()
}

/// How many changes lead from one name to another; None where these are more than some, or one is no text.
fn distance(
    alloc: Global,
    name: &[u8],
    other: &[u8],
    most: usize,
) -> Result<Option<usize>, AllocError> {
    if name.len().abs_diff(other.len()) > most {
        return Ok(None);
    }
    let (Ok(name), Ok(other)) = (str::from_utf8(name), str::from_utf8(other)) else {
        return Ok(None);
    };
    let changes = levenshtein(alloc, name, other)?;
    Ok(if changes <= most { Some(changes) } else { None })
}

/// The nearest channel, within a fifth of the name's bytes, if there is one alone.
fn nearest<'n>(
    alloc: Global,
    links: &'n [Link],
    name: &[u8],
) -> Result<Option<&'n [u8]>, AllocError> {
    let mut most = name.len() / 5;
    let mut found = Found::Nothing;
    for link in links {
        if let Some(changes) = distance(alloc, name, link.name.as_slice(), most)? {
            if changes < most {
                found = Found::Nothing;
                most = changes;
            }
            found = found.with(link.name.as_slice());
        }
    }
    Ok(found.name())
}

/// What may have been meant by a name that is no channel: the name without its quotes; the channel that differs in small and
/// capital letters alone; the only one that begins with it, or with which it begins; or, where channels are compared, the
/// nearest one. Fails only where memory ran out.
pub(crate) fn hint_of<'n>(
    alloc: Global,
    links: &'n [Link],
    name: &[u8],
    compares: bool,
) -> Result<Option<Hint<'n>>, AllocError> {
    if let Some(inner) = unquoted(name) {
        if is_channel(links, inner) {
            return Ok(Some(Hint::NoQuotes));
        }
    }
    if let Some(meant) = same_but_case(links, name) {
        return Ok(Some(Hint::Name(meant)));
    }
    if let Some(meant) = begun_alike(links, name) {
        return Ok(Some(Hint::Name(meant)));
    }
    if !compares {
        return Ok(None);
    }
    match nearest(alloc, links, name)? {
        Some(meant) => Ok(Some(Hint::Name(meant))),
        None => Ok(None),
    }
}
