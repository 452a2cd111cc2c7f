//! What is noted of the macros of a call: those that the source does not use.

use indexmap::IndexSet;
use snl_output::push_all;
use snl_text::{Kind, LexFault, Token, lex};
use std::alloc::{AllocError, Global};
use std::str;
use strsim::levenshtein;

/// Adds the macros that the name of a channel names, as `{AREA}`.
fn push_macros<'s>(name: &'s str, used: &mut IndexSet<&'s str>) -> Result<(), AllocError> {
    for piece in name.split('{').skip(1) {
        if let Some((inner, _)) = piece.split_once('}') {
            used.insert(inner)?;
        }
    }
    Ok(())
}

/// Adds the macros in a name that stands between quotes.
fn push_quoted<'s>(text: &'s [u8], used: &mut IndexSet<&'s str>) -> Result<(), AllocError> {
    match str::from_utf8(text) {
        Ok(name) => push_macros(name, used),
        Err(_) => Ok(()),
    }
}

/// The macros that the `assign` definitions of a source use.
fn used_in<'s>(alloc: Global, tokens: &[Token<'s>]) -> Result<IndexSet<&'s str>, AllocError> {
    let mut used = IndexSet::new(alloc);
    let mut assigns = false;
    for token in tokens {
        match token.kind {
            Kind::Assign => assigns = true,
            Kind::Semicolon => assigns = false,
            Kind::Text if assigns => push_quoted(token.text, &mut used)?,
            _ => {}
        }
    }
    Ok(used)
}

/// The macros that MACROS give a value.
fn given_in<'m>(alloc: Global, macros: &'m str) -> Result<IndexSet<&'m str>, AllocError> {
    let mut given = IndexSet::new(alloc);
    for piece in macros.split(',') {
        if let Some((name, _)) = piece.split_once('=') {
            given.insert(name.trim())?;
        }
    }
    Ok(given)
}

/// How far a macro is from another one: none where they differ in small and capital letters alone; else how many changes lead
/// from one to the other. None where these are more than half of its letters.
fn distance(alloc: Global, name: &str, other: &str) -> Result<Option<usize>, AllocError> {
    if name.eq_ignore_ascii_case(other) {
        return Ok(Some(0));
    }
    let changes = levenshtein(alloc, name, other)?;
    Ok(if changes <= name.len() / 2 {
        Some(changes)
    } else {
        None
    })
}

/// The macro that may have been meant: the nearest of those that the source uses and that have no value, where one is
/// nearer than all others.
fn meant<'n>(
    alloc: Global,
    used: &IndexSet<&'n str>,
    given: &IndexSet<&'n str>,
    name: &'n str,
) -> Result<Option<&'n str>, AllocError> {
    let mut found = None;
    let mut least = usize::MAX;
    for other in used {
        if !given.contains(other) {
            if let Some(changes) = distance(alloc, name, other)? {
                if changes < least {
                    least = changes;
                    found = Some(*other);
                } else if changes == least {
                    found = None;
                }
            }
        }
    }
    Ok(found)
}

/// Adds that the source does not use a macro, and which one may have been meant.
fn push_note(out: &mut Vec<u8>, name: &str, meant: Option<&str>) -> Result<(), AllocError> {
    let front = b"snl: note: the source uses no macro '";
    push_all(out, &[front, name.as_bytes(), b"'"])?;
    if let Some(meant) = meant {
        push_all(out, &[b"; did you mean '", meant.as_bytes(), b"'?"])?;
    }
    out.extend_from_slice(b"\n")
}

/// A line for each macro that has a value and is not used.
fn notes_among<'n>(
    alloc: Global,
    used: &IndexSet<&'n str>,
    given: &IndexSet<&'n str>,
) -> Result<Vec<u8>, AllocError> {
    let mut out = Vec::new(alloc);
    for name in given {
        if !used.contains(name) {
            let meant = meant(alloc, used, given, name)?;
            push_note(&mut out, name, meant)?;
        }
    }
    Ok(out)
}

/// A line for each macro of MACROS that the source of these tokens does not use.
fn notes_of<'n>(
    alloc: Global,
    tokens: &[Token<'n>],
    macros: &'n str,
) -> Result<Vec<u8>, AllocError> {
    let used = used_in(alloc, tokens)?;
    let given = given_in(alloc, macros)?;
    notes_among(alloc, &used, &given)
}

/// A line for each macro that MACROS give a value and that no `assign` of a source uses, with the one that may have been meant.
/// Nothing where the source is no list of tokens. Fails only where memory ran out.
pub fn macro_notes<'n>(
    alloc: Global,
    source: &'n [u8],
    macros: &'n str,
) -> Result<Vec<u8>, AllocError> {
    match lex(alloc, source) {
        Ok(lexed) => notes_of(alloc, lexed.tokens.as_slice(), macros),
        Err(LexFault::Memory) => Err(AllocError),
        Err(_) => Ok(Vec::new(alloc)),
    }
}
