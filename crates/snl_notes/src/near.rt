//! Names that may have been meant by another one.

use crate::tokens::{is_at, is_function, is_state, is_type};
use snl_text::{Kind, Token};
use std::alloc::{AllocError, Global};
use strsim::generic_levenshtein;

/// Which names of a program may be meant.
#[derive(Clone, Copy)]
pub enum Sort {
    /// Those of variables and event flags.
    Declared,
    /// Those of functions.
    Function,
    /// Those of states.
    State,
}

/// A name that is nearest so far, and by how many changes.
#[derive(Clone, Copy)]
struct Nearest<'a> {
    name: Option<&'a [u8]>,
    changes: usize,
}

/// How many changes of bytes may lead from a name to the one that was meant: a third of them, rounded, and never all.
fn most_changes(name: &[u8]) -> usize {
    match name.len() {
        0 | 1 => 0,
        2 => 1,
        length => length.saturating_add(1) / 3,
    }
}

/// Takes a name in the place of the nearest one, where it is nearer.
fn compare<'a>(
    alloc: Global,
    name: &[u8],
    other: &'a [u8],
    nearest: &mut Nearest<'a>,
) -> Result<(), AllocError> {
    if name == other || name.len().abs_diff(other.len()) >= nearest.changes {
        return Ok(());
    }
    let changes = if name.eq_ignore_ascii_case(other) {
        0
    } else {
        generic_levenshtein(alloc, name, other)?
    };
    if changes < nearest.changes {
        nearest.name = Some(other);
        nearest.changes = changes;
    }
    Ok(())
}

/// The nearest of some names, if one is near enough. Fails only where memory ends.
pub fn nearest_word(
    alloc: Global,
    name: &[u8],
    words: &[&'static [u8]],
) -> Result<Option<&'static [u8]>, AllocError> {
    let mut nearest = Nearest {
        name: None,
        changes: most_changes(name).saturating_add(1),
    };
    for word in words {
        compare(alloc, name, *word, &mut nearest)?;
    }
    Ok(nearest.name)
}

/// Whether the token of a number is a name of a sort, where it stands behind a type, or behind a comma of a declaration.
fn is_of_sort(tokens: &[Token], at: usize, sort: Sort, declares: bool) -> bool {
    match sort {
        Sort::Function => is_function(tokens, at),
        Sort::State => is_state(tokens, at),
        Sort::Declared => declares && is_at(tokens, at, Kind::Name),
    }
}

/// Whether a declaration goes on behind a token: it begins with a type, and ends with a semicolon or a brace.
fn goes_on(declares: bool, kind: Kind) -> bool {
    if is_type(kind) {
        true
    } else {
        declares && !matches!(kind, Kind::Semicolon | Kind::OpenBrace | Kind::CloseBrace)
    }
}

/// The nearest name of a sort in a program, if one is near enough. Fails only where memory ends.
pub fn nearest_name<'a>(
    alloc: Global,
    tokens: &[Token<'a>],
    name: &[u8],
    sort: Sort,
) -> Result<Option<&'a [u8]>, AllocError> {
    let mut nearest = Nearest {
        name: None,
        changes: most_changes(name).saturating_add(1),
    };
    let mut declares = false;
    for at in 0..tokens.len() {
        declares = goes_on(declares, tokens[at].kind);
        if is_of_sort(tokens, at, sort, declares) {
            compare(alloc, name, tokens[at].text, &mut nearest)?;
        }
    }
    Ok(nearest.name)
}
