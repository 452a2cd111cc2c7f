//! The section of a name, and the name that is nearest to one.

use crate::every::NAMES;
use crate::{forms, lints, names, refusals, warnings};
use std::alloc::{AllocError, Global};
use strsim::generic_levenshtein;

/// The section of an error that is told of names or of what a program is made of; else that of a warning or a lint.
fn later_page(name: &str) -> Option<&'static str> {
    if let Some(text) = forms::page_of(name) {
        Some(text)
    } else if let Some(text) = warnings::page_of(name) {
        Some(text)
    } else {
        lints::page_of(name)
    }
}

/// The section of a message, as `E20` or `W7`, or of a lint, as `shared`, with a newline at its end; none where there is no such name.
pub fn page_named(name: &str) -> Option<&'static str> {
    if let Some(text) = refusals::page_of(name) {
        Some(text)
    } else if let Some(text) = names::page_of(name) {
        Some(text)
    } else {
        later_page(name)
    }
}

/// The bytes of the name that differs from one by the fewest.
fn nearest_bytes(alloc: Global, name: &[u8]) -> Result<&'static [u8], AllocError> {
    let mut nearest: &'static [u8] = b"E01";
    let mut fewest = usize::MAX;
    for other in NAMES {
        let changes = generic_levenshtein(alloc, name, other)?;
        if changes < fewest {
            nearest = other;
            fewest = changes;
        }
    }
    Ok(nearest)
}

/// The name of the section that differs from a name by the fewest bytes, the first one of several. Fails only where memory ends.
pub fn nearest_name(alloc: Global, name: &str) -> Result<&'static str, AllocError> {
    let nearest = nearest_bytes(alloc, name.as_bytes())?;
    Ok(str::from_utf8(nearest).unwrap_or("E01"))
}
