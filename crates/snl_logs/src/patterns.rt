//! Forms of texts: pieces, with anything between them.

use memchr::memmem;

/// The form of a text: pieces that stand in it, the first one at its begin, the last one at its end, and anything between them.
#[derive(Drop)]
pub struct Pattern {
    pieces: Vec<Vec<u8>>,
}

impl Pattern {
    /// The form of these pieces, of which there is at least one.
    pub fn new(pieces: Vec<Vec<u8>>) -> Pattern {
        Pattern { pieces }
    }

    /// The pieces.
    pub fn pieces(&self) -> &[Vec<u8>] {
        self.pieces.as_slice()
    }

    /// Whether a text has this form.
    pub fn matches(&self, text: &[u8]) -> bool {
        match self.pieces.as_slice() {
            [] => false,
            [all] => text == all.as_slice(),
            [first, middle @ .., last] => match between(text, first.as_slice(), last.as_slice()) {
                Some(rest) => are_in_order(rest, middle),
                None => false,
            },
        }
    }
}

/// What stands between a text's begin and its end.
fn between<'t>(text: &'t [u8], begin: &[u8], end: &[u8]) -> Option<&'t [u8]> {
    text.strip_prefix(begin)?.strip_suffix(end)
}

/// Whether pieces stand in a text, each behind the one before it.
fn are_in_order(text: &[u8], pieces: &[Vec<u8>]) -> bool {
    let mut rest = text;
    for piece in pieces {
        match behind(rest, piece.as_slice()) {
            Some(left) => rest = left,
            None => return false,
        }
    }
    true
}

/// What stands in a text behind the first of a piece.
fn behind<'t>(text: &'t [u8], piece: &[u8]) -> Option<&'t [u8]> {
    let place = memmem::find(text, piece)?;
    text.get(place..)?.get(piece.len()..)
}
