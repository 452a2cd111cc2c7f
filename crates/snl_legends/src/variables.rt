//! The variables of links, as a user knows them.

use snl_links::Link;

/// The variable of a link.
#[derive(Clone, Copy)]
pub struct Variable<'s> {
    /// As spelled in the source.
    pub name: &'s [u8],
    /// The number of its element, where its elements have links of their own.
    pub element: Option<usize>,
    /// The line of its declaration, from 1, as markers count it.
    pub line: usize,
}

/// Whether a byte may stand in a name.
fn is_of_name(byte: u8) -> bool {
    byte.is_ascii_alphanumeric() || byte == b'_'
}

/// The name that begins at an offset of a source.
fn name_at(source: &[u8], offset: usize) -> &[u8] {
    let Some(left) = source.get(offset..) else {
        return b"";
    };
    for (at, byte) in left.iter().enumerate() {
        if !is_of_name(*byte) {
            return &left[..at];
        }
    }
    left
}

/// Whether another link has elements of the same variable.
fn is_shared(links: &[Link], offset: usize) -> bool {
    let mut count = 0usize;
    for link in links {
        if (link.variable.offset as usize) == offset {
            if count == 1 {
                return true;
            }
            count = 1;
        }
    }
    false
}

/// The variable of a link of a source.
pub fn variable_of<'s>(source: &'s [u8], links: &[Link], link: &Link) -> Variable<'s> {
    let place = link.variable;
    let element = if is_shared(links, place.offset as usize) {
        Some(link.first)
    } else {
        None
    };
    Variable {
        name: name_at(source, place.offset as usize),
        element,
        line: place.line as usize,
    }
}
