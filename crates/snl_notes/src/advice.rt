//! What stands below a note.

use crate::helps::Help;

/// A change of the source.
#[derive(Clone, Copy)]
pub struct Edit {
    /// Where it begins.
    pub offset: usize,
    /// The line of that.
    pub line: usize,
    /// How many bytes it takes the place of.
    pub length: usize,
    /// What stands there then, in three pieces.
    pub text: [&'static [u8]; 3],
}

/// What stands below a note.
#[derive(Clone, Copy)]
pub struct Advice<'a> {
    /// What helps.
    pub help: Option<Help<'a>>,
    /// What else there is to know.
    pub also: Option<Help<'a>>,
    /// The change of the source that is the help.
    pub edit: Option<Edit>,
}

impl<'a> Advice<'a> {
    /// What helps, if anything does, and nothing else.
    pub fn of(help: Option<Help<'a>>) -> Advice<'a> {
        Advice {
            help,
            also: None,
            edit: None,
        }
    }
}
