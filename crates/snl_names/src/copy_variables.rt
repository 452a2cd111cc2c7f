//! A variable that the copy of a state set holds, or a function.

use crate::sites::Size;
use snl_syntax::Initialiser;
use snl_text::Token;

/// A variable of a state set's copy, or of a function.
#[derive(Clone, Copy)]
pub struct CopyVariable<'p, 'a> {
    /// Its name, with the place of its declaration.
    pub name: Token<'a>,
    /// The least and the greatest number of its type; those of `long` where the type is not
    /// supported.
    pub range: (i64, i64),
    /// What its declaration says of its size.
    pub size: Size,
    /// What it begins with, if anything is written.
    pub initial: Option<&'p Initialiser<'a>>,
}
