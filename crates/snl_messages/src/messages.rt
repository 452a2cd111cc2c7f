//! Messages about a program.

use snl_text::Pos;

/// How bad it is. An error keeps a program from running.
#[derive(Clone, Copy, Debug, PartialEq, Eq, PartialOrd, Ord)]
pub enum Severity {
    /// The program is refused.
    Error,
    /// The program is accepted all the same.
    Warning,
}

/// One message about a place of a program.
#[derive(Debug, Drop)]
pub struct Message {
    /// Where it stands in the source.
    pub pos: Pos,
    /// How bad it is.
    pub severity: Severity,
    /// What stands after the letter E or W.
    pub number: u8,
    /// What stands after the number. It may quote bytes of the source.
    pub text: Vec<u8>,
}
