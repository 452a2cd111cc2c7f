use thiserror::Error;

/// Why tokens can't be parsed. A token is named by its number, from 0; the end of the tokens by their
/// count.
#[derive(Clone, Copy, Debug, PartialEq, Eq, Error)]
pub enum ParseFault {
    /// Nothing that begins with the tokens before goes on with this one; at the end: all of them begin
    /// something and are nothing whole.
    #[error("syntax error at token {0}")]
    Unexpected(usize),
    /// What goes on with this token is nested deeper than the limit.
    #[error("nesting too deep at token {0}")]
    TooDeep(usize),
    /// The tree found no room in memory.
    #[error("out of memory")]
    Memory,
}
