//! What can be wrong with a line of a trace, and the limits.

use thiserror::Error;

/// The most bytes of a line, its newline not counted.
pub const LINE_LIMIT: usize = 32_768;

/// The latest time, in milliseconds.
pub const TIME_LIMIT: u64 = 1_000_000_000_000_000;

/// What is wrong with a line of a trace. Where several are, it is the first of these, but for
/// `LineTooLong`, which comes before all others.
#[derive(Clone, Copy, Debug, PartialEq, Eq, Error)]
pub enum TraceFault {
    /// A byte that is neither printable ASCII nor a tab.
    #[error("not ASCII text")]
    NotAscii,
    /// The first field is not 1 to 16 digits of at most 10^15.
    #[error("bad time")]
    BadTime,
    /// The time is below that of the last event.
    #[error("time goes back")]
    BackInTime,
    /// The second field is none of the words of a trace.
    #[error("unknown word")]
    UnknownWord,
    /// Too few fields, or too many.
    #[error("wrong number of fields")]
    FieldCount,
    /// A value is not an optional `-` and 1 to 19 digits within the range of 64 bits.
    #[error("bad value")]
    BadValue,
    /// A value leaves the range of a variable that would keep it.
    #[error("value out of range")]
    OutOfRange,
    /// More than [`LINE_LIMIT`] bytes without a newline.
    #[error("line too long")]
    LineTooLong,
}
