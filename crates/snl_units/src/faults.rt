//! What may be wrong with a file of units.

use std::alloc::{AllocError, AllocFailed};
use thiserror::Error;

/// What is wrong with a line. `Display` gives the text for the user.
#[derive(Clone, Copy, Debug, PartialEq, Eq, Drop, Error)]
pub enum LineFault {
    /// A byte is no printable ASCII character.
    #[error("not ASCII text")]
    NotAscii,
    /// The first word is none that is known.
    #[error("unknown word")]
    UnknownWord,
    /// There is a field too many or too few, or an empty one.
    #[error("wrong number of fields")]
    FieldCount,
    /// A number is none, or is too large.
    #[error("bad number")]
    BadNumber,
    /// A byte of a text has to stand as `\xNN`, or a text has no number.
    #[error("bad text")]
    BadText,
    /// No channel of such a name can have what the word says.
    #[error("bad name")]
    BadName,
    /// The same was said of the channel before, or of one text two numbers.
    #[error("named twice")]
    NamedTwice,
}

/// Why a file of units cannot be read. `Display` gives the text for the user.
#[derive(Clone, Copy, Debug, PartialEq, Eq, Drop, Error)]
pub enum UnitsFault {
    /// Memory ends.
    #[error("out of memory")]
    Memory,
    /// A line is wrong: its number, from 1 on, and how.
    #[error("units:{0}: {1}")]
    BadLine(u64, LineFault),
}

/// Why a line cannot be read.
#[derive(Clone, Copy, Debug, PartialEq, Eq, Drop)]
pub(crate) enum Refusal {
    /// Memory ends.
    Memory,
    /// It is wrong.
    Fault(LineFault),
}

impl From<AllocError> for Refusal {
    fn from(_: AllocError) -> Refusal {
        Refusal::Memory
    }
}

impl<T: Drop> From<AllocFailed<T>> for Refusal {
    fn from(_: AllocFailed<T>) -> Refusal {
        Refusal::Memory
    }
}

impl From<LineFault> for Refusal {
    fn from(fault: LineFault) -> Refusal {
        Refusal::Fault(fault)
    }
}

/// Why a value that a person gives is none of a channel. `Display` gives the text for the user.
#[derive(Clone, Copy, Debug, PartialEq, Eq, Drop, Error)]
pub enum ValueFault {
    /// It is no number, and no text that stands for one.
    #[error("is no number, and no text that the file of units knows")]
    NoNumber,
    /// In the unit of the trace it is no whole number.
    #[error("is no whole number in the unit of the trace")]
    NotWhole,
    /// In the unit of the trace it is beyond 64 bits.
    #[error("is beyond 64 bits in the unit of the trace")]
    TooLarge,
}

/// Why a line cannot be told in the units of a trace.
#[derive(Clone, Copy, Debug, PartialEq, Eq, Drop)]
pub enum PutFault<'t> {
    /// Memory ends.
    Memory,
    /// A value of it is none of its channel.
    Value(&'t str, ValueFault),
}

impl<'t> From<AllocError> for PutFault<'t> {
    fn from(_: AllocError) -> PutFault<'t> {
        PutFault::Memory
    }
}
