//! What can be wrong with a source.

ghost use Rattle.snl_text.specs.Faults.{fault_of, fault_pos, fault_text};
ghost use Rattle.std.specs.Prelude.{◌≡◌, option_map};

use crate::tokens::Pos;
use std::alloc::AllocError;
use thiserror::Error;

/// Why a source can't be cut into tokens, with the first place where it can't.
#[derive(Clone, Copy, Debug, PartialEq, Eq, Error)]
pub enum LexFault {
    /// No lexeme begins with this byte, or a line that begins with `#` is no marker.
    #[error("bad byte")]
    BadByte(Pos),
    /// A `/*` that no `*/` follows.
    #[error("unclosed comment")]
    OpenComment(Pos),
    /// A string whose closing quote does not come before a newline or another control byte.
    #[error("unclosed string")]
    OpenString(Pos),
    /// A word that begins like a number and is none, or is too large.
    #[error("bad number")]
    BadNumber(Pos),
    /// More than [`SOURCE_LIMIT`](crate::SOURCE_LIMIT) bytes. Stands for the whole source, at its begin.
    #[error("source longer than 1048576 bytes")]
    SourceTooLong(Pos),
    /// A `%{` that no `}%` follows.
    #[error("unclosed embedded C")]
    OpenEmbeddedC(Pos),
    /// The lists found no room in memory.
    #[error("out of memory")]
    Memory,
}

impl From<AllocError> for LexFault {
    ghost use Rattle.snl_text.specs.declared.faults.LexFault.TheVariants.{Memory};

    ghost from_gives = { λ _ fault. fault ≡ Memory };

    fn from(_: AllocError) -> Self {
        LexFault::Memory
    }
}

impl LexFault {
    /// What a message says of it; None for [`LexFault::Memory`], which is no fault of the source.
    pub fn text(&self) -> Option<&'static str>
        ensures { option_map (λ text. text.now) result ≡ fault_text self.now }
    {
        match self {
            LexFault::BadByte(_) => Some("bad byte"),
            LexFault::OpenComment(_) => Some("unclosed comment"),
            LexFault::OpenString(_) => Some("unclosed string"),
            LexFault::BadNumber(_) => Some("bad number"),
            LexFault::SourceTooLong(_) => Some("source longer than 1048576 bytes"),
            LexFault::OpenEmbeddedC(_) => Some("unclosed embedded C"),
            LexFault::Memory => None,
        }
    }
}

impl LexFault {
    /// Where the source is wrong; None for [`LexFault::Memory`].
    pub fn pos(&self) -> Option<Pos>
        ensures { result ≡ fault_pos self.now }
    {
        match self {
            LexFault::BadByte(pos)
            | LexFault::OpenComment(pos)
            | LexFault::OpenString(pos)
            | LexFault::BadNumber(pos)
            | LexFault::SourceTooLong(pos)
            | LexFault::OpenEmbeddedC(pos) => Some(*pos),
            LexFault::Memory => None,
        }
    }
}

/// What keeps any lexeme from standing at a place.
#[derive(Clone, Copy, Debug, PartialEq, Eq)]
pub enum Flaw {
    BadByte,
    OpenComment,
    OpenString,
    BadNumber,
    OpenEmbeddedC,
}

impl Flaw {
    /// The fault at a place.
    pub fn at(self, pos: Pos) -> LexFault
        ensures { result ≡ fault_of self pos }
    {
        match self {
            Flaw::BadByte => LexFault::BadByte(pos),
            Flaw::OpenComment => LexFault::OpenComment(pos),
            Flaw::OpenString => LexFault::OpenString(pos),
            Flaw::BadNumber => LexFault::BadNumber(pos),
            Flaw::OpenEmbeddedC => LexFault::OpenEmbeddedC(pos),
        }
    }
}
