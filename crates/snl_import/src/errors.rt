//! Why a trace cannot be written on.

ghost use Rattle.std.specs.Prelude.{◌≡◌, ◌+◌, IfOk};

use snl_output::SinkFault;
use std::alloc::{AllocError, AllocFailed};
use thiserror::Error;

/// Why a trace cannot be written on.
#[derive(Clone, Copy, Debug, PartialEq, Eq, Drop, Error)]
pub enum ImportError {
    /// Memory ends.
    #[error("out of memory")]
    Memory,
    /// A count would be 2^64.
    #[error("too many lines")]
    TooMany,
    /// A log cannot be read on: the number of it, from 0 on.
    #[error("a log cannot be read")]
    Unreadable(usize),
    /// What was written could not be handed on.
    #[error("the trace cannot be written")]
    Unwritable,
}

impl From<AllocError> for ImportError {
    ghost use Rattle.snl_import.specs.declared.errors.ImportError.TheVariants.{Memory};

    ghost from_gives = { λ _ error. error ≡ Memory };

    fn from(_: AllocError) -> Self {
        ImportError::Memory
    }
}

impl<T: Drop> From<AllocFailed<T>> for ImportError {
    ghost use Rattle.snl_import.specs.declared.errors.ImportError.TheVariants.{Memory};

    ghost from_gives = { λ _ error. error ≡ Memory };

    fn from(_: AllocFailed<T>) -> Self {
        ImportError::Memory
    }
}

impl From<SinkFault> for ImportError {
    ghost use Rattle.snl_import.specs.declared.errors.ImportError.TheVariants.{Unwritable};

    ghost from_gives = { λ _ error. error ≡ Unwritable };

    fn from(_: SinkFault) -> Self {
        ImportError::Unwritable
    }
}

/// A count with one more.
pub fn one_more(count: u64) -> Result<u64, ImportError>
    ensures { IfOk result (λ more. more ≡ count + 1) }
{
    count.checked_add(1).ok_or(ImportError::TooMany)
}
