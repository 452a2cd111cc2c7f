//! What a call answers.

ghost use Rattle.std.specs.Prelude.{◌≡◌};
ghost use Rattle.snc.specs.declared.jobs.Status.TheVariants.{Memory};

use std::alloc::{AllocError, AllocFailed};

/// What a program of ours answers to the shell.
#[derive(Clone, Copy, Debug, PartialEq, Eq)]
pub enum Status {
    /// What was asked for is done.
    Well,
    /// The source has an error.
    SourceErrors,
    /// The words of the call are no call.
    Usage,
    /// A file, the input or the output failed.
    InputOutput,
    /// Memory ran out.
    Memory,
    /// The program faulted while it ran.
    ProgramFault,
    /// A line of the trace is bad.
    TraceFault,
}

impl From<AllocError> for Status {
    ghost from_gives = { λ _ status. status ≡ Memory };

    fn from(_error: AllocError) -> Status {
        Status::Memory
    }
}

impl<T: Drop> From<AllocFailed<T>> for Status {
    ghost from_gives = { λ _ status. status ≡ Memory };

    fn from(_refused: AllocFailed<T>) -> Status {
        Status::Memory
    }
}

impl Status {
    ghost use Rattle.snc.specs.Outcomes.{code_of};

    /// The number that the shell sees.
    pub fn code(self) -> u8
        ensures { result ≡ code_of self }
    {
        match self {
            Status::Well => 0,
            Status::SourceErrors => 1,
            Status::Usage => 2,
            Status::InputOutput => 3,
            Status::Memory => 4,
            Status::ProgramFault => 5,
            Status::TraceFault => 6,
        }
    }
}

/// What the rules say of a program.
#[derive(Debug, Drop)]
pub struct Report {
    /// A line for each message, in the order of the source.
    pub messages: Vec<u8>,
    /// The tables as text, where they were asked for and no message is an error; else empty.
    pub tables: Vec<u8>,
    /// `Well`, or `SourceErrors` where a message is an error.
    pub status: Status,
}
