//! What comes of a test.

use snc::Status;
use std::alloc::AllocError;

/// What came of a test, with what stands behind its name in the answer.
#[derive(Drop)]
pub enum Verdict {
    /// It is right.
    Right,
    /// It is not.
    Wrong(Vec<u8>),
    /// A file of it could not be read or written.
    Stuck(Vec<u8>),
    /// What came was written.
    Written(Vec<u8>),
}

/// Why a test was not run to its end.
#[derive(Drop)]
pub enum Halt {
    /// That is what comes of it.
    Verdict(Verdict),
    /// The call ends.
    End(Status),
}

impl From<AllocError> for Halt {
    fn from(_error: AllocError) -> Halt {
        Halt::End(Status::Memory)
    }
}

/// A test is wrong, by a text that was made of it.
pub fn wrong(text: Result<String, AllocError>) -> Halt {
    match text {
        Ok(text) => wrong_bytes(text.into_bytes()),
        Err(_) => Halt::End(Status::Memory),
    }
}

/// The same, by a text that need not be one of words.
pub fn wrong_bytes(text: Vec<u8>) -> Halt {
    Halt::Verdict(Verdict::Wrong(text))
}

/// A file of a test could not be read or written, by a text that was made of it.
pub fn stuck(text: Result<String, AllocError>) -> Halt {
    match text {
        Ok(text) => Halt::Verdict(Verdict::Stuck(text.into_bytes())),
        Err(_) => Halt::End(Status::Memory),
    }
}
