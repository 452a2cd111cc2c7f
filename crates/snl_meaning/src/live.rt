//! How far a program has come.

/// How far a program has come.
#[derive(Clone, Copy, Debug, PartialEq, Eq)]
pub enum Live {
    /// Not every channel is connected and valued that has to be.
    Waiting,
    /// It has started, and has come to no exit and to no fault.
    Running,
    /// Nothing more comes of it.
    Ended,
}
