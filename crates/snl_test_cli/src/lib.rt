//! What `snl test` does with the system it runs on: the files of its tests, their runs and searches, what `--bless` writes, and what is told.
#![tactic(auto)]

mod baseline;
mod nevers;
mod requirements;
mod tests;
mod trial;

pub use tests::{answered_test, check_tests};
