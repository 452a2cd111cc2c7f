//! The check of a program: all its messages, and the program itself where none of them is an error.
//!
//! The rules are told in `docs/MESSAGES.md`, and stand in the crates below.
#![tactic(auto)]

mod checked;
mod findings;
pub mod laws;

pub use checked::{Checked, Outcome, check};
pub use snl_messages::{Message, Severity};
pub use snl_resolve::Options;
