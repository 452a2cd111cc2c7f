//! Copies that are never written: whether a refresh or code can store into a state set's copy of a variable.
#![tactic(auto)]

mod calling;
mod copies;
mod expressions;
pub mod laws;
mod parts;
mod statements;
mod touches;
mod unwritten;

pub use copies::is_written;
pub use unwritten::{Unwritten, unwritten_into};
