//! Runs of a program beside the outputs that are wanted of them.
//!
//! `tried` runs a program over a trace, and tells whether its output is what a file has and its status is the wanted one. `untried` is
//! the same of a program that has an error, which writes nothing. `Nothing` is a trace without a line. `sought` searches a program, and
//! tells whether it is certain that nothing is to be found.
#![tactic(auto)]

mod nevers;
mod nothing;
mod trials;

pub use nevers::{SearchTrial, sought};
pub use nothing::Nothing;
pub use trials::{Trial, tried, untried};
