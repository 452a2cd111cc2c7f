//! What notes about a run name, made of a checked program while it is lent.
//!
//! `set_legends` makes the names of its state sets and states, and of each clause the front of its note and the variables that its
//! condition sees.
#![tactic(auto)]

mod conditions;
mod legends;
mod variables;

pub use conditions::Conditions;
pub use legends::set_legends;
pub use variables::{Variable, variable_of};
