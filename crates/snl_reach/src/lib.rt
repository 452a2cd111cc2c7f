//! The states of a program that can be reached from the first one of their state set.
#![tactic(auto)]

mod reach;
mod state_numbers;
mod targets;

pub use reach::{reached_states, unreached};
