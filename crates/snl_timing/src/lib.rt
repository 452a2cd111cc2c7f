//! What is known of the times of a program, read off its tree: that no `delay` is longer than so many milliseconds, and how many words
//! each state set has.
#![tactic(auto)]

mod blocks;
mod constants;
mod expressions;
mod parts;
mod programs;

pub use programs::timing_of;
