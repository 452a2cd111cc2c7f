//! Laws of what functions leave behind: no run depends on what a call left in the words of functions.
#![tactic(auto)]

pub mod laws;
