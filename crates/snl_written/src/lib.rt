//! The lines of a trace, written: each reads as the event that it was written for.
//!
//! `docs/TRACE.md` tells what a trace is. Who writes one keeps the order of time himself, and lines of at most 32,768 bytes.
#![tactic(auto)]

pub mod laws;
mod lines;

pub use lines::{is_name, write_done, write_down, write_tick, write_up, write_values};
