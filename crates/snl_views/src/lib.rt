//! What the words of the companion do: from the bytes of a program and those of a trace to an answer with its text.
//!
//! `waits` says when a program began, or what it still waits for where a trace ends. `run_whole` and `run_folded` run it with notes
//! and a summary for a person.
#![tactic(auto)]

mod awaited;
mod bad_lines;
mod clock;
mod escaped;
mod hints;
pub mod laws;
mod overheard;
mod preparing;
mod running;
mod staging;
mod starting;
mod summaries;
mod telling;
mod units;
mod unused_macros;
mod waiting;

pub use awaited::Awaited;
pub use overheard::Overheard;
pub use running::{RunAnswer, Subject, run_folded, run_whole};
pub use unused_macros::macro_notes;
pub use waiting::{Answer, WaitsOutcome, waits};
