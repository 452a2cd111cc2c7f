//! A requirement as an observer: a program that runs over what another one hears, puts and does.
//!
//! `program_of` makes a program ready that has no error; `observe` runs one over a trace while the other, the requirement, hears
//! each line of the trace, each put and each transition, and tells the first time that it comes into a state that must not be.
#![tactic(auto)]

mod closes;
mod current_states;
pub mod laws;
mod line_step;
mod lines;
mod loader;
mod logs;
mod observation;
mod pages;
mod programs;
mod report;
mod requirement_input;
mod requirement_output;
mod trail;
mod watched_step;

pub use closes::{Close, Ending};
pub use current_states::ForbiddenState;
pub use line_step::{Done, line_done};
pub use lines::{LineHeard, line_heard};
pub use loader::program_of;
pub use observation::{Observed, observe};
pub use pages::TextSink;
pub use programs::Program;
