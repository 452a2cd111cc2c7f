//! What a program is at a time of a recorded day.
//!
//! `moments` runs a program over a trace, line by line, and keeps what it is at some times: its states, its variables, its event flags,
//! what it knows of channels, and its queues. Or it keeps what the program is where it faults, or where it came into a state last.
#![tactic(auto)]

mod history;
pub mod laws;
mod line_step;
mod moment_store;
mod subject;
mod times;
mod trace_walk;
mod wakes;
mod walk_end;
mod walks;

pub use history::{At, ChannelHeard, PutHeard, RunHistory};
pub use subject::{Subject, subject_of};
pub use trace_walk::moments;
pub use walks::{Asked, Close, Kind, Moment};
