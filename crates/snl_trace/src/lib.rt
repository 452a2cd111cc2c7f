//! Traces: what the lines of a recorded trace say, and the run of a machine over them.
//!
//! `read_line` says what one line tells, or what is wrong with it; `run` takes a trace from a
//! `Source`, in whatever pieces it comes, and hands the lines of the run to a sink. The rules are told
//! in `docs/TRACE.md`.
#![tactic(auto)]

mod events;
mod fields;
mod lanes;
pub mod laws;
mod lines;
mod memory;
mod next_lines;
mod numbers;
mod plain;
mod reader;
mod runner;
mod trace_faults;
mod words;

pub use events::Events;
pub use lines::first_line;
pub use memory::{Feed, Sheet};
pub use plain::{Plain, plain_line};
pub use reader::{Heard, read_event, read_line};
pub use runner::{End, run};
pub use snl_output::{Source, SourceFault};
pub use trace_faults::{LINE_LIMIT, TIME_LIMIT, TraceFault};
pub use words::{LineValues, Telling};
