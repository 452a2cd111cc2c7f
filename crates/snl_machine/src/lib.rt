//! The machine that a program runs on: its code, its variables, its channels, its states and its clock.
//!
//! `Machine::load` makes room for all that a run holds; `Machine::event` then does what one line of a trace asks for, and
//! hands the lines of the run to a `Sink`. The rules of a run are told in `docs/LANGUAGE.md`, "How a program runs".
#![tactic(auto)]

mod calls;
mod fused;
pub mod laws;
mod lending;
mod loading;
mod machine;
mod making;
mod snapshots;
mod telling;

pub use loading::Loads;
pub use machine::Machine;
pub use snapshots::Snapshot;
pub use snl_meaning::{Fault, Live, Tied};
pub use snl_output::{Fired, RefusalCause, Refused, Sink, SinkFault, Stop};
pub use snl_schedule::{Event, VALUES_KEPT};
pub use snl_vm::Steps;
