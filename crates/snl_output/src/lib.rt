//! The lines of a run, and the sinks that they go to.
#![tactic(auto)]

mod faults;
mod formats;
mod held;
pub mod laws;
mod laying;
mod lines;
mod pieces;
mod printing;
mod rooms;
mod sinks;
mod sources;
mod texts;

pub use faults::{Stop, fault_text};
pub use formats::{Format, Part};
pub use held::Line;
pub use lines::{
    add_number, add_put, go_text, print_text, write_exit, write_fault, write_go, write_start,
    write_timed,
};
pub use pieces::{push_all, push_counted, push_told};
pub use printing::{write_blank, write_print};
pub use rooms::Room;
pub use sinks::{Fired, Put, RefusalCause, Refused, Sink, SinkFault, Went};
pub use sources::{Source, SourceFault};
pub use texts::{Short, Text};
