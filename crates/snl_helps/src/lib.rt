//! What helps where a source is refused: a line of advice for the forms that are most often written.
#![tactic(auto)]

mod helps;
pub mod laws;
mod lines;
mod names;

pub use helps::help_at;
pub use lines::help_for;
pub use names::{call_help_at, name_help_at};
