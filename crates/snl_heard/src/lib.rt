//! What a requirement hears of the lines that a program writes, and how the lines of both stand beside each other.
//!
//! `heard_of` makes lines of a trace of one that a program wrote; a `Page` takes the lines of the program, and those of the
//! requirement, which stand there with `# watch ` in front. `go_end` is what a run writes behind the time of a transition.
#![tactic(auto)]

mod heard;
pub mod laws;
mod page;
mod texts;
mod words;
mod writer;

pub use heard::heard_of;
pub use page::Page;
pub use texts::{WATCH, first_line};
pub use words::{behind, go_end, has_time, word};
