//! Counts of what became of a program, in a file: a first line that says of which program they are, and a line for each count.
//!
//! A `Head` is the first line. `push_tallies` writes the lines behind it, `read_counts` reads what was written, and refuses all else.
#![tactic(auto)]

mod faults;
mod heads;
pub mod laws;
mod lines;
mod parser;
mod tally;

pub use faults::ReadFault;
pub use heads::{Head, Subject, is_counts};
pub use parser::read_counts;
pub use tally::{Tally, push_tallies};
