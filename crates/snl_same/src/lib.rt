//! Two programs over one trace: where what they do differs first.
//!
//! `ready_of` makes a program ready that has no error; `compare` runs two of them over a trace, line by line, and tells the first
//! line of the trace at which they differ, by what each wrote there or by how it ended.
#![tactic(auto)]

mod alone;
mod clauses;
mod comparison;
mod differences;
mod divergence;
mod filters;
mod kept_lines;
pub mod laws;
mod line_step;
mod loader;
mod logs;
mod pages;
mod plain_lines;
mod puts;
mod report;
mod scenes;
mod sides;
mod sums;
mod words;

pub use comparison::{Compared, compare};
pub use differences::{Apart, Close, Difference};
pub use divergence::apart_at;
pub use filters::Filter;
pub use loader::ready_of;
pub use sides::Side;
