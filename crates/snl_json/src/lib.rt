//! The tree of a program as JSON: a flat list of rows, which name each other by their numbers, so that no depth is a limit.
//! docs/tools/tree.md tells the form, `specs` has it for each tree.
#![tactic(auto)]

mod declarations;
mod definitions;
mod expressions;
mod functions;
mod kinds;
mod programs;
mod rows;
mod statements;
mod text;

pub use rows::Part;
pub use text::tree_text;
