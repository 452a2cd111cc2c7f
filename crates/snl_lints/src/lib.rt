//! Lints: what a program does that is no error, and that is seldom meant.
#![tactic(auto)]

mod channels;
mod columns;
mod constants;
mod doers;
mod expressions;
mod facts;
mod givens;
mod holdings;
pub mod laws;
mod lines;
mod operators;
mod parts;
mod remarks;
mod statements;
mod tables;
mod touches;

pub use columns::{Counted, column_at};
pub use lines::{Text, file_name, is_silenced, lines_of, lint_named, name_of, words_of};
pub use remarks::{Lint, Remark, remarks_of};
