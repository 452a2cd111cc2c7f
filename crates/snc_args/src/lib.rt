//! The words of a call of `snc` or of `snlrun`: what they ask for, or what is wrong with them.
//!
//! Words such as `+s` and `-w` are options of the language (SNL Reference, "Option"). They are taken out first,
//! wherever they stand; `clap` reads the rest.
#![tactic(auto)]

mod commands;
pub mod laws;
mod options;
mod reading;
mod words;

pub use options::{first_refused, options_in_force, rest_of};
pub use words::{DEFAULT_BUDGET, Job, Tool, WordsFault, read_words};
