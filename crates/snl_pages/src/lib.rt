//! What the manual tells of each message and each lint, by its name.
#![tactic(auto)]

mod every;
mod forms;
mod lints;
mod names;
mod pages;
mod refusals;
mod warnings;

pub use pages::{nearest_name, page_named};
