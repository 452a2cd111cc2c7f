//! The rules of the language that the grammar does not state: which of them are broken, and where.
#![tactic(auto)]

mod alone;
mod breaking;
mod elements;
mod facts;
mod function_words;
pub mod laws;
mod link_words;
mod queues;
pub mod reach_laws;
mod rules;
mod together;
mod words;

pub use breaking::broken_rules;
pub use rules::{Broken, Rule};
pub use words::{is_overfull, overfull_sets};
