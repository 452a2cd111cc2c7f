//! All messages of a program, in the order of the source.
#![tactic(auto)]

mod entries;
mod gathering;
pub mod laws;
mod matters;
mod messages;
mod ordering;
mod places;
mod refusals;
mod reports;
mod silence;

pub use messages::{Message, Severity};
pub use refusals::Refusal;
pub use reports::messages_by;
pub use silence::options_in_force;
