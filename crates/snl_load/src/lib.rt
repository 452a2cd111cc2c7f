//! The image of a program that the scheduler runs: its links, its state sets, where their values stand, and what all that means.
#![tactic(auto)]

mod channels;
mod first;
mod initials;
pub mod laws;
mod links;
mod plans;

pub use channels::{channel_number, channels_of};
pub use first::store_of;
pub use plans::plan_of;
