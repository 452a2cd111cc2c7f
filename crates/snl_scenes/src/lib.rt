//! What a program is at a moment of a recorded day, told for a person: its states and what their clauses wait for, its variables, event
//! flags, queues, channels and last puts, each by its name in the source.
#![tactic(auto)]

mod channels;
mod clauses;
mod codes;
mod conditions;
mod loader;
mod named;
mod names;
mod places;
mod report;
mod sources;
mod states;
mod steps;
mod texts;
mod values;
mod waits;

pub use loader::{Scene, ready_of};
pub use report::{Answer, tell_moments};
