//! The scheduler: what a line of a trace does, the start of a program, and rounds, in which each state set has a turn.
#![tactic(auto)]

mod arrivals;
mod events;
mod goes;
mod instants;
pub mod laws;
mod plans;
mod refreshing;
mod starting;
mod taking;
mod transitions;
mod turns;

pub use arrivals::{connect, fit_links, receive};
pub use events::{Event, VALUES_KEPT};
pub use instants::{instant, rounds};
pub use plans::{
    Again, Blocks, ClausePlan, Destination, Plan, ProgramContext, SetContext, SetPlan, StatePlan,
};
pub use refreshing::refresh;
pub use taking::{fits, take};
pub use transitions::Turned;
pub use turns::turn;
