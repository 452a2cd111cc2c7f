//! What `snl trace` does with the system it runs on: the logs that it reads, and the trace that it writes. The file of units that a call
//! names is read here too.
#![tactic(auto)]

mod trace;
mod units;

pub use trace::{answered_trace, check_times};
pub use units::units_for;
