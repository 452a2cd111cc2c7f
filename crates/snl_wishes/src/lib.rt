//! What the words of a call wish of a search: lines, values, times and recorded traces, in the units of the call; its clock; and what is told
//! of a wish that cannot be met.
#![tactic(auto)]

mod clock;
mod faults;
mod traces;
mod units;
mod wishes;

pub use clock::Clock;
pub use faults::told_fault;
pub use traces::recorded;
pub use units::wished_values;
pub use wishes::{bounds_of, owned, times_of, wishes_over};
