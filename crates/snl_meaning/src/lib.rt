//! What expressions, statements and blocks mean, and what each instruction of flat code does. No code is made here.
#![tactic(auto)]

mod faults;
mod functions;
mod instrs;
pub mod laws;
mod live;
mod names;
mod offsets;
mod operators;
mod places;
mod sites;
mod strings;
mod ties;

pub use faults::Fault;
pub use functions::FunctionEntry;
pub use instrs::{Instr, Variable};
pub use live::Live;
pub use names::{Known, Outline, Placed, Sense, Within, sense_in};
pub use offsets::Offsets;
pub use operators::{Joint, Unary, compound_of, is_decimal, joint_of, sign_of};
pub use places::Places;
pub use sites::{Sites, flags_of};
pub use ties::Tied;
