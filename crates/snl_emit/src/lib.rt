//! Makes the flat code of one condition, one block or the body of a function, with the law that it does what the piece means.
#![tactic(auto)]

mod calls;
mod constants;
mod effects;
mod emission;
mod entries;
pub mod laws;
mod leaving;
mod parts;
mod rows;
mod statements;
mod targets;
mod worth;

pub use emission::emit_expression;
pub use statements::{emit_block, emit_function};
