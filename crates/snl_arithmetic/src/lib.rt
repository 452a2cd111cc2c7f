//! Arithmetic of programs: what operators make of whole numbers of 64 bits, and when they fault.
#![tactic(auto)]

mod arithmetic;
pub mod laws;

pub use arithmetic::{ArithmeticFault, computed, computed_prefix};
