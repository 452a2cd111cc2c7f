//! Where the code of functions begins.

use crate::instrs::Variable;

/// Where the code of a function begins, and its parameters.
#[derive(Drop)]
pub struct FunctionEntry {
    /// The address of its first instruction.
    pub start: usize,
    /// Its parameters, in the order of the source.
    pub parameters: Vec<Variable>,
}
