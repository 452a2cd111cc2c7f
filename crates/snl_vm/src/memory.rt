//! The memory of a run.

use crate::operands::Operands;
use crate::stores::Store;

/// All that a run changes.
#[derive(Drop)]
pub struct Memory {
    /// What the state sets, the links and the channels hold, and the clock.
    pub store: Store,
    /// Room for the operands of the piece of code that runs, and for the calls that it makes.
    pub operands: Operands,
}
