//! What coverage and pictures tell of: the outline of a program, and the texts of its conditions.

use snl_legends::Conditions;
use snl_outline::ProgramOutline;

/// A program.
#[derive(Drop)]
pub struct Chart {
    /// Its state sets, their states and clauses.
    pub outline: ProgramOutline,
    /// The texts of its conditions, cut off where they are long.
    pub conditions: Conditions,
}
