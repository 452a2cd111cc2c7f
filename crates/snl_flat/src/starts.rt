//! Where the pieces of a program begin in its code.

/// A piece of a program. State sets, states and clauses have numbers from 0 on, in the order of the
/// source.
#[derive(Clone, Copy)]
pub enum Piece {
    /// The `entry` block of the program.
    ProgramEntry,
    /// The `exit` block of the program.
    ProgramExit,
    /// The `entry` block of a state.
    Entry {
        set: usize,
        state: usize,
    },
    /// The `exit` block of a state.
    Exit {
        set: usize,
        state: usize,
    },
    /// The condition of a clause.
    Condition {
        set: usize,
        state: usize,
        clause: usize,
    },
    /// The block of a clause.
    Block {
        set: usize,
        state: usize,
        clause: usize,
    },
}

/// Where the pieces of a clause begin.
#[derive(Clone, Copy)]
pub struct ClauseStarts {
    /// None where the clause has no condition.
    pub condition: Option<usize>,
    /// Its block.
    pub block: usize,
}

/// Where the pieces of a state begin.
#[derive(Drop)]
pub struct StateStarts {
    /// Whether the state is reached: one that is not has no code.
    pub is_reached: bool,
    /// None where the state has no such block.
    pub entry: Option<usize>,
    /// In the order of the source.
    pub clauses: Vec<ClauseStarts>,
    /// None where the state has no such block.
    pub exit: Option<usize>,
}
