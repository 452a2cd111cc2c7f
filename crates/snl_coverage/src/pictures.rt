//! What a picture of a program shows.

/// A clause: an arrow from the state that has it.
#[derive(Drop)]
pub struct Arrow {
    /// The name of the state that it leads to; `exit` where it leads out of the program.
    pub target: Vec<u8>,
    /// What stands beside it, of one or two lines.
    pub label: Vec<u8>,
    /// Whether it was never taken, so that it is drawn in red and dashed.
    pub is_missed: bool,
}

/// A state.
#[derive(Drop)]
pub struct StateNode {
    /// Its name in the source.
    pub name: Vec<u8>,
    /// Its clauses, in order.
    pub arrows: Vec<Arrow>,
}

/// A state set.
#[derive(Drop)]
pub struct Cluster {
    /// Its name in the source.
    pub name: Vec<u8>,
    /// Its states, in order; the first is the initial one.
    pub nodes: Vec<StateNode>,
}

/// A program.
#[derive(Drop)]
pub struct Picture {
    /// Its name in the source.
    pub name: Vec<u8>,
    /// Its state sets, in order.
    pub clusters: Vec<Cluster>,
}
