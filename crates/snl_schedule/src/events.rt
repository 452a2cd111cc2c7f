//! What a line of a trace tells.

use arrayvec::ArrayVec;

/// How many values of one line are kept: no channel of a program has more elements.
pub const VALUES_KEPT: usize = 1024;

/// What a line of a trace tells. A channel goes by its number.
#[derive(Clone, Debug, Drop)]
pub enum Event {
    /// The channel is connected.
    Up(usize),
    /// The channel is not connected any more. No link of it waits for an answer then.
    Down(usize),
    /// The channel has these values.
    Val(usize, ArrayVec<i64, VALUES_KEPT>),
    /// The puts to the channel were answered: no link of it waits any more.
    Done(usize),
    /// Time has passed.
    Tick,
    /// Something about a channel that the program does not use.
    Other,
}
