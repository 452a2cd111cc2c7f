//! What happens to a channel.

use snl_logs::Values;

/// What happens to a channel.
#[derive(Clone, Copy)]
pub enum Happening<'v> {
    /// It is connected.
    Up,
    /// It is not connected any more.
    Down,
    /// It has values.
    Values(&'v Values),
}
