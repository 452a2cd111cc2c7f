//! What never changes of a link.

/// What never changes of a link (SNL Reference, "assign").
#[derive(Clone, Copy)]
pub struct Tied {
    /// The number of its channel; None where it has none.
    pub channel: Option<usize>,
    /// Whether a `monitor` names its elements: then each value that comes marks the link.
    pub is_monitored: bool,
    /// The number of the event flag that it is synced to; None where it is not.
    pub flag: Option<usize>,
    /// Where its buffer begins among the buffers, in words.
    pub from: usize,
    /// How many elements it has, and so the words of its buffer.
    pub count: usize,
    /// The least number of its variable's type.
    pub least: i64,
    /// The greatest number of its variable's type.
    pub greatest: i64,
}
