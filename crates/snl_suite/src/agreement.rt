//! How the output of a run stands beside the wanted one.

/// How some bytes stand beside those that are wanted.
#[derive(Clone, Copy, Debug, PartialEq, Eq)]
pub enum Agreement {
    /// They are the same.
    Same,
    /// They are not.
    Apart,
    /// The wanted bytes could not be read on.
    Broken,
}
