//! A source that has nothing to give.

ghost use Rattle.std.specs.Prelude.{◌≡◌, [], false};

use snl_trace::{Source, SourceFault};

/// Ends at once: a trace without a line, an output without a byte.
#[derive(Drop)]
pub struct Nothing {
    has_ended: bool,
}

impl Nothing {
    /// Nothing was asked of it yet.
    pub fn new() -> Self
        ensures { result.has_ended ≡ false }
    {
        Nothing { has_ended: false }
    }
}

impl Source for Nothing {
    ghost gave = { λ _. [] };

    ghost ended = { λ nothing. nothing.has_ended };

    ghost broke = { λ _. false };

    ghost failures = { λ _. 0 };

    fn read(&mut self, room: &mut [u8]) -> Result<usize, SourceFault> {
        self.has_ended = !room.is_empty();
        Ok(0)
    }
}
