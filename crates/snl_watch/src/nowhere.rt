//! A sink that takes all and keeps nothing.

ghost use Rattle.std.specs.Prelude.{◌≡◌, []};

use snl_output::{Sink, SinkFault};
use snl_past::Past;

/// Takes all that it is given, and keeps nothing of it. What it took stands in the proof alone.
#[derive(Drop)]
pub struct Nowhere {
    past: Past,
}

impl Nowhere {
    /// Nothing was written yet.
    pub fn new() -> Self
        ensures { result.past.bytes ≡ [] }
    {
        Nowhere { past: Past::new() }
    }
}

impl Sink for Nowhere {
    ghost use Rattle.std.specs.Prelude.{Some};

    ghost told = { λ nowhere. Some nowhere.past.bytes };

    ghost failures = { λ _. 0 };

    fn write(&mut self, piece: &[u8]) -> Result<usize, SinkFault> {
        self.past.note(piece);
        Ok(piece.len())
    }
}
