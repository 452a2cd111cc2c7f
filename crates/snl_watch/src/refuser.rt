//! A sink that refuses its first byte.

ghost use Rattle.std.specs.Prelude.{◌≡◌};

use snl_output::{Sink, SinkFault};

/// Takes nothing: a run into it ends at the first byte that it would write. It tells that it took nothing.
#[derive(Clone, Copy, Debug)]
pub struct Refuser {
    failures: u64,
}

impl Refuser {
    /// A sink that was given nothing yet.
    pub fn new() -> Self
        ensures { result.failures ≡ 0 }
    {
        Refuser { failures: 0 }
    }
}

impl Sink for Refuser {
    ghost use Rattle.std.specs.Prelude.{[], Some};

    ghost told = { λ _. Some [] };

    ghost failures = { λ refuser. refuser.failures };

    fn write(&mut self, piece: &[u8]) -> Result<usize, SinkFault> {
        if piece.is_empty() {
            return Ok(0);
        }
        self.failures += 1;
        Err(SinkFault)
    }
}
