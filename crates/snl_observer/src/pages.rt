//! A sink that keeps what one line of a trace makes a program write.

ghost use Rattle.std.specs.Prelude.{◌≡◌, []};

use snl_output::{Sink, SinkFault};
use std::alloc::Global;

/// Keeps what it is given. It fails where memory ends.
#[derive(Drop)]
pub struct TextSink {
    text: Vec<u8>,
    failures: u64,
}

impl TextSink {
    /// An empty one.
    pub(crate) fn new(alloc: Global) -> Self {
        TextSink {
            text: Vec::new(alloc),
            failures: 0,
        }
    }

    /// Takes away what was written.
    pub fn clear(&mut self)
        ensures text { self.new.text.items ≡ [] }
        ensures failures { self.new.failures ≡ 0 }
    {
        self.text.clear();
        self.failures = 0;
    }

    /// What was written since it was empty.
    pub fn text(&self) -> &[u8]
        ensures { result.now ≡ self.now.text.items }
    {
        self.text.as_slice()
    }
}

impl Sink for TextSink {
    ghost use Rattle.std.specs.Prelude.{Some};

    ghost told = { λ page. Some page.text.items };

    ghost failures = { λ page. page.failures };

    fn write(&mut self, piece: &[u8]) -> Result<usize, SinkFault> {
        match self.text.extend_from_slice(piece) {
            Ok(()) => Ok(piece.len()),
            Err(_) => {
                self.failures += 1;
                Err(SinkFault)
            }
        }
    }
}
