//! A sink that keeps what one line of a trace makes a program write.

ghost use Rattle.std.specs.Prelude.{◌≡◌, []};

use crate::scenes::RunProgress;
use snl_output::{Fired, Put, Sink, SinkFault, Went};
use std::alloc::Global;

/// Keeps what it is given, and what is told of the run beside it. It fails where memory ends.
#[derive(Drop)]
pub struct Page {
    text: Vec<u8>,
    failures: u64,
    /// What is told of the run.
    pub(crate) scene: RunProgress,
}

impl Page {
    /// An empty one.
    pub(crate) fn new(alloc: Global, scene: RunProgress) -> Self {
        Page {
            text: Vec::new(alloc),
            failures: 0,
            scene,
        }
    }

    /// Takes away what was written.
    pub(crate) fn clear(&mut self)
        ensures text { self.new.text.items ≡ [] }
        ensures failures { self.new.failures ≡ 0 }
    {
        self.text.clear();
        self.failures = 0;
        self.scene.clauses.pass();
    }

    /// What was written since it was empty.
    pub(crate) fn text(&self) -> &[u8]
        ensures { result.now ≡ self.now.text.items }
    {
        self.text.as_slice()
    }
}

impl Sink for Page {
    ghost use Rattle.std.specs.Prelude.{Some};

    ghost told = { λ page. Some page.text.items };

    ghost failures = { λ page. page.failures };

    fn write(&mut self, piece: &[u8]) -> Result<usize, SinkFault> {
        match self.text.extend_from_slice(piece) {
            Ok(()) => {
                self.scene.wrote(piece);
                Ok(piece.len())
            }
            Err(_) => {
                self.failures += 1;
                Err(SinkFault)
            }
        }
    }

    fn fired(&mut self, clause: Fired, words: &[i64]) {
        self.scene.fired(clause, words);
    }

    fn went(&mut self, transition: Went) {
        self.scene.went(transition);
    }

    fn put(&mut self, put: Put, values: &[i64]) {
        self.scene.put(put, values);
    }
}
