//! A sink that writes into a file.

ghost use Rattle.std.specs.Prelude.{◌≡◌, []};

use snl_output::{Sink, SinkFault};
use snl_past::Past;
use std::io::{self, BufWriter, Write};

/// Hands the output of a run on to a writer, through a buffer. What it took stands in the proof alone.
#[derive(Drop)]
pub struct Written<W: Write + Drop> {
    writer: BufWriter<W>,
    past: Past,
    failures: u64,
    /// Why the writer took no more.
    fault: Option<io::Error>,
}

impl<W: Write + Drop> Written<W> {
    /// Nothing was written yet.
    pub fn new(writer: BufWriter<W>) -> Self
        ensures past { result.past.bytes ≡ [] }
        ensures failures { result.failures ≡ 0 }
    {
        Written {
            writer,
            past: Past::new(),
            failures: 0,
            fault: None,
        }
    }

    /// The writer. What is held back is not there yet.
    pub fn writer(&self) -> &W {
        self.writer.get_ref()
    }

    /// Writes out what is held back. Fails where a write failed, then or before, with the first cause.
    pub fn finish(&mut self) -> io::Result<()> {
        match self.fault.take() {
            Some(fault) => Err(fault),
            None => self.writer.flush(),
        }
    }
}

impl<W: Write + Drop> Sink for Written<W> {
    ghost use Rattle.std.specs.Prelude.{Some};

    ghost told = { λ written. Some written.past.bytes };

    ghost failures = { λ written. written.failures };

    fn write(&mut self, piece: &[u8]) -> Result<usize, SinkFault> {
        match self.writer.write(piece) {
            Ok(0) if !piece.is_empty() => {
                self.failures += 1;
                Ok(0)
            }
            Ok(count) => {
                self.past.note(&piece[..count]);
                Ok(count)
            }
            Err(fault) => {
                self.fault = Some(fault);
                self.failures += 1;
                Err(SinkFault)
            }
        }
    }
}
