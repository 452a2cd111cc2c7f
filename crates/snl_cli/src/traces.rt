//! A trace in a file.

ghost use Rattle.std.specs.Prelude.{◌≡◌, [], IfOk};

use snc::Status;
use snc_cli::{Stream, told_unread};
use snl_trace::{Source, SourceFault};
use snl_views::Overheard;
use std::fs::File;

/// The trace in a file, which is overheard.
#[derive(Drop)]
pub struct TraceFile {
    stream: Stream<File>,
    heard: Overheard,
}

impl TraceFile {
    /// The trace in a file, of which nothing was read yet. `InputOutput` where it cannot be opened: then standard error has
    /// `snl: cannot read FILE`. `Memory` where memory ran out.
    pub fn open(rt: &HostRuntime, path: &str) -> Result<Self, Status>
        ensures gave { IfOk result (λ trace. trace.stream.input.past.bytes ≡ []) }
        ensures failures { IfOk result (λ trace. trace.stream.failures ≡ 0) }
    {
        let heard = Overheard::new(rt.alloc())?;
        match File::open(rt, path) {
            Ok(file) => Ok(TraceFile {
                stream: Stream::new(file),
                heard,
            }),
            Err(_) => Err(told_unread(rt, "snl", path)),
        }
    }

    /// What was overheard of it.
    pub fn heard(&self) -> &Overheard {
        &self.heard
    }
}

impl Source for TraceFile {
    ghost gave = { λ trace. trace.stream.input.past.bytes };

    ghost ended = { λ trace. trace.stream.ended };

    ghost broke = { λ trace. trace.stream.broke };

    ghost failures = { λ trace. trace.stream.failures };

    fn read(&mut self, room: &mut [u8]) -> Result<usize, SourceFault> {
        let size = self.stream.next(room)?;
        self.heard.take(&room[..size]);
        Ok(size)
    }
}
