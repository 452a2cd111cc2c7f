//! A source that listens to the lines that pass through it.

ghost use Rattle.std.specs.Prelude.{◌≡◌};

use crate::heard::HeardTrace;
use snl_output::{Source, SourceFault};

/// Hands on what another source gives, one line a call, and hears each line.
#[derive(Drop)]
pub struct Listener<R: Source> {
    inner: R,
    heard: HeardTrace,
}

impl<R: Source> Listener<R> {
    /// Listens to a source that gives at most one line a call, as `ByLine` does.
    pub fn new(inner: R, heard: HeardTrace) -> Self
        ensures inner { result.inner ≡ inner }
        ensures heard { result.heard ≡ heard }
    {
        Listener { inner, heard }
    }

    /// The source that it listened to, and what was heard.
    pub fn into_parts(self) -> (R, HeardTrace)
        ensures inner { result.0 ≡ self.inner }
        ensures heard { result.1 ≡ self.heard }
    {
        let Listener { inner, heard } = self;
        (inner, heard)
    }
}

impl<R: Source> Source for Listener<R> {
    ghost gave = { λ listener. R.gave listener.inner };

    ghost ended = { λ listener. R.ended listener.inner };

    ghost broke = { λ listener. R.broke listener.inner };

    ghost failures = { λ listener. R.failures listener.inner };

    fn read(&mut self, room: &mut [u8]) -> Result<usize, SourceFault> {
        let count = self.inner.read(room)?;
        if count > 0 {
            self.heard.note(&room[..count]);
        }
        Ok(count)
    }
}
