//! The wanted output, which is read a piece ahead of what is compared with it.

ghost use Rattle.std.specs.Prelude.{◌≡◌, ◌+◌, ◌-◌, ◌++◌, ◌^◌, ◌<◌, ◌≤◌, ◌⊎◌, [], false, true, length, take, drop, slice_range, IfOk};
ghost use Rattle.std.proofs.Props.{props};

use snl_output::Source;
use snl_past::Past;
use std::alloc::{AllocError, Global};

/// How many bytes are read at once.
const PIECE: usize = 65_536;

/// The bytes of a source, of which some were passed, and some came and were not passed yet.
#[derive(Drop)]
pub(crate) struct Ahead<W: Source> {
    inner: W,
    room: Vec<u8>,
    /// Where in the room those begin and end that came and were not passed.
    from: usize,
    to: usize,
    /// Whether the source has come to its end.
    ended: bool,
    /// Whether the source failed.
    failed: bool,
    /// What was passed.
    past: Past,
    ghost within: { from ≤ to },
    ghost ends: { to ≤ length room.items },
    ghost size: { length room.items ≡ 65536 },
    ghost gave: { W.gave inner ≡ past.bytes ++ slice_range room.items from to },
    ghost over: { ended ≡ true → W.ended inner ≡ true } by { Prim.hlevel props },
    ghost broke: { failed ≡ true → W.broke inner ≡ true } by { Prim.hlevel props },
    ghost sound: { failed ≡ false → W.failures inner < 2 ^ 64 - 1 } by { Prim.hlevel props },
}

impl<W: Source> Ahead<W> {
    /// The bytes of a source of which nothing was read yet. Fails only where memory ran out.
    pub(crate) fn new(alloc: Global, inner: W) -> Result<Self, AllocError>
    where
        W: Drop,
        requires fresh { W.gave inner ≡ [] }
        requires sound { W.failures inner < 2 ^ 64 - 1 }
        ensures past { IfOk result (λ ahead. ahead.past.bytes ≡ []) }
        ensures failed { IfOk result (λ ahead. ahead.failed ≡ false) }
    {
        Ok(Ahead {
            room: vec![in alloc; 0u8; PIECE]?,
            inner,
            from: 0,
            to: 0,
            ended: false,
            failed: false,
            past: Past::new(),
        })
    }

    /// What came and was not passed.
    pub(crate) fn text(&self) -> &[u8]
        ensures { result.now ≡ slice_range self.now.room.items self.now.from self.now.to }
    {
        &self.room[self.from..self.to]
    }

    /// Passes the first bytes of that, so many.
    pub(crate) fn pass(&mut self, count: usize)
        requires { self.old.from + count ≤ self.old.to }
        ensures past { self.new.past.bytes ≡ self.old.past.bytes
            ++ take count (slice_range self.old.room.items self.old.from self.old.to) }
        ensures inner { self.new.inner ≡ self.old.inner }
        ensures failed { self.new.failed ≡ self.old.failed }
        ensures ended { self.new.ended ≡ self.old.ended }
    {
        let end = self.from + count;
        self.past.note(&self.room[self.from..end]);
        self.from = end;
    }

    /// Asks the source once for more, where all was passed that came.
    pub(crate) fn refill(&mut self)
        requires passed { self.old.from ≡ self.old.to }
        requires open { self.old.ended ≡ false }
        requires sound { self.old.failed ≡ false }
        ensures past { self.new.past.bytes ≡ self.old.past.bytes }
        ensures ready { self.new.failed ≡ false →
            (self.new.from < self.new.to) ⊎ (self.new.ended ≡ true) }
    {
        self.from = 0;
        self.to = 0;
        match self.inner.read(self.room.as_mut_slice()) {
            Ok(count) => {
                self.to = count;
                self.ended = count == 0;
            }
            Err(_) => self.failed = true,
        }
    }

    /// Whether more may come: the source neither ended nor failed.
    pub(crate) fn is_open(&self) -> bool
        ensures ended { result ≡ true → self.now.ended ≡ false }
        ensures failed { result ≡ true → self.now.failed ≡ false }
        ensures closed { result ≡ false → self.now.failed ≡ false → self.now.ended ≡ true }
    {
        !self.ended && !self.failed
    }

    /// Whether the source failed.
    pub(crate) fn has_failed(&self) -> bool
        ensures { result ≡ self.now.failed }
    {
        self.failed
    }
}
