//! Bytes that came from a source and were not given on yet.

ghost use Rattle.std.specs.Prelude.{◌≡◌, ◌≢◌, ◌+◌, ◌-◌, ◌^◌, ◌<◌, ◌≤◌, ◌++◌, ◌⊎◌, [], false, length, take, drop, slice_range, All, IfOk, IfSome, IsTrue, IsFalse, is_err, OnErr, true, ℕ, List};

use memchr::memrchr;
use snl_output::{Source, SourceFault};
use std::alloc::{AllocError, Global};

/// How many bytes are held at most.
const ROOM: usize = 65_536;

/// Bytes that came and were not given on, in room of a fixed size.
#[derive(Drop)]
pub(crate) struct InputBuffer {
    bytes: Vec<u8>,
    /// Where those begin and end that were not given on.
    from: usize,
    to: usize,
    /// Where the last whole line ends that came; 0 where none did.
    lines_end: usize,
    ghost room: { length bytes.items ≡ 65536 },
    ghost within: { from ≤ to },
    ghost ends: { to ≤ 65536 },
    ghost lines: { lines_end ≤ to },
    ghost rest: { All (λ byte. byte ≢ 10) (drop lines_end (take to bytes.items)) },
}

/// Where the last line ends that a text has whole; 0 where it has none.
fn last_end(text: &[u8]) -> usize
    ensures within { result ≤ length text.now }
    ensures rest { All (λ byte. byte ≢ 10) (drop result text.now) }
{
    match memrchr(b'\n', text) {
        Some(at) => at + 1,
        None => 0,
    }
}

impl InputBuffer {
    ghost use Rattle.snl_watch.specs.Window.{window};
    ghost use Rattle.snl_output.specs.Devices.{counted};

    /// Holds nothing. Fails only where memory ran out.
    pub(crate) fn new(alloc: Global) -> Result<Self, AllocError>
        ensures { IfOk result (λ held. window held ≡ []) }
    {
        Ok(InputBuffer {
            bytes: vec![in alloc; 0u8; ROOM]?,
            from: 0,
            to: 0,
            lines_end: 0,
        })
    }

    /// How many bytes are held.
    pub(crate) fn len(&self) -> usize
        ensures { result ≡ length (window self.now) }
    {
        self.to - self.from
    }

    /// Whether a line is held whole, with its newline, or there is no room for more of it.
    pub(crate) fn has_line(&self) -> bool
        ensures some { IsTrue result → 0 < length (window self.now) }
        ensures none { IsFalse result → length (window self.now) < 65536 }
        ensures rest { IsFalse result → All (λ byte. byte ≢ 10) (window self.now) }
    {
        self.len() == ROOM || self.from < self.lines_end
    }

    /// The bytes that are held.
    pub(crate) fn text(&self) -> &[u8]
        ensures { result.now ≡ window self.now }
    {
        &self.bytes[self.from..self.to]
    }

    /// Gives the first bytes, so many, or as many of them as a room takes; answers how many.
    pub(crate) fn give(&mut self, most: usize, room: &mut [u8]) -> usize
        requires within { most ≤ length (window self.old) }
        requires some { most ≡ 0 → window self.old ≡ [] }
        ensures count { result ≤ length room.old }
        ensures given { window self.old ≡ take result room.new ++ window self.new }
        ensures none { result ≡ 0 → 0 < length room.old → window self.old ≡ [] }
    {
        let count = most.min(room.len());
        let end = self.from + count;
        room[..count].copy_from_slice(&self.bytes[self.from..end]);
        self.from = end;
        count
    }

    /// Moves what is held to the front.
    fn compact(&mut self)
        requires { All (λ byte. byte ≢ 10) (window self.old) }
        ensures same { window self.new ≡ window self.old }
        ensures front { self.new.from ≡ 0 }
    {
        let count = self.to - self.from;
        self.bytes.copy_within(self.from..self.to, 0);
        self.from = 0;
        self.to = count;
        self.lines_end = 0;
    }

    /// Asks a source once for more, and holds that behind what is held, which has no whole line; answers how many bytes came.
    pub(crate) fn take_from<R: Source>(&mut self, source: &mut R) -> Result<usize, SourceFault>
        requires failures { R.failures source.old < 2 ^ 64 - 1 }
        requires room { length (window self.old) < 65536 }
        requires partial { All (λ byte. byte ≢ 10) (window self.old) }
        ensures gave { (front : List ℕ) → R.gave source.old ≡ front ++ window self.old →
            R.gave source.new ≡ front ++ window self.new }
        ensures size { IfOk result (λ n. length (window self.new)
            ≡ length (window self.old) + n) }
        ensures kept { OnErr result (window self.new ≡ window self.old) }
        ensures ended { IfOk result (λ n. n ≡ 0 → R.ended source.new ≡ true) }
        ensures short { length (R.gave source.new) < 2 ^ 63 }
        ensures failures { R.failures source.new
            ≡ counted (is_err result) (R.failures source.old) }
    {
        self.compact();
        let count = source.read(&mut self.bytes[self.to..])?;
        self.to += count;
        self.lines_end = last_end(&self.bytes[..self.to]);
        Ok(count)
    }
}
