//! A source that gives one line a call.

ghost use Rattle.std.specs.Prelude.{◌≡◌, ◌≢◌, ◌-◌, ◌^◌, ◌<◌, ◌==◌, ◌&&◌, [], false, true, ◌⊎◌, length, ◌++◌, take, All, nat_lt, IfOk, OnOk, is_err, IsTrue, IsFalse, ◌≤◌};
ghost use Rattle.std.proofs.Props.{props};
ghost use Rattle.snl_output.specs.Devices.{counted};
ghost use Rattle.snl_watch.specs.Window.{window};

use crate::held::InputBuffer;
use crate::line_ends::front_line;
use snl_output::{Source, SourceFault};
use snl_past::Past;
use std::alloc::{AllocError, Global};

/// Gives the bytes of another source, at most one line a call: up to its newline, where the room takes that. So whoever reads
/// from it knows which line was given last.
///
/// A line of more than 65,536 bytes comes in pieces. The last line comes as it is, with or without a newline. A source that
/// has ended is not asked again.
#[derive(Drop)]
pub struct ByLine<R: Source> {
    inner: R,
    held: InputBuffer,
    /// Whether the source has come to its end.
    ended: bool,
    /// Whether it said last that no more come.
    said: bool,
    /// Whether its last read failed.
    is_broken: bool,
    past: Past,
    ghost gave: { R.gave inner ≡ past.bytes ++ window held },
    ghost short: { length (R.gave inner) < 2 ^ 63 },
    ghost over: { ended ≡ true → R.ended inner ≡ true } by { Prim.hlevel props },
    ghost last: { said ≡ true → ended ≡ true } by { Prim.hlevel props },
    ghost empty: { said ≡ true → window held ≡ [] } by { Prim.hlevel props },
    ghost partial: { is_broken ≡ true → All (λ byte. byte ≢ 10) (window held) } by { Prim.hlevel props },
}

impl<R: Source> ByLine<R> {
    /// The lines of a source, of which nothing was read yet. Fails only where memory ran out.
    pub fn new(alloc: Global, inner: R) -> Result<Self, AllocError>
    where
        R: Drop,
        requires fresh { R.gave inner ≡ [] }
        ensures inner { IfOk result (λ lines. lines.inner ≡ inner) }
        ensures past { IfOk result (λ lines. lines.past.bytes ≡ []) }
    {
        Ok(ByLine {
            held: InputBuffer::new(alloc)?,
            inner,
            ended: false,
            said: false,
            is_broken: false,
            past: Past::new(),
        })
    }

    /// Whether a line is there, or as much of one as can come.
    fn is_ready(&self) -> bool
        ensures some { IsTrue result → (self.now.ended ≡ true)
            ⊎ (0 < length (window self.now.held)) }
        ensures open { IsFalse result → self.now.ended ≡ false }
        ensures room { IsFalse result → length (window self.now.held) < 65536 }
        ensures none { IsFalse result → All (λ byte. byte ≢ 10) (window self.now.held) }
    {
        self.ended || self.held.has_line()
    }

    /// Asks the source once for more, and holds that.
    fn refill(&mut self) -> Result<(), SourceFault>
        requires failures { R.failures self.old.inner < 2 ^ 64 - 1 }
        requires open { self.old.ended ≡ false }
        requires room { length (window self.old.held) < 65536 }
        requires none { All (λ byte. byte ≢ 10) (window self.old.held) }
        ensures past { self.new.past.bytes ≡ self.old.past.bytes }
        ensures said { self.new.said ≡ false }
        ensures broke { self.new.is_broken ≡ is_err result }
        ensures more { OnOk result ((self.new.ended ≡ true)
            ⊎ (length (window self.old.held) < length (window self.new.held))) }
        ensures failures { R.failures self.new.inner
            ≡ counted (is_err result) (R.failures self.old.inner) }
    {
        self.said = false;
        match self.held.take_from(&mut self.inner) {
            Ok(count) => {
                self.is_broken = false;
                if count == 0 {
                    self.ended = true;
                }
                Ok(())
            }
            Err(fault) => {
                self.is_broken = true;
                Err(fault)
            }
        }
    }

    /// Asks the source until a line is there.
    pub(crate) fn fill(&mut self) -> Result<(), SourceFault>
        requires { R.failures self.old.inner < 2 ^ 64 - 1 }
        ensures past { self.new.past.bytes ≡ self.old.past.bytes }
        ensures said { self.new.said ≡ false }
        ensures broke { self.new.is_broken ≡ is_err result }
        ensures some { OnOk result ((self.new.ended ≡ true)
            ⊎ (0 < length (window self.new.held))) }
        ensures failures { R.failures self.new.inner
            ≡ counted (is_err result) (R.failures self.old.inner) }
    {
        self.said = false;
        self.is_broken = false;
        while !self.is_ready() {
            self.refill()?;
        }
        Ok(())
    }

    /// What came and was not given on.
    pub(crate) fn text(&self) -> &[u8]
        ensures { result.now ≡ window self.now.held }
    {
        self.held.text()
    }

    /// Gives the first bytes of that, so many, or as many of them as a room takes.
    pub(crate) fn give(&mut self, most: usize, room: &mut [u8]) -> usize
        requires filled { (self.old.ended ≡ true) ⊎ (0 < length (window self.old.held)) }
        requires within { most ≤ length (window self.old.held) }
        requires some { most ≡ 0 → window self.old.held ≡ [] }
        ensures count { result ≤ length room.old }
        ensures past { self.new.past.bytes ≡ self.old.past.bytes ++ take result room.new }
        ensures said { self.new.said ≡ ((result == 0) && nat_lt 0 (length room.old)) }
        ensures broke { self.new.is_broken ≡ false }
        ensures short { length self.new.past.bytes < 2 ^ 63 }
        ensures failures { R.failures self.new.inner ≡ R.failures self.old.inner }
    {
        self.said = false;
        self.is_broken = false;
        let count = self.held.give(most, room);
        self.past.note(&room[..count]);
        self.said = count == 0 && !room.is_empty();
        count
    }

    /// The source. What it gave is what was given on and, behind it, what is held.
    pub fn into_inner(self) -> R
    where
        R: Drop,
        ensures { result ≡ self.inner }
    {
        self.inner
    }
}

impl<R: Source> Source for ByLine<R> {
    ghost gave = { λ lines. lines.past.bytes };

    ghost ended = { λ lines. lines.said };

    ghost broke = { λ lines. lines.is_broken };

    ghost failures = { λ lines. R.failures lines.inner };

    fn read(&mut self, room: &mut [u8]) -> Result<usize, SourceFault> {
        self.fill()?;
        let most = front_line(self.text());
        Ok(self.give(most, room))
    }
}
