//! A line on its way to a sink.

ghost use Rattle.std.specs.Prelude.{◌≡◌, ◌-◌, ◌^◌, ◌<◌, ◌∷◌, ◌++◌, [], decimal, is_err, map};
ghost use Rattle.snl_output.specs.Devices.{counted, Wrote};
ghost use Rattle.snl_output.specs.Held.{Adds};
ghost use Rattle.snl_output.specs.Lines.{joined};
ghost use Rattle.snl_output.specs.Texts.{short_of, text_in};

use crate::sinks::{Sink, SinkFault};
use crate::texts::{Short, Text};
use arrayvec::ArrayVec;
use itoa::Buffer;

/// How many bytes of a line are held back. Most lines have fewer.
const HELD: usize = 128;

/// A line on its way to a sink. What is added to it is held back, so that most lines go out in one write; where there is
/// no more room, it goes on to the sink before the line is whole.
#[derive(Drop)]
pub struct Line {
    /// What the sink does not have yet.
    held: ArrayVec<u8, HELD>,
}

impl Line {
    /// A line without a byte.
    pub fn new() -> Self
        ensures { result.held.items ≡ [] }
    {
        Line {
            held: ArrayVec::new(),
        }
    }

    /// Adds a piece.
    #[inline(always)]
    pub fn add<S: Sink>(&mut self, piece: &[u8], sink: &mut S) -> Result<(), SinkFault>
        requires { S.failures sink.old < 2 ^ 64 - 1 }
        ensures told { Adds result (self.old.held.items ++ piece.now) self.new.held.items
            (S.told sink.old) (S.told sink.new) }
        ensures failures { S.failures sink.new ≡ counted (is_err result) (S.failures sink.old) }
    {
        if self.held.is_empty() && sink.hold(piece) {
            return Ok(());
        }
        if self.held.try_extend_from_slice(piece).is_ok() {
            return Ok(());
        }
        self.pass_on(piece, sink)
    }

    /// Adds a byte. It goes to its place without a copy of a slice.
    #[inline(always)]
    pub fn push<S: Sink>(&mut self, byte: u8, sink: &mut S) -> Result<(), SinkFault>
        requires { S.failures sink.old < 2 ^ 64 - 1 }
        ensures told { Adds result (self.old.held.items ++ byte ∷ []) self.new.held.items
            (S.told sink.old) (S.told sink.new) }
        ensures failures { S.failures sink.new ≡ counted (is_err result) (S.failures sink.old) }
    {
        if self.held.is_empty() && sink.hold(&[byte]) {
            return Ok(());
        }
        if self.held.try_push(byte).is_ok() {
            return Ok(());
        }
        self.pass_on(&[byte], sink)
    }

    /// Adds a short text.
    #[inline(always)]
    pub fn add_short<S: Sink>(&mut self, short: &Short, sink: &mut S) -> Result<(), SinkFault>
        requires { S.failures sink.old < 2 ^ 64 - 1 }
        ensures told { Adds result (self.old.held.items ++ short_of short.now)
            self.new.held.items (S.told sink.old) (S.told sink.new) }
        ensures failures { S.failures sink.new ≡ counted (is_err result) (S.failures sink.old) }
    {
        if self.held.is_empty() && sink.hold_short(short) {
            return Ok(());
        }
        self.add(short.as_slice(), sink)
    }

    /// Adds a text. Of most nothing is behind their front.
    #[inline(always)]
    pub fn add_text<S: Sink>(&mut self, text: &Text, sink: &mut S) -> Result<(), SinkFault>
        requires { S.failures sink.old < 2 ^ 64 - 1 }
        ensures told { Adds result (self.old.held.items ++ text_in text.now)
            self.new.held.items (S.told sink.old) (S.told sink.new) }
        ensures failures { S.failures sink.new ≡ counted (is_err result) (S.failures sink.old) }
    {
        self.add_short(&text.front, sink)?;
        if text.more.is_empty() {
            return Ok(());
        }
        self.add(text.more.as_slice(), sink)
    }

    /// Adds the digits of a time and a text behind them.
    #[inline(always)]
    pub fn add_timed<S: Sink>(
        &mut self,
        ms: u64,
        text: &[u8],
        sink: &mut S,
    ) -> Result<(), SinkFault>
        requires { S.failures sink.old < 2 ^ 64 - 1 }
        ensures told { Adds result (self.old.held.items ++ (decimal ms ++ text.now))
            self.new.held.items (S.told sink.old) (S.told sink.new) }
        ensures failures { S.failures sink.new ≡ counted (is_err result) (S.failures sink.old) }
    {
        if self.held.is_empty() && sink.hold_timed(ms, text) {
            return Ok(());
        }
        self.add_apart(ms, text, sink)
    }

    /// The same, one behind the other.
    #[inline(never)]
    fn add_apart<S: Sink>(&mut self, ms: u64, text: &[u8], sink: &mut S) -> Result<(), SinkFault>
        requires { S.failures sink.old < 2 ^ 64 - 1 }
        ensures told { Adds result (self.old.held.items ++ (decimal ms ++ text.now))
            self.new.held.items (S.told sink.old) (S.told sink.new) }
        ensures failures { S.failures sink.new ≡ counted (is_err result) (S.failures sink.old) }
    {
        let mut digits = Buffer::new();
        self.add(digits.format(ms).as_bytes(), sink)?;
        self.add(text, sink)
    }

    /// Hands on what is held back, and then a piece for which there was no room.
    fn pass_on<S: Sink>(&mut self, piece: &[u8], sink: &mut S) -> Result<(), SinkFault>
        requires { S.failures sink.old < 2 ^ 64 - 1 }
        ensures told { Adds result (self.old.held.items ++ piece.now) self.new.held.items
            (S.told sink.old) (S.told sink.new) }
        ensures failures { S.failures sink.new ≡ counted (is_err result) (S.failures sink.old) }
    {
        self.send(sink)?;
        self.held.clear();
        write_whole(piece, sink)
    }

    /// Adds pieces, one after another.
    pub fn add_all<S: Sink>(&mut self, pieces: &[&[u8]], sink: &mut S) -> Result<(), SinkFault>
        requires { S.failures sink.old < 2 ^ 64 - 1 }
        ensures told { Adds result
            (self.old.held.items ++ joined (map (λ piece. piece.now) pieces.now))
            self.new.held.items (S.told sink.old) (S.told sink.new) }
        ensures failures { S.failures sink.new ≡ counted (is_err result) (S.failures sink.old) }
    {
        for piece in pieces {
            self.add(piece, sink)?;
        }
        Ok(())
    }

    /// Hands on what is held back.
    pub fn send<S: Sink>(&self, sink: &mut S) -> Result<(), SinkFault>
        requires { S.failures sink.old < 2 ^ 64 - 1 }
        ensures told { Wrote result self.now.held.items (S.told sink.old) (S.told sink.new) }
        ensures failures { S.failures sink.new ≡ counted (is_err result) (S.failures sink.old) }
    {
        write_whole(self.held.as_slice(), sink)
    }
}

/// Hands a piece to a sink until it has taken all of it, however few bytes it takes a call.
pub(crate) fn write_whole<S: Sink>(piece: &[u8], sink: &mut S) -> Result<(), SinkFault>
    requires { S.failures sink.old < 2 ^ 64 - 1 }
    ensures told { Wrote result piece.now (S.told sink.old) (S.told sink.new) }
    ensures failures { S.failures sink.new ≡ counted (is_err result) (S.failures sink.old) }
{
    let mut written = 0;
    while written < piece.len() {
        let taken = sink.write(&piece[written..])?;
        if taken == 0 {
            return Err(SinkFault);
        }
        written += taken;
    }
    Ok(())
}
