//! A source and a sink over bytes in memory. Each may fail at a call of a stated number.

ghost use Rattle.std.specs.Prelude.{◌≡◌, ◌≤◌, ◌<◌, ◌-◌, ◌^◌, ◌++◌, [], length, take, true, IfOk, OnErr, is_err, vec_capacity};
ghost use Rattle.std.proofs.Props.{props};
ghost use Rattle.snl_output.specs.Devices.{counted, write_fails};
ghost use Rattle.snl_output.specs.Sources.{given, says_end};

use snl_machine::{Sink, SinkFault};
use snl_output::{Source, SourceFault};
use std::alloc::{AllocError, Global};

/// A source over bytes in memory. It gives at most so many of them a call, and fails at no call but the one that it is told.
#[derive(Drop)]
pub struct Feed<'b> {
    bytes: &'b [u8],
    /// How many of them it gave.
    at: usize,
    /// Whether it said last that no more come.
    ended: bool,
    /// Whether its last call failed.
    broke: bool,
    /// How many bytes a call gives at most.
    most: usize,
    /// Which of the calls to come fails, from 1; 0 where none does.
    fails_in: u64,
    failures: u64,
    ghost gives: { 0 < most },
    ghost within: { at ≤ length bytes.now },
    ghost over: { ended ≡ true → at ≡ length bytes.now } by { Prim.hlevel props },
}

impl<'b> Feed<'b> {
    ghost use Rattle.snl_trace.specs.Memory.{given_by};

    /// A source of these bytes that gives at most so many in one call.
    pub fn new(bytes: &'b [u8], most: usize) -> Self
        requires { 0 < most }
        ensures bytes { result.bytes.now ≡ bytes.now }
        ensures at { result.at ≡ 0 }
        ensures most { result.most ≡ most }
        ensures fails_in { result.fails_in ≡ 0 }
        ensures failures { result.failures ≡ 0 }
    {
        Feed {
            bytes,
            at: 0,
            ended: false,
            broke: false,
            most,
            fails_in: 0,
            failures: 0,
        }
    }

    /// From now on the call of this number fails, from 1; none for 0. The calls behind it go on where it stood.
    pub fn fail(&mut self, call: u64)
        ensures bytes { self.new.bytes.now ≡ self.old.bytes.now }
        ensures at { self.new.at ≡ self.old.at }
        ensures ended { self.new.ended ≡ self.old.ended }
        ensures broke { self.new.broke ≡ self.old.broke }
        ensures most { self.new.most ≡ self.old.most }
        ensures fails_in { self.new.fails_in ≡ call }
        ensures failures { self.new.failures ≡ self.old.failures }
    {
        self.fails_in = call;
    }

    /// Gives the next bytes: as many as are left, as a call gives, and as the room takes. The call that fails gives none.
    pub fn give(&mut self, room: &mut [u8]) -> Result<usize, SourceFault>
        requires { self.old.failures < 2 ^ 64 - 1 }
        ensures answer { result ≡ given_by self.old (length room.old) }
        ensures bytes { self.new.bytes.now ≡ self.old.bytes.now }
        ensures gave { take self.new.at self.new.bytes.now
            ≡ take self.old.at self.old.bytes.now ++ given result room.new }
        ensures ended { self.new.ended ≡ says_end result (length room.old) }
        ensures broke { self.new.broke ≡ is_err result }
        ensures most { self.new.most ≡ self.old.most }
        ensures fails_in { self.new.fails_in ≡ self.old.fails_in - 1 }
        ensures failures { self.new.failures ≡ counted (is_err result) self.old.failures }
    {
        self.broke = self.fails_in == 1;
        self.fails_in = self.fails_in.saturating_sub(1);
        if self.broke {
            self.ended = false;
            self.failures += 1;
            return Err(SourceFault);
        }
        let (_gave, left) = self.bytes.split_at(self.at);
        let count = left.len().min(self.most).min(room.len());
        let (next, _left) = left.split_at(count);
        room[..count].copy_from_slice(next);
        self.ended = count == 0 && !room.is_empty();
        self.at += count;
        Ok(count)
    }
}

impl Source for Feed<'_> {
    ghost gave = { λ feed. take feed.at feed.bytes.now };

    ghost ended = { λ feed. feed.ended };

    ghost broke = { λ feed. feed.broke };

    ghost failures = { λ feed. feed.failures };

    fn read(&mut self, room: &mut [u8]) -> Result<usize, SourceFault> {
        self.give(room)
    }
}

/// A sink that keeps what it takes, in room that is made when it is made. It fails where that is full, and at a call that it is
/// told.
#[derive(Drop)]
pub struct Sheet {
    text: Vec<u8>,
    /// For how many bytes it has room.
    room: usize,
    /// How many bytes a call takes at most.
    most: usize,
    /// Which of the calls to come is refused, from 1; 0 where none is.
    refused_in: u64,
    /// Whether that call takes nothing in the place of failing.
    takes_none: bool,
    failures: u64,
    ghost takes: { 0 < most },
    ghost kept: { room ≤ vec_capacity text },
    ghost within: { length text.items ≤ room },
}

impl Sheet {
    ghost use Rattle.snl_trace.specs.Memory.{kept_by, taken_by};

    /// An empty sink with room for so many bytes, that takes at most so many in one call.
    ///
    /// Fails only where the room was not to be had.
    pub fn new(alloc: Global, room: usize, most: usize) -> Result<Self, AllocError>
        requires { 0 < most }
        ensures text { IfOk result (λ sheet. sheet.text.items ≡ []) }
        ensures room { IfOk result (λ sheet. sheet.room ≡ room) }
        ensures most { IfOk result (λ sheet. sheet.most ≡ most) }
        ensures refused { IfOk result (λ sheet. sheet.refused_in ≡ 0) }
        ensures failures { IfOk result (λ sheet. sheet.failures ≡ 0) }
    {
        Ok(Sheet {
            text: Vec::with_capacity(alloc, room)?,
            room,
            most,
            refused_in: 0,
            takes_none: false,
            failures: 0,
        })
    }

    /// From now on the call of this number is refused, from 1; none for 0. It fails, or takes nothing, which counts as a failure
    /// too where there was something to take.
    pub fn refuse(&mut self, call: u64, takes_none: bool)
        ensures { self.new ≡ record self.old { refused_in = call; takes_none = takes_none } }
    {
        self.refused_in = call;
        self.takes_none = takes_none;
    }

    /// What it took so far.
    pub fn text(&self) -> &[u8]
        ensures { result.now ≡ self.now.text.items }
    {
        self.text.as_slice()
    }

    /// Keeps bytes from the front of a piece, as many as a call takes and as there is room for. It fails where that are none of a
    /// piece that has some.
    fn keep(&mut self, piece: &[u8]) -> Result<usize, SinkFault>
        ensures answer { result ≡ kept_by self.old (length piece.now) }
        ensures text { IfOk result (λ n. self.new.text.items
            ≡ self.old.text.items ++ take n piece.now) }
        ensures untaken { OnErr result (self.new.text.items ≡ self.old.text.items) }
        ensures room { self.new.room ≡ self.old.room }
        ensures most { self.new.most ≡ self.old.most }
        ensures refused { self.new.refused_in ≡ self.old.refused_in }
        ensures takes_none { self.new.takes_none ≡ self.old.takes_none }
        ensures failures { self.new.failures ≡ self.old.failures }
    {
        let count = piece.len().min(self.most).min(self.room - self.text.len());
        if count == 0 && !piece.is_empty() {
            return Err(SinkFault);
        }
        match self.text.extend_from_slice(&piece[..count]) {
            Ok(()) => Ok(count),
            Err(_) => unreachable!(),
        }
    }

    /// Takes bytes from the front of a piece, as many as a call takes and as there is room for. It fails where there is no room
    /// left for any, and at the call that is refused.
    pub fn take(&mut self, piece: &[u8]) -> Result<usize, SinkFault>
        requires { self.old.failures < 2 ^ 64 - 1 }
        ensures answer { result ≡ taken_by self.old (length piece.now) }
        ensures text { IfOk result (λ n. self.new.text.items
            ≡ self.old.text.items ++ take n piece.now) }
        ensures untaken { OnErr result (self.new.text.items ≡ self.old.text.items) }
        ensures room { self.new.room ≡ self.old.room }
        ensures most { self.new.most ≡ self.old.most }
        ensures refused { self.new.refused_in ≡ self.old.refused_in - 1 }
        ensures takes_none { self.new.takes_none ≡ self.old.takes_none }
        ensures failures { self.new.failures
            ≡ counted (write_fails result (length piece.now)) self.old.failures }
    {
        let refused = self.refused_in == 1;
        self.refused_in = self.refused_in.saturating_sub(1);
        let answer = if !refused {
            self.keep(piece)
        } else if self.takes_none {
            Ok(0)
        } else {
            Err(SinkFault)
        };
        if answer.is_err() || answer == Ok(0) && !piece.is_empty() {
            self.failures += 1;
        }
        answer
    }
}

impl Sink for Sheet {
    ghost use Rattle.std.specs.Prelude.{Some};

    ghost told = { λ sheet. Some sheet.text.items };

    ghost failures = { λ sheet. sheet.failures };

    fn write(&mut self, piece: &[u8]) -> Result<usize, SinkFault> {
        self.take(piece)
    }
}
