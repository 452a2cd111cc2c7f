//! Streams of the system that tell what they gave: the only place where a byte of a trace comes in.

ghost use Rattle.std.specs.Prelude.{◌≡◌, ◌+◌, ◌-◌, ◌++◌, ◌^◌, ◌<◌, ◌≤◌, [], false, true, IfOk, IfSome, length, is_err};

use snl_past::Past;
use snl_trace::{Source, SourceFault};
use std::io::Read;

/// How many bytes a stream gives at most: 2^63 - 1.
const MOST: u64 = 9_223_372_036_854_775_807;

/// A reader of the system, and what it gave.
#[derive(Drop)]
pub struct Noted<I: Read> {
    inner: I,
    past: Past,
}

impl<I: Read> Noted<I> {
    ghost use Rattle.snc_cli.specs.Streams.{came};

    /// Nothing was read yet.
    pub fn new(inner: I) -> Self
        ensures { result.past.bytes ≡ [] }
    {
        Noted {
            inner,
            past: Past::new(),
        }
    }

    /// Reads on; None where that failed.
    fn read(&mut self, room: &mut [u8]) -> Option<usize>
        ensures count { IfSome result (λ n. n ≤ length room.old) }
        ensures gave { self.new.past.bytes ≡ self.old.past.bytes ++ came result room.new }
    {
        let count = self.inner.read(room).ok()?;
        self.past.note(&room[..count]);
        Some(count)
    }
}

/// A stream as a source: what it gave, what it said last, and how often it failed.
#[derive(Drop)]
pub struct Stream<I: Read> {
    input: Noted<I>,
    count: u64,
    ended: bool,
    broke: bool,
    failures: u64,
    ghost counted: { length input.past.bytes ≡ count },
    ghost short: { count < 2 ^ 63 },
}

impl<I: Read> Stream<I> {
    ghost use Rattle.snl_output.specs.Devices.{counted};
    ghost use Rattle.snl_output.specs.Sources.{given, says_end};

    /// Nothing was read yet.
    pub fn new(inner: I) -> Self
        ensures gave { result.input.past.bytes ≡ [] }
        ensures ended { result.ended ≡ false }
        ensures failures { result.failures ≡ 0 }
    {
        Stream {
            input: Noted::new(inner),
            count: 0,
            ended: false,
            broke: false,
            failures: 0,
        }
    }

    /// Nothing was read, which counts as a failure.
    pub fn fail(&mut self) -> Result<usize, SourceFault>
        requires { self.old.failures < 2 ^ 64 - 1 }
        ensures fault { is_err result ≡ true }
        ensures gave { self.new.input.past.bytes ≡ self.old.input.past.bytes }
        ensures short { length self.new.input.past.bytes < 2 ^ 63 }
        ensures ended { self.new.ended ≡ false }
        ensures broke { self.new.broke ≡ true }
        ensures failures { self.new.failures ≡ self.old.failures + 1 }
    {
        self.ended = false;
        self.broke = true;
        self.failures += 1;
        Err(SourceFault)
    }

    /// Reads on. A stream that gave nearly as many bytes as it may fails.
    pub fn next(&mut self, room: &mut [u8]) -> Result<usize, SourceFault>
        requires { self.old.failures < 2 ^ 64 - 1 }
        ensures count { IfOk result (λ n. n ≤ length room.old) }
        ensures gave { self.new.input.past.bytes
            ≡ self.old.input.past.bytes ++ given result room.new }
        ensures ended { self.new.ended ≡ says_end result (length room.old) }
        ensures broke { self.new.broke ≡ is_err result }
        ensures short { length self.new.input.past.bytes < 2 ^ 63 }
        ensures failures { self.new.failures ≡ counted (is_err result) self.old.failures }
    {
        if room.len() as u64 > MOST - self.count {
            return self.fail();
        }
        let Some(count) = self.input.read(room) else {
            return self.fail();
        };
        self.count += count as u64;
        self.ended = count == 0 && !room.is_empty();
        self.broke = false;
        Ok(count)
    }
}

impl<I: Read> Source for Stream<I> {
    ghost gave = { λ stream. stream.input.past.bytes };

    ghost ended = { λ stream. stream.ended };

    ghost broke = { λ stream. stream.broke };

    ghost failures = { λ stream. stream.failures };

    fn read(&mut self, room: &mut [u8]) -> Result<usize, SourceFault> {
        self.next(room)
    }
}
