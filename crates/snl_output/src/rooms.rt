//! Room for lines, in which a sink holds what it does not hand on yet.

ghost use Rattle.std.specs.Prelude.{◌≡◌, ◌+◌, ◌≤◌, ◌++◌, [], decimal, drop, length, take, IfOk, if◌then◌else◌};
ghost use Rattle.snl_output.specs.Texts.{short_of, text_in};

use crate::formats::Format;
use crate::laying::{lay_print_at, lay_timed_at};
use crate::texts::{ROW, Short, Text, place};
use std::alloc::{AllocError, Global};

/// How many bytes there is room for.
const ROOM: usize = 65_536;

/// The digits of a time. They are made once for all lines of an instant.
#[derive(Clone, Copy)]
struct Stamp {
    /// The time, in milliseconds.
    ms: u64,
    digits: Short,
    ghost digits_are: { short_of digits ≡ decimal ms },
}

/// Room for lines. Nothing is handed on from here: who has it does that.
#[derive(Drop)]
pub struct Room {
    /// What is held, and behind it what was held before.
    bytes: Vec<u8>,
    /// How many bytes are held.
    count: usize,
    /// The time of the last line that came with one.
    stamp: Stamp,
    ghost within: { count ≤ length bytes.items },
}

impl Stamp {
    /// The digits of a time.
    #[cold]
    #[inline(never)]
    fn of(ms: u64) -> Self
        ensures { result.ms ≡ ms }
    {
        Stamp {
            ms,
            digits: Short::natural(ms),
        }
    }
}

impl Room {
    ghost use Rattle.snl_output.specs.Formats.{shown_in};
    ghost use Rattle.snl_output.specs.Rooms.{held_in};
    ghost use Rattle.snl_output.specs.Spelled.{spelled_in};

    /// Room with nothing in it. The only error is that memory ends.
    pub fn new(alloc: Global) -> Result<Self, AllocError>
        ensures { IfOk result (λ room. held_in room ≡ []) }
    {
        let mut bytes = Vec::new(alloc);
        bytes.resize(ROOM, 0)?;
        Ok(Room {
            bytes,
            count: 0,
            stamp: Stamp::of(0),
        })
    }

    /// Holds all of a piece, where there is room for it, and answers whether it does. Else it holds nothing of it.
    #[inline(always)]
    pub fn hold(&mut self, piece: &[u8]) -> bool
        ensures { held_in self.new ≡ (if result then held_in self.old ++ piece.now
            else held_in self.old) }
    {
        let at = self.count;
        if piece.len() > self.bytes.len() - at {
            return false;
        }
        place(self.bytes.as_mut_slice(), at, piece);
        self.count = at + piece.len();
        true
    }

    /// The same of a short text, which takes the room of a row.
    #[inline(always)]
    pub fn hold_short(&mut self, short: &Short) -> bool
        ensures { held_in self.new ≡ (if result then held_in self.old ++ short_of short.now
            else held_in self.old) }
    {
        let at = self.count;
        if self.bytes.len() - at < ROW {
            return false;
        }
        short.lay(self.bytes.as_mut_slice(), at);
        self.count = at + short.len();
        true
    }

    /// Has the digits of a time ready.
    #[inline(always)]
    fn set_time(&mut self, ms: u64)
        ensures time { self.new.stamp.ms ≡ ms }
        ensures bytes { self.new.bytes ≡ self.old.bytes }
        ensures count { self.new.count ≡ self.old.count }
    {
        if ms != self.stamp.ms {
            self.stamp = Stamp::of(ms);
        }
    }

    /// The same of the digits of a time and a text behind them.
    #[inline(always)]
    pub fn hold_timed(&mut self, ms: u64, text: &[u8]) -> bool
        ensures { held_in self.new ≡ (if result then held_in self.old ++ (decimal ms ++ text.now)
            else held_in self.old) }
    {
        self.set_time(ms);
        let at = self.count;
        let left = self.bytes.len() - at;
        if left < ROW || text.len() > left - ROW {
            return false;
        }
        let digits = self.stamp.digits;
        digits.lay_with(self.bytes.as_mut_slice(), at, text);
        self.count = at + digits.len() + text.len();
        true
    }

    /// The same of the digits of a time, and a text behind them whose front stands in a row.
    #[inline(always)]
    pub fn hold_line(&mut self, ms: u64, text: &Text) -> bool
        ensures { held_in self.new ≡ (if result then held_in self.old
            ++ (decimal ms ++ text_in text.now) else held_in self.old) }
    {
        self.set_time(ms);
        let at = self.count;
        let digits = self.stamp.digits;
        let bytes = self.bytes.as_mut_slice();
        match lay_timed_at(bytes, at, digits, text) {
            Some(count) => {
                self.count = at + count;
                true
            }
            None => false,
        }
    }

    /// The same of the digits of a time, a text behind them, and what a format writes with some numbers.
    #[inline(always)]
    pub fn hold_print<'t>(
        &mut self,
        ms: u64,
        text: &'t Text,
        format: &'t Format,
        numbers: &'t [i64],
    ) -> bool
        ensures { held_in self.new ≡ (if result then held_in self.old
            ++ (decimal ms ++ (text_in text.now ++ shown_in (spelled_in format.now) numbers.now))
            else held_in self.old) }
    {
        self.set_time(ms);
        let at = self.count;
        let digits = self.stamp.digits;
        let bytes = self.bytes.as_mut_slice();
        match lay_print_at(bytes, at, digits, text, format, numbers) {
            Some(count) => {
                self.count = at + count;
                true
            }
            None => false,
        }
    }

    /// For how many more bytes there is room.
    pub fn left(&self) -> usize {
        self.bytes.len() - self.count
    }

    /// What is held.
    pub fn held(&self) -> &[u8]
        ensures { result.now ≡ held_in self.now }
    {
        &self.bytes.as_slice()[..self.count]
    }

    /// Lets go of so many bytes from the front.
    pub fn let_go(&mut self, count: usize)
        requires { count ≤ length (held_in self.old) }
        ensures { held_in self.new ≡ drop count (held_in self.old) }
    {
        let end = self.held().len();
        self.bytes.copy_within(count..end, 0);
        self.count = end - count;
    }
}
