//! A block of lines that comes again, while it does.

ghost use Rattle.std.specs.Prelude.{◌≡◌, ◌≢◌, ◌≤◌, ◌<◌, ◌+◌, ◌-◌, ◌^◌, [], ◌++◌, length, is_err, IsTrue, OnOk};
ghost use Rattle.snl_output.specs.Devices.{counted, told_more, Wrote};
ghost use Rattle.snl_watch.specs.Folding.{again_line, more_words};

use crate::lines::ms_of;
use crate::writer::write_pieces;
use crate::zero::{BESIDE, Zero};
use arrayvec::ArrayVec;
use itoa::Buffer;
use snl_output::{Sink, SinkFault};

/// How many bytes are held at most of a block that has begun to come again.
const HELD: usize = 16_384;

/// How many bytes a time has at most: its digits, and the time of day.
const TIME: usize = 45;

/// How many of these are digits.
const DIGITS: usize = TIME - BESIDE;

/// A block of lines that comes again. What came of it whole is counted, and the rest is held.
#[derive(Drop)]
pub(crate) struct Block {
    /// How many lines it has; 0 where none comes again.
    size: usize,
    /// How often it came again, whole.
    times: u64,
    /// The time of the last line of these, and the time of day, where that is known.
    until: ArrayVec<u8, TIME>,
    /// How many lines are held with which it begins once more.
    count: usize,
    /// These, with the notes in front of them.
    held: ArrayVec<u8, HELD>,
}

/// The digits with which a line begins, at most so many as a time has.
fn digits_in(line: &[u8]) -> &[u8] {
    let most = line.len().min(DIGITS);
    for (place, byte) in line[..most].iter().enumerate() {
        if !byte.is_ascii_digit() {
            return &line[..place];
        }
    }
    &line[..most]
}

/// The time with which a line begins, and the time of day by the date of 0 ms.
fn time_of(line: &[u8], zero: Zero) -> ArrayVec<u8, TIME> {
    let mut time = ArrayVec::new();
    let digits = digits_in(line);
    let _digits = time.try_extend_from_slice(digits);
    let _beside = time.try_extend_from_slice(zero.beside(ms_of(digits)).as_slice());
    time
}

impl Block {
    ghost use Rattle.snl_watch.specs.Blocks.{is_none, told_again};

    /// No block comes again.
    pub(crate) fn none() -> Self
        ensures { is_none result }
    {
        Block {
            size: 0,
            times: 0,
            until: ArrayVec::new(),
            count: 0,
            held: ArrayVec::new(),
        }
    }

    /// How many lines it has; 0 where none comes again.
    pub(crate) fn size(&self) -> usize
        ensures { result ≡ self.now.size }
    {
        self.size
    }

    /// The block at the end of what was written: so many lines.
    pub(crate) fn begin(&mut self, size: usize)
        ensures size { self.new.size ≡ size }
        ensures times { self.new.times ≡ 0 }
        ensures count { self.new.count ≡ 0 }
        ensures held { self.new.held.items ≡ [] }
    {
        self.size = size;
        self.times = 0;
        self.until.clear();
        self.count = 0;
        self.held.clear();
    }

    /// Whether a line of it can be held, with a note.
    pub(crate) fn has_room(&self, note: &[u8], line: &[u8]) -> bool
        ensures held { IsTrue result → length self.now.held.items
            + (length note.now + length line.now) ≤ 16384 }
        ensures times { IsTrue result → self.now.times < 2 ^ 64 - 1 }
        ensures count { IsTrue result → self.now.count < self.now.size }
    {
        self.times < u64::MAX
            && self.count < self.size
            && note.len() <= HELD
            && line.len() <= HELD
            && note.len() + line.len() <= self.held.remaining_capacity()
    }

    /// Holds the next line of it, with the notes in front.
    fn hold(&mut self, note: &[u8], line: &[u8])
        requires held { length self.old.held.items + (length note.now + length line.now) ≤ 16384 }
        requires count { self.old.count < self.old.size }
        ensures held { self.new.held.items ≡ self.old.held.items ++ (note.now ++ line.now) }
        ensures count { self.new.count ≡ self.old.count + 1 }
        ensures size { self.new.size ≡ self.old.size }
        ensures times { self.new.times ≡ self.old.times }
    {
        let _noted = self.held.try_extend_from_slice(note);
        let _lined = self.held.try_extend_from_slice(line);
        self.count += 1;
    }

    /// Counts it where it is held whole, and holds nothing of it then. The last line that is held is lent.
    fn count_whole(&mut self, line: &[u8], zero: Zero)
        requires times { self.old.times < 2 ^ 64 - 1 }
        ensures whole { self.old.count ≡ self.old.size → self.new.times ≡ self.old.times + 1 }
        ensures none { self.old.count ≡ self.old.size → self.new.count ≡ 0 }
        ensures free { self.old.count ≡ self.old.size → self.new.held.items ≡ [] }
        ensures part { self.old.count < self.old.size → self.new ≡ self.old }
        ensures size { self.new.size ≡ self.old.size }
    {
        if self.count == self.size {
            self.times += 1;
            self.until = time_of(line, zero);
            self.count = 0;
            self.held.clear();
        }
    }

    /// Takes the next line of it, with the notes in front.
    pub(crate) fn take(&mut self, note: &[u8], line: &[u8], zero: Zero)
        requires held { length self.old.held.items + (length note.now + length line.now) ≤ 16384 }
        requires times { self.old.times < 2 ^ 64 - 1 }
        requires count { self.old.count < self.old.size }
        ensures whole { self.old.count + 1 ≡ self.old.size → self.new.times ≡ self.old.times + 1 }
        ensures none { self.old.count + 1 ≡ self.old.size → self.new.count ≡ 0 }
        ensures free { self.old.count + 1 ≡ self.old.size → self.new.held.items ≡ [] }
        ensures more { self.old.count + 1 < self.old.size → self.new.count ≡ self.old.count + 1 }
        ensures held { self.old.count + 1 < self.old.size →
            self.new.held.items ≡ self.old.held.items ++ (note.now ++ line.now) }
        ensures times { self.old.count + 1 < self.old.size → self.new.times ≡ self.old.times }
        ensures size { self.new.size ≡ self.old.size }
    {
        self.hold(note, line);
        self.count_whole(line, zero);
    }

    /// Writes that the block came again, where it did.
    fn write_again<S: Sink>(&self, sink: &mut S) -> Result<(), SinkFault>
        requires { S.failures sink.old < 2 ^ 64 - 1 }
        ensures told { Wrote result (told_again self.now) (S.told sink.old) (S.told sink.new) }
        ensures failures { S.failures sink.new ≡ counted (is_err result) (S.failures sink.old) }
    {
        if self.times == 0 {
            return write_pieces(sink, &[]);
        }
        let more = more_words(self.times);
        if self.size == 1 {
            return write_one(sink, self.times, more, self.until.as_slice());
        }
        write_many(sink, self.size, self.times, more, self.until.as_slice())
    }

    /// Writes how often the block came again, and what is held of it. Mostly that is nothing.
    #[inline(always)]
    pub(crate) fn write<S: Sink>(&self, sink: &mut S) -> Result<(), SinkFault>
        requires { S.failures sink.old < 2 ^ 64 - 1 }
        ensures told { OnOk result (S.told sink.new
            ≡ told_more (S.told sink.old) (told_again self.now ++ self.now.held.items)) }
        ensures failures { S.failures sink.new ≡ counted (is_err result) (S.failures sink.old) }
    {
        if self.times == 0 && self.held.is_empty() {
            return Ok(());
        }
        self.write_some(sink)
    }

    /// The same, where there is something to write.
    #[inline(never)]
    fn write_some<S: Sink>(&self, sink: &mut S) -> Result<(), SinkFault>
        requires { S.failures sink.old < 2 ^ 64 - 1 }
        ensures told { OnOk result (S.told sink.new
            ≡ told_more (S.told sink.old) (told_again self.now ++ self.now.held.items)) }
        ensures failures { S.failures sink.new ≡ counted (is_err result) (S.failures sink.old) }
    {
        self.write_again(sink)?;
        write_pieces(sink, &[self.held.as_slice()])
    }
}

/// What stands behind how often a block came again.
fn more_words(times: u64) -> &'static [u8]
    ensures { result.now ≡ more_words times }
{
    if times == 1 {
        b" time more, up to "
    } else {
        b" times more, up to "
    }
}

/// Writes that a line came again.
fn write_one<'t, S: Sink>(
    sink: &mut S,
    times: u64,
    more: &'t [u8],
    until: &'t [u8],
) -> Result<(), SinkFault>
    requires failures { S.failures sink.old < 2 ^ 64 - 1 }
    requires more { more.now ≡ more_words times }
    ensures told { Wrote result (again_line 1 times until.now) (S.told sink.old) (S.told sink.new) }
    ensures failures { S.failures sink.new ≡ counted (is_err result) (S.failures sink.old) }
{
    let mut digits = Buffer::new();
    let times = digits.format(times).as_bytes();
    write_pieces(sink, &[b"# this line ", times, more, until, b"\n"])
}

/// Writes that lines came again, so many, not one.
fn write_many<'t, S: Sink>(
    sink: &mut S,
    size: usize,
    times: u64,
    more: &'t [u8],
    until: &'t [u8],
) -> Result<(), SinkFault>
    requires failures { S.failures sink.old < 2 ^ 64 - 1 }
    requires more { more.now ≡ more_words times }
    requires many { size ≢ 1 }
    ensures told { Wrote result (again_line size times until.now) (S.told sink.old)
        (S.told sink.new) }
    ensures failures { S.failures sink.new ≡ counted (is_err result) (S.failures sink.old) }
{
    let mut size_digits = Buffer::new();
    let mut digits = Buffer::new();
    let size = size_digits.format(size).as_bytes();
    let times = digits.format(times).as_bytes();
    write_pieces(
        sink,
        &[b"# these ", size, b" lines ", times, more, until, b"\n"],
    )
}
