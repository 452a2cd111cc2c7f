//! Standard output, for lines that go out while the trace comes.

ghost use Rattle.std.specs.Prelude.{◌≡◌, [], Some, IfOk};

use snc::{Sink, SinkFault};
use snl_output::{Format, Room, Short, Text};
use snl_past::Past;
use std::alloc::{AllocError, Global};
use std::io::{self, Stdout, Write};

/// Standard output, and what it took. Beside the call of the system it is noted what that took: nothing else in a run's way out
/// has to be believed.
#[derive(Drop)]
pub struct Outlet {
    out: Stdout,
    past: Past,
}

impl Outlet {
    /// Nothing was written yet.
    pub fn new(out: Stdout) -> Self
        ensures { result.past.bytes ≡ [] }
    {
        Outlet {
            out,
            past: Past::new(),
        }
    }
}

impl Outlet {
    ghost use Rattle.std.specs.Prelude.{OnOk, ◌++◌};

    /// Writes all of a text, and waits until it is there. An empty text leaves standard output untouched. Fails where standard
    /// output does; then some of the text may have gone out.
    pub fn write_out(&mut self, text: &[u8]) -> io::Result<()>
        ensures { OnOk result (self.new.past.bytes ≡ self.old.past.bytes ++ text.now) }
    {
        if text.is_empty() {
            return Ok(());
        }
        self.write_all(text)?;
        self.flush()
    }
}

impl Write for Outlet {
    ghost contents = { λ outlet. Some outlet.past.bytes };

    fn write(&mut self, buf: &[u8]) -> io::Result<usize> {
        let count = self.out.write(buf)?;
        self.past.note(&buf[..count]);
        Ok(count)
    }

    fn flush(&mut self) -> io::Result<()> {
        self.out.flush()
    }
}

/// Lines on their way to standard output. They are held back until the room for them is full, the run waits for its trace, or all is
/// written: what they tell is what went out, and behind it what is held back.
#[derive(Drop)]
pub struct Lines {
    out: Outlet,
    /// What was not written out yet.
    room: Room,
    failures: u64,
    /// Whether what was held back could not be written out.
    is_stuck: bool,
}

impl Lines {
    ghost use Rattle.std.specs.Prelude.{OnErr, OnOk, ◌+◌, ◌-◌, ◌++◌, ◌^◌, ◌<◌, ◌≤◌, length, take, if◌then◌else◌};
    ghost use Rattle.snc_cli.specs.Streams.{taken_by};
    ghost use Rattle.snl_output.specs.Devices.{write_fails};
    ghost use Rattle.snl_output.specs.Rooms.{held_in};

    /// Nothing was written yet. The only error is that memory ends.
    pub fn new(alloc: Global, out: Outlet) -> Result<Self, AllocError>
        ensures out { IfOk result (λ lines. lines.out ≡ out) }
        ensures held { IfOk result (λ lines. held_in lines.room ≡ []) }
        ensures failures { IfOk result (λ lines. lines.failures ≡ 0) }
    {
        let room = Room::new(alloc)?;
        Ok(Lines {
            out,
            room,
            failures: 0,
            is_stuck: false,
        })
    }

    /// Writes out what is held back. Where that works, all that was told has gone out.
    pub fn finish(&mut self) -> Result<(), SinkFault>
        ensures told { taken_by self.new ≡ taken_by self.old }
        ensures out { OnOk result (self.new.out.past.bytes ≡ taken_by self.new) }
    {
        self.send()?;
        self.out.flush().map_err(|_| SinkFault)
    }

    /// Hands what is held back to standard output. Where that fails, what did not go out is still held.
    fn send(&mut self) -> Result<(), SinkFault>
        ensures told { taken_by self.new ≡ taken_by self.old }
        ensures empty { OnOk result (held_in self.new.room ≡ []) }
        ensures failures { self.new.failures ≡ self.old.failures }
    {
        'send: while !self.room.held().is_empty() {
            match self.out.write(self.room.held()) {
                Ok(0) | Err(_) => return Err(SinkFault),
                Ok(count) => self.room.let_go(count),
            }
        }
        Ok(())
    }

    /// Takes a piece for which there was no room, or of it what there is room for then.
    #[cold]
    #[inline(never)]
    fn take(&mut self, piece: &[u8]) -> Result<usize, SinkFault>
        requires { self.old.failures < 2 ^ 64 - 1 }
        ensures count { IfOk result (λ n. n ≤ length piece.now) }
        ensures taken { IfOk result (λ n. taken_by self.new
            ≡ taken_by self.old ++ take n piece.now) }
        ensures untaken { OnErr result (taken_by self.new ≡ taken_by self.old) }
        ensures failures { self.new.failures ≡ (if write_fails result
            (length piece.now) then self.old.failures + 1 else self.old.failures) }
    {
        if !self.is_stuck && self.send().is_ok() {
            let count = piece.len().min(self.room.left());
            if count > 0 && self.room.hold(&piece[..count]) {
                return Ok(count);
            }
        }
        self.failures += 1;
        Err(SinkFault)
    }
}

impl Sink for Lines {
    ghost use Rattle.std.specs.Prelude.{◌++◌};
    ghost use Rattle.snl_output.specs.Rooms.{held_in};

    ghost told = { λ lines. Some (lines.out.past.bytes ++ held_in lines.room) };

    ghost failures = { λ lines. lines.failures };

    #[inline(always)]
    fn write(&mut self, piece: &[u8]) -> Result<usize, SinkFault> {
        if self.hold(piece) {
            return Ok(piece.len());
        }
        self.take(piece)
    }

    #[inline(always)]
    fn hold(&mut self, piece: &[u8]) -> bool {
        !self.is_stuck && self.room.hold(piece)
    }

    #[inline(always)]
    fn hold_short(&mut self, short: &Short) -> bool {
        !self.is_stuck && self.room.hold_short(short)
    }

    #[inline(always)]
    fn hold_timed(&mut self, ms: u64, text: &[u8]) -> bool {
        !self.is_stuck && self.room.hold_timed(ms, text)
    }

    #[inline(always)]
    fn hold_line(&mut self, ms: u64, text: &Text) -> bool {
        !self.is_stuck && self.room.hold_line(ms, text)
    }

    #[inline(always)]
    fn hold_print<'t>(
        &mut self,
        ms: u64,
        text: &'t Text,
        format: &'t Format,
        numbers: &'t [i64],
    ) -> bool {
        !self.is_stuck && self.room.hold_print(ms, text, format, numbers)
    }

    fn wait(&mut self) {
        if self.send().is_err() || self.out.flush().is_err() {
            self.is_stuck = true;
        }
    }
}
