//! `Sink`: where the lines of a run go, and what it hears beside them.

use crate::formats::Format;
use crate::texts::{Short, Text};
use thiserror::Error;

/// A sink did not take what it was given.
#[derive(Clone, Copy, Debug, PartialEq, Eq, Error)]
#[error("the output can't be written")]
pub struct SinkFault;

/// A clause of a state fired: its condition held, or it has none. Its tick, its block and its line come next, and where one of
/// them stops the run there is no line of it.
#[derive(Clone, Copy, Debug, PartialEq, Eq)]
pub struct Fired {
    /// When, in milliseconds.
    pub ms: u64,
    /// The number of the state set, from 0 on, in the order of the source.
    pub set: usize,
    /// The number of the state that it was in, from 0 on, in the order of the source.
    pub state: usize,
    /// The number of the clause among those of that state, from 0 on, in the order of the source.
    pub clause: usize,
}

/// Why a `pvPut` was refused (SNL Reference, "pvPut").
#[derive(Clone, Copy, Debug, PartialEq, Eq)]
pub enum RefusalCause {
    /// No channel is assigned to what was put: -1.
    NoLink,
    /// The channel is not connected: -2.
    Down,
    /// With `ASYNC`, an earlier put was not answered yet: -1.
    Waiting,
}

/// A `pvPut` was refused: it wrote no line.
#[derive(Clone, Copy, Debug, PartialEq, Eq)]
pub struct Refused {
    /// When, in milliseconds.
    pub ms: u64,
    /// The number of the state set that put, from 0 on, in the order of the source.
    pub set: usize,
    /// The number of the channel, from 0 on, in the order in which `assign` definitions first name channels; None where there is
    /// no link.
    pub channel: Option<usize>,
    /// Why.
    pub why: RefusalCause,
}

/// A state set went from a state to a state, or out of the program: the line of that was written just before. What the states do
/// on the way comes next.
#[derive(Clone, Copy, Debug, PartialEq, Eq)]
pub struct Went {
    /// When, in milliseconds.
    pub ms: u64,
    /// The number of the state set, from 0 on, in the order of the source.
    pub set: usize,
    /// The number of the state that it left, from 0 on, in the order of the source.
    pub from: usize,
    /// The number of the state that it is in now; None where the way leads out of the program.
    pub to: Option<usize>,
    /// The number of the clause among those of the state that was left, from 0 on, in the order of the source.
    pub clause: usize,
}

/// A `pvPut` was done: its line was written just before.
#[derive(Clone, Copy, Debug, PartialEq, Eq)]
pub struct Put {
    /// When, in milliseconds.
    pub ms: u64,
    /// The number of the state set that put, from 0 on, in the order of the source.
    pub set: usize,
    /// The number of the link, from 0 on: which variable or element was put.
    pub link: usize,
    /// The number of the channel, from 0 on, in the order in which `assign` definitions first name channels.
    pub channel: usize,
}

/// Where the lines of a run go. It may also hear what they say: which line of the trace is at work, which clauses fired, which
/// transitions and puts were done and which puts were refused, beside the lines and in their order, and when the run waits. One
/// that wants lines alone says nothing of that.
///
/// A sink may tell the bytes that it was given so far, and counts its failures.
pub trait Sink {
    ghost use Rattle.std.specs.Prelude.{◌≡◌, ◌+◌, ◌-◌, ◌++◌, ◌^◌, ◌<◌, ◌≤◌, ℕ, List, Option, IfOk, OnErr, decimal, length, take, if◌then◌else◌};
    ghost use Rattle.snl_output.specs.Devices.{told_more, write_fails};
    ghost use Rattle.snl_output.specs.Formats.{shown_in};
    ghost use Rattle.snl_output.specs.Spelled.{spelled_in};
    ghost use Rattle.snl_output.specs.Texts.{short_of, text_in};

    ghost told: { Self → Option (List ℕ) };

    ghost failures: { Self → ℕ };

    /// Takes bytes from the front of a piece, and answers how many. Taking none of a piece that is not
    /// empty counts as a failure; a write that fails takes nothing.
    fn write(&mut self, piece: &[u8]) -> Result<usize, SinkFault>
        requires { failures self.old < 2 ^ 64 - 1 }
        ensures count { IfOk result (λ n. n ≤ length piece.now) }
        ensures taken { IfOk result (λ n. told self.new
            ≡ told_more (told self.old) (take n piece.now)) }
        ensures untaken { OnErr result (told self.new ≡ told self.old) }
        ensures failures { failures self.new ≡ (if write_fails result
            (length piece.now) then failures self.old + 1 else failures self.old) };

    /// Takes all of a piece where it has a buffer with room for that, and answers whether it did. Else it takes nothing, and the piece
    /// comes by `write`. A sink without a buffer takes nothing.
    #[inline(always)]
    fn hold(&mut self, _piece: &[u8]) -> bool
        ensures told { told self.new ≡ (if result then told_more (told self.old) _piece.now
            else told self.old) }
        ensures failures { failures self.new ≡ failures self.old }
    {
        false
    }

    /// The same of a short text.
    #[inline(always)]
    fn hold_short(&mut self, _short: &Short) -> bool
        ensures told { told self.new ≡ (if result then told_more (told self.old)
            (short_of _short.now) else told self.old) }
        ensures failures { failures self.new ≡ failures self.old }
    {
        false
    }

    /// The same of the digits of a time in milliseconds and a text behind them.
    #[inline(always)]
    fn hold_timed(&mut self, _ms: u64, _text: &[u8]) -> bool
        ensures told { told self.new ≡ (if result then told_more (told self.old)
            (decimal _ms ++ _text.now) else told self.old) }
        ensures failures { failures self.new ≡ failures self.old }
    {
        false
    }

    /// The same of the digits of a time, and a text behind them whose front stands in a row.
    #[inline(always)]
    fn hold_line(&mut self, _ms: u64, _text: &Text) -> bool
        ensures told { told self.new ≡ (if result then told_more (told self.old)
            (decimal _ms ++ text_in _text.now) else told self.old) }
        ensures failures { failures self.new ≡ failures self.old }
    {
        false
    }

    /// The same of the digits of a time, a text behind them, and what a format writes with some numbers.
    #[inline(always)]
    fn hold_print<'t>(
        &mut self,
        _ms: u64,
        _text: &'t Text,
        _format: &'t Format,
        _numbers: &'t [i64],
    ) -> bool
        ensures told { told self.new ≡ (if result then told_more (told self.old)
            (decimal _ms ++ (text_in _text.now ++ shown_in (spelled_in _format.now) _numbers.now))
            else told self.old) }
        ensures failures { failures self.new ≡ failures self.old }
    {
        false
    }

    /// Hears that a clause fired, before its tick and its block. The words are those of the state set's copy as the conditions
    /// left them, one variable after another: who listens can tell what the condition saw.
    fn fired(&mut self, _clause: Fired, _words: &[i64])
        ensures told { told self.new ≡ told self.old }
        ensures failures { failures self.new ≡ failures self.old }
    {}

    /// Hears of a transition, right behind its line.
    fn went(&mut self, _transition: Went)
        ensures told { told self.new ≡ told self.old }
        ensures failures { failures self.new ≡ failures self.old }
    {}

    /// Hears of a put, right behind its line, with the values that were put.
    fn put(&mut self, _put: Put, _values: &[i64])
        ensures told { told self.new ≡ told self.old }
        ensures failures { failures self.new ≡ failures self.old }
    {}

    /// Hears that a line of the trace is at work, by its number from 1 on and its time in milliseconds, before anything that it
    /// leads to. What is then heard with an earlier time belongs to a wake, which runs in front of the line. A blank line and a
    /// comment are at no work.
    fn line(&mut self, _number: u128, _ms: u64)
        ensures told { told self.new ≡ told self.old }
        ensures failures { failures self.new ≡ failures self.old }
    {}

    /// Hears that a put was refused, where its line would be.
    fn refused(&mut self, _put: Refused)
        ensures told { told self.new ≡ told self.old }
        ensures failures { failures self.new ≡ failures self.old }
    {}

    /// Hears that the run now waits for more of its trace: a sink that holds lines back writes them out. Where it can't, its next
    /// write fails.
    fn wait(&mut self)
        ensures told { told self.new ≡ told self.old }
        ensures failures { failures self.new ≡ failures self.old }
    {}
}
