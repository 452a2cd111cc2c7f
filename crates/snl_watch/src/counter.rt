//! Counts of lines that are known before, while they come in pieces, and what a run says beside them. It takes no memory while it
//! counts.

ghost use Rattle.std.specs.Prelude.{◌≡◌, ◌≤◌, ◌-◌, [], Some, length, take, true, vec_capacity, IfOk, IsTrue};
ghost use Rattle.snl_watch.specs.Counts as spec;
ghost use Rattle.snl_watch.specs.Folds.{ends_line, is_in_line};
ghost use Rattle.snl_watch.specs.Sets.{names_in};

use crate::line_ends::{digits_of, ends_line, is_one_line};
use crate::trail::Trail;
use indexmap::IndexSet;
use snl_output::{Fired, Put, Went};
use std::alloc::{AllocError, Global};

/// How often each of some lines came. What a line has in front, its digits, does not count.
#[derive(Drop)]
pub struct Counter {
    /// What follows the digits of the lines that are counted, without the newline.
    pub(crate) keys: IndexSet<Vec<u8>>,
    /// By key.
    pub(crate) counts: Vec<u64>,
    /// How many bytes behind the digits are looked at.
    pub(crate) room: usize,
    /// Whether nothing but digits came of this line.
    pub(crate) timed: bool,
    /// The bytes behind them.
    pub(crate) rest: Vec<u8>,
    /// What became of clauses, states and channels.
    trail: Trail,
    ghost capacity: { room ≤ vec_capacity rest },
    ghost within: { length rest.items ≤ room },
}

impl Counter {
    ghost use Rattle.snl_watch.specs.Seen.{seen};

    /// Counts of 0.
    pub fn new(
        alloc: Global,
        keys: IndexSet<Vec<u8>>,
        room: usize,
        trail: Trail,
    ) -> Result<Self, AllocError>
        ensures zero { IfOk result (λ c. seen c
            ≡ spec.reading_of (names_in keys) room (spec.no_cut)) }
        ensures keys { IfOk result (λ c. c.keys ≡ keys) }
        ensures room { IfOk result (λ c. c.room ≡ room) }
    {
        let counts = vec![in alloc; 0u64; keys.len()]?;
        Ok(Counter {
            keys,
            counts,
            room,
            timed: true,
            rest: Vec::with_capacity(alloc, room)?,
            trail,
        })
    }

    /// Takes a piece of the lines.
    pub fn take(&mut self, piece: &[u8])
        ensures seen { seen self.new ≡ spec.after (names_in self.old.keys) self.old.room
            (seen self.old) piece.now }
        ensures keys { self.new.keys ≡ self.old.keys }
        ensures room { self.new.room ≡ self.old.room }
    {
        self.trail.begin(piece);
        if self.timed && self.rest.is_empty() && ends_line(piece) && is_one_line(piece) {
            self.take_line(piece);
        } else {
            self.take_each(piece);
        }
    }

    /// The same, byte by byte.
    fn take_each(&mut self, piece: &[u8])
        ensures seen { seen self.new ≡ spec.after (names_in self.old.keys) self.old.room
            (seen self.old) piece.now }
        ensures keys { self.new.keys ≡ self.old.keys }
        ensures room { self.new.room ≡ self.old.room }
    {
        for byte in piece {
            self.step(*byte);
        }
    }

    /// Takes a line, of which nothing but digits came before. Most pieces of a run are lines.
    #[inline(always)]
    fn take_line(&mut self, line: &[u8])
        requires timed { self.old.timed ≡ true }
        requires begun { self.old.rest.items ≡ [] }
        requires ends { ends_line line.now ≡ true }
        requires one { is_in_line line.now ≡ true }
        ensures seen { seen self.new ≡ spec.after (names_in self.old.keys) self.old.room
            (seen self.old) line.now }
        ensures keys { self.new.keys ≡ self.old.keys }
        ensures room { self.new.room ≡ self.old.room }
    {
        let text = text_of(line, self.room);
        count(text, &self.keys, &mut self.counts, &self.trail);
    }

    /// Takes a byte.
    fn step(&mut self, byte: u8)
        ensures seen { seen self.new ≡ spec.step (names_in self.old.keys) self.old.room
            (seen self.old) byte }
        ensures keys { self.new.keys ≡ self.old.keys }
        ensures room { self.new.room ≡ self.old.room }
    {
        if byte == b'\n' {
            count(
                self.rest.as_slice(),
                &self.keys,
                &mut self.counts,
                &self.trail,
            );
            self.rest.clear();
            self.timed = true;
        } else if !(self.timed && byte.is_ascii_digit()) {
            self.timed = false;
            self.keep(byte);
        }
    }

    /// Keeps a byte, where it is looked at.
    fn keep(&mut self, byte: u8)
        ensures seen { seen self.new ≡ spec.with_rest (seen self.old)
            (spec.kept self.old.room self.old.rest.items byte) }
        ensures keys { self.new.keys ≡ self.old.keys }
        ensures room { self.new.room ≡ self.old.room }
    {
        if self.rest.len() < self.room {
            match self.rest.push(byte) {
                Ok(()) => {}
                Err(_) => unreachable!(),
            }
        }
    }

    /// Hears that a clause fired.
    pub(crate) fn fire(&mut self, fired: Fired)
        ensures seen { seen self.new ≡ seen self.old }
        ensures keys { self.new.keys ≡ self.old.keys }
        ensures room { self.new.room ≡ self.old.room }
    {
        self.trail.fire(fired);
    }

    /// Hears of a transition.
    pub(crate) fn go(&mut self, transition: Went)
        ensures seen { seen self.new ≡ seen self.old }
        ensures keys { self.new.keys ≡ self.old.keys }
        ensures room { self.new.room ≡ self.old.room }
    {
        self.trail.go(transition);
    }

    /// Hears of a put.
    pub(crate) fn put(&mut self, put: Put)
        ensures seen { seen self.new ≡ seen self.old }
        ensures keys { self.new.keys ≡ self.old.keys }
        ensures room { self.new.room ≡ self.old.room }
    {
        self.trail.put(put);
    }

    /// How often the line of a key came; None where it is not counted.
    pub fn count_of(&self, key: &[u8]) -> Option<u64>
        ensures { result ≡ spec.count_in (names_in self.now.keys) self.now.room
            (seen self.now).2 key.now }
    {
        if key.len() >= self.room {
            return None;
        }
        match place(&self.keys, key) {
            Some(place) => Some(self.counts.get(place).copied().unwrap_or(0)),
            None => None,
        }
    }

    /// What became of clauses, states and channels.
    pub fn into_trail(self) -> Trail {
        self.trail
    }
}

/// What follows the digits of a line, without its newline, as far as it is looked at.
#[inline(always)]
fn text_of(line: &[u8], room: usize) -> &[u8]
    requires { ends_line line.now ≡ true }
    ensures { result.now ≡ take room (spec.behind_digits
        (take (length line.now - 1) line.now)) }
{
    let front = &line[..line.len() - 1];
    let text = &front[digits_of(front)..];
    &text[..text.len().min(room)]
}

/// Counts a line that has come, by what follows its digits.
fn count(text: &[u8], keys: &IndexSet<Vec<u8>>, counts: &mut Vec<u64>, trail: &Trail)
    ensures { counts.new.items ≡ spec.counted (names_in keys.now) counts.old.items text.now }
{
    if let Some(key) = likely_place(keys, trail.expected(), text) {
        if let Some(count) = counts.get_mut(key) {
            *count = count.saturating_add(1);
        }
    }
}

/// The number of a key that is likely to have a certain one.
#[inline(always)]
fn likely_place(keys: &IndexSet<Vec<u8>>, likely: Option<usize>, name: &[u8]) -> Option<usize>
    ensures { result ≡ spec.place_of (names_in keys.now) name.now }
{
    match likely {
        Some(number) if is_at(keys, number, name) => Some(number),
        _ => place(keys, name),
    }
}

/// Whether the key of a number has a name. No two keys have the same one.
#[inline(always)]
fn is_at(keys: &IndexSet<Vec<u8>>, number: usize, name: &[u8]) -> bool
    ensures { IsTrue result → spec.place_of (names_in keys.now) name.now ≡ Some number }
{
    let _unique = keys.iter();
    match keys.get_index(number) {
        Some(key) => key.as_slice() == name,
        None => false,
    }
}

/// The number of a key.
fn place(keys: &IndexSet<Vec<u8>>, name: &[u8]) -> Option<usize>
    ensures { result ≡ spec.place_of (names_in keys.now) name.now }
{
    keys.get_index_of(name)
}
