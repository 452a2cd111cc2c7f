//! A sink that compares what it is given with wanted bytes, as both come.

ghost use Rattle.std.specs.Prelude.{◌≡◌, ◌++◌, ◌^◌, ◌-◌, ◌<◌, ◌≤◌, ◌⊎◌, [], false, true, length, slice_range, IfOk};
ghost use Rattle.std.proofs.Props.{props};
ghost use Rattle.snl_suite.specs.Agreement.{IsApart, IsSettled};

use crate::agreement::Agreement;
use crate::ahead::Ahead;
use crate::line_text::{LinePlace, LineText};
use snl_output::{Sink, SinkFault, Source};
use snl_past::Past;
use std::alloc::{AllocError, Global};

/// Where an output and the wanted one differ first.
#[derive(Drop)]
pub struct Difference {
    /// The line of the output, from 1 on.
    pub line: u64,
    /// The line of the trace that was at work, from 1 on; 0 before the first one.
    pub trace_line: u128,
    /// That line as it is wanted.
    pub wanted: LineText,
    /// That line as it came.
    pub came: LineText,
}

/// Compares what it is given with the bytes of a source, which are those that are wanted. Both are read as they come, and no more is
/// kept of them than a piece, and of the first two lines that differ the front.
#[derive(Drop)]
pub struct Comparer<W: Source> {
    ahead: Ahead<W>,
    /// What was given.
    told: Past,
    is_apart: bool,
    place: LinePlace,
    trace_line: u128,
    found: Option<Difference>,
    ghost same: { is_apart ≡ false → ahead.failed ≡ false → told.bytes ≡ ahead.past.bytes } by { Prim.hlevel props },
    ghost apart: { is_apart ≡ true → IsApart told.bytes (W.gave ahead.inner) (W.ended ahead.inner) } by { Prim.hlevel props },
}

impl<W: Source> Comparer<W> {
    /// Nothing was given yet, and nothing was read of the wanted bytes. Fails only where memory ran out.
    pub fn new(alloc: Global, wanted: W) -> Result<Self, AllocError>
    where
        W: Drop,
        requires fresh { W.gave wanted ≡ [] }
        requires sound { W.failures wanted < 2 ^ 64 - 1 }
        ensures told { IfOk result (λ comparer. comparer.told.bytes ≡ []) }
    {
        Ok(Comparer {
            ahead: Ahead::new(alloc, wanted)?,
            told: Past::new(),
            is_apart: false,
            place: LinePlace::start(),
            trace_line: 0,
            found: None,
        })
    }

    /// Whether a difference was found up to now: however the output goes on, it is not the wanted one.
    pub fn is_apart(&self) -> bool
        ensures { result ≡ true → IsApart self.now.told.bytes (W.gave self.now.ahead.inner)
            (W.ended self.now.ahead.inner) }
    {
        self.is_apart
    }

    /// Reads on of what is wanted, where nothing of it is left to compare with and more may come.
    fn look_ahead(&mut self)
        ensures told { self.new.told.bytes ≡ self.old.told.bytes }
        ensures ready { self.new.is_apart ≡ false → self.new.ahead.failed ≡ false →
            (self.new.ahead.from < self.new.ahead.to) ⊎ (self.new.ahead.ended ≡ true) }
    {
        if !self.is_apart && self.ahead.text().is_empty() && self.ahead.is_open() {
            self.ahead.refill();
        }
    }

    /// Takes in the front of a piece, which is not empty, where all before it was the wanted one; answers what is left of it.
    fn compare<'p>(&mut self, piece: &'p [u8]) -> &'p [u8]
        requires same { self.old.is_apart ≡ false }
        requires sound { self.old.ahead.failed ≡ false }
        requires some { 0 < length piece.now }
        requires ready { (self.old.ahead.from < self.old.ahead.to) ⊎ (self.old.ahead.ended ≡ true) }
        ensures told { self.old.told.bytes ++ piece.now ≡ self.new.told.bytes ++ result.now }
        ensures fewer { length result.now < length piece.now }
    {
        let wanted = self.ahead.text();
        let count = wanted.len().min(piece.len());
        if count == 0 {
            self.part(piece);
            return &piece[piece.len()..];
        }
        if wanted[..count] != piece[..count] {
            self.part(piece);
            return &piece[piece.len()..];
        }
        self.place.pass(&piece[..count]);
        self.ahead.pass(count);
        self.told.note(&piece[..count]);
        &piece[count..]
    }

    /// Takes in a piece by which the output is no more the wanted one.
    fn part(&mut self, piece: &[u8])
        requires apart { IsApart (self.old.told.bytes ++ piece.now) (W.gave self.old.ahead.inner)
            (W.ended self.old.ahead.inner) }
        ensures told { self.new.told.bytes ≡ self.old.told.bytes ++ piece.now }
    {
        let found = parted(&mut self.place, self.trace_line, self.ahead.text(), piece);
        self.found = Some(found);
        self.is_apart = true;
        self.told.note(piece);
    }

    /// Takes in a piece with which nothing is compared.
    fn skip(&mut self, piece: &[u8])
        requires { (self.old.is_apart ≡ true) ⊎ (self.old.ahead.failed ≡ true) }
        ensures told { self.new.told.bytes ≡ self.old.told.bytes ++ piece.now }
    {
        if let Some(found) = &mut self.found {
            found.came.add(piece);
        }
        self.told.note(piece);
    }

    /// Takes in the front of a piece, which is not empty; answers what is left of it.
    fn step<'p>(&mut self, piece: &'p [u8]) -> &'p [u8]
        requires { 0 < length piece.now }
        ensures told { self.old.told.bytes ++ piece.now ≡ self.new.told.bytes ++ result.now }
        ensures fewer { length result.now < length piece.now }
    {
        self.look_ahead();
        if self.is_apart || self.ahead.has_failed() {
            self.skip(piece);
            return &piece[piece.len()..];
        }
        self.compare(piece)
    }

    /// Takes in a piece.
    fn take(&mut self, piece: &[u8])
        ensures { self.new.told.bytes ≡ self.old.told.bytes ++ piece.now }
    {
        let mut left = piece;
        while !left.is_empty() {
            left = self.step(left);
        }
    }

    /// Ends the output, and reads on of what is wanted as far as that has to be known. Answers how both stand beside each other.
    pub fn finish(&mut self) -> Agreement
        ensures told { self.new.told.bytes ≡ self.old.told.bytes }
        ensures settled { IsSettled result self.new.told.bytes (W.gave self.new.ahead.inner)
            (W.ended self.new.ahead.inner) (W.broke self.new.ahead.inner) }
    {
        self.look_ahead();
        if self.is_apart {
            return Agreement::Apart;
        }
        if self.ahead.has_failed() {
            return Agreement::Broken;
        }
        let rest = self.ahead.text();
        if rest.is_empty() {
            return Agreement::Same;
        }
        self.found = Some(difference_at(&self.place, self.trace_line, rest, b""));
        Agreement::Apart
    }

    /// Where both differ first, as far as that is known.
    pub fn difference(&self) -> Option<&Difference> {
        self.found.as_ref()
    }
}

/// How many bytes two texts have in common at their front.
fn same_front(one: &[u8], other: &[u8]) -> usize {
    let common = one.len().min(other.len());
    for (place, byte) in one.iter().enumerate() {
        if other.get(place) != Some(byte) {
            return place;
        }
    }
    common
}

/// A difference at a place of the output: the line at work goes on by one text where it is wanted, and by another where it came.
fn difference_at(place: &LinePlace, trace_line: u128, wanted: &[u8], came: &[u8]) -> Difference {
    Difference {
        line: place.number(),
        trace_line,
        wanted: place.line_with(wanted),
        came: place.line_with(came),
    }
}

/// What of a text stands behind its first bytes, so many.
fn behind(text: &[u8], count: usize) -> &[u8] {
    match text.get(count..) {
        Some(rest) => rest,
        None => b"",
    }
}

/// The difference of two texts behind a place of the output, which goes on up to it.
fn parted(place: &mut LinePlace, trace_line: u128, wanted: &[u8], came: &[u8]) -> Difference {
    let same = same_front(wanted, came);
    let front = came.get(..same).unwrap_or(b"");
    place.pass(front);
    let wanted_rest = behind(wanted, same);
    let came_rest = behind(came, same);
    difference_at(place, trace_line, wanted_rest, came_rest)
}

impl<W: Source> Sink for Comparer<W> {
    ghost use Rattle.std.specs.Prelude.{Some};

    ghost told = { λ comparer. Some comparer.told.bytes };

    ghost failures = { λ _. 0 };

    fn write(&mut self, piece: &[u8]) -> Result<usize, SinkFault> {
        self.take(piece);
        Ok(piece.len())
    }

    fn line(&mut self, number: u128, _ms: u64) {
        if !self.is_apart {
            self.trace_line = number;
        }
    }
}
