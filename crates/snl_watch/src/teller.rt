//! A sink that writes extra lines between those of a run.

ghost use Rattle.std.specs.Prelude.{◌≡◌, ◌↔◌, ◌-◌, ◌+◌, ◌^◌, ◌<◌, ◌≤◌, ℕ, List, [], Some, IsTrue, is_err, length, take, IfOk, OnOk, OnErr};
ghost use Rattle.std.proofs.Props.{props};
ghost use Rattle.snl_output.specs.Devices.{counted, told_more, write_fails};
ghost use Rattle.snl_watch.specs.Extra.{kept_from, place_after, shown, start};
ghost use Rattle.snl_watch.specs.Places.{place_of};

use crate::note_buffer::taken;
use crate::notes::Notes;
use crate::places::LinePlace;
use snl_output::{Fired, Put, Refused, Sink, SinkFault, Went};

/// Hands lines on, with extra ones between them. What it tells is what the sink behind it tells, without the extra lines.
#[derive(Drop)]
pub struct Teller<'c, K: Sink> {
    inner: K,
    place: LinePlace,
    notes: Notes<'c>,
    /// How often it refused a piece by itself.
    refused: u64,
    ghost placed: { (text : List ℕ) → K.told inner ≡ Some text → place_of place
        ≡ place_after start text } by { Prim.hlevel props },
}

impl<'c, K: Sink> Teller<'c, K> {
    /// Nothing was written yet.
    pub fn new(inner: K, notes: Notes<'c>) -> Self
        requires { (text : List ℕ) → K.told inner ≡ Some text → text ≡ [] }
        ensures inner { result.inner ≡ inner }
        ensures refused { result.refused ≡ 0 }
    {
        Teller {
            inner,
            place: LinePlace::start(),
            notes,
            refused: 0,
        }
    }

    /// Hands a piece to the sink behind it, and notes where it stands then.
    fn hand_on(&mut self, piece: &[u8]) -> Result<usize, SinkFault>
        requires { K.failures self.old.inner < 2 ^ 64 - 1 }
        ensures count { IfOk result (λ n. n ≤ length piece.now) }
        ensures taken { IfOk result (λ n. shown (K.told self.new.inner)
            ≡ told_more (shown (K.told self.old.inner))
            (kept_from (place_of self.old.place) (take n piece.now))) }
        ensures untaken { OnErr result (K.told self.new.inner ≡ K.told self.old.inner) }
        ensures failures { K.failures self.new.inner
            ≡ counted (write_fails result (length piece.now)) (K.failures self.old.inner) }
        ensures place { IfOk result (λ n. place_of self.new.place
            ≡ place_after (place_of self.old.place) (take n piece.now)) }
        ensures stays { OnErr result (place_of self.new.place ≡ place_of self.old.place) }
        ensures refused { self.new.refused ≡ self.old.refused }
    {
        let taken = self.inner.write(piece)?;
        self.place = self.place.after(&piece[..taken]);
        Ok(taken)
    }

    /// Hands on extra lines, all of them; where they are none, nothing.
    fn send(&mut self, lines: &[u8]) -> Result<(), SinkFault>
        requires { K.failures self.old.inner < 2 ^ 64 - 1 }
        ensures told { shown (K.told self.new.inner) ≡ shown (K.told self.old.inner) }
        ensures failures { K.failures self.new.inner
            ≡ counted (is_err result) (K.failures self.old.inner) }
        ensures refused { self.new.refused ≡ self.old.refused }
    {
        if !self.place.drops_all(lines) {
            return Ok(());
        }
        let mut sent = 0;
        while sent < lines.len() {
            let taken = self.hand_on(&lines[sent..])?;
            if taken == 0 {
                return Err(SinkFault);
            }
            sent += taken;
        }
        Ok(())
    }
}

impl<'c, K: Sink> Teller<'c, K> {
    /// Hands on the extra lines that wait, where no line has begun.
    fn settle(&mut self) -> Result<(), SinkFault>
        requires { K.failures self.old.inner < 2 ^ 64 - 1 }
        ensures told { shown (K.told self.new.inner) ≡ shown (K.told self.old.inner) }
        ensures failures { K.failures self.new.inner
            ≡ counted (is_err result) (K.failures self.old.inner) }
        ensures refused { self.new.refused ≡ self.old.refused }
    {
        if self.place.within || self.notes.is_empty() {
            return Ok(());
        }
        let (room, used) = self.notes.take_waiting();
        let sent = self.send(taken(&room, used));
        self.notes.put_back(room);
        sent
    }

    /// Hands on the extra lines that wait and, behind them, others, where they are extra lines and nothing else.
    ///
    /// Fails where the sink fails, and where a line has begun that no newline ended: that counts as a piece that it refused.
    pub fn tell(&mut self, lines: &[u8]) -> Result<(), SinkFault>
        requires { K.failures self.old.inner + self.old.refused < 2 ^ 64 - 1 }
        ensures told { shown (K.told self.new.inner) ≡ shown (K.told self.old.inner) }
        ensures failures { K.failures self.new.inner + self.new.refused
            ≡ counted (is_err result) (K.failures self.old.inner + self.old.refused) }
    {
        if self.place.within {
            self.refused += 1;
            return Err(SinkFault);
        }
        self.settle()?;
        self.send(lines)
    }

    /// Whether each piece that it did not take was one that the sink behind it did not take.
    pub fn is_faithful(&self) -> bool
        ensures { IsTrue result ↔ (self.now.refused ≡ 0) }
    {
        self.refused == 0
    }

    /// What is noted, and what is known of the run.
    pub fn notes(&self) -> &Notes<'c> {
        &self.notes
    }

    /// The sink behind it.
    pub fn into_inner(self) -> K
        ensures { result ≡ self.entry.inner }
    {
        let Teller { inner, .. } = self;
        inner
    }

    /// Hands on the front of a piece that stands in no extra line.
    fn pass(&mut self, piece: &[u8]) -> Result<usize, SinkFault>
        requires { K.failures self.old.inner + self.old.refused < 2 ^ 64 - 1 }
        ensures count { IfOk result (λ n. n ≤ length piece.now) }
        ensures taken { IfOk result (λ n. shown (K.told self.new.inner)
            ≡ told_more (shown (K.told self.old.inner)) (take n piece.now)) }
        ensures untaken { OnErr result (K.told self.new.inner ≡ K.told self.old.inner) }
        ensures failures { K.failures self.new.inner + self.new.refused
            ≡ counted (write_fails result (length piece.now))
            (K.failures self.old.inner + self.old.refused) }
    {
        let front = self.place.kept_front(piece);
        if front == 0 && !piece.is_empty() {
            self.refused += 1;
            return Err(SinkFault);
        }
        let taken = self.hand_on(&piece[..front])?;
        self.notes.pass(&piece[..taken]);
        Ok(taken)
    }
}

impl<K: Sink> Sink for Teller<'_, K> {
    ghost told = { λ t. shown (K.told t.inner) };

    ghost failures = { λ t. K.failures t.inner + t.refused };

    fn write(&mut self, piece: &[u8]) -> Result<usize, SinkFault> {
        self.settle()?;
        self.pass(piece)
    }

    fn fired(&mut self, clause: Fired, words: &[i64]) {
        self.notes.fired(clause, words);
    }

    fn went(&mut self, transition: Went) {
        self.notes.went(transition);
    }

    fn put(&mut self, _put: Put, _values: &[i64]) {
        self.notes.put();
    }

    fn line(&mut self, number: u128, ms: u64) {
        self.notes.line(number, ms);
    }

    fn refused(&mut self, put: Refused) {
        self.notes.refused(put);
    }

    fn wait(&mut self) {
        self.inner.wait();
    }
}
