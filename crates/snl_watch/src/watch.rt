//! A sink that counts what it hands on.

ghost use Rattle.std.specs.Prelude.{◌≡◌, ℕ, List, [], Some};
ghost use Rattle.std.proofs.Props.{props};
ghost use Rattle.snl_watch.specs.Counts.{cut, no_cut, reading_of};
ghost use Rattle.snl_watch.specs.Seen.{seen};
ghost use Rattle.snl_watch.specs.Sets.{names_in};

use crate::counter::Counter;
use snl_output::{Fired, Put, Refused, Sink, SinkFault, Went};

/// Hands on what it is given, and counts the lines of what was taken. What it knows is what the text shows that the sink behind
/// it tells.
#[derive(Drop)]
pub struct Watch<K: Sink> {
    counter: Counter,
    inner: K,
    ghost counted: { (text : List ℕ) → K.told inner ≡ Some text → seen counter
        ≡ reading_of (names_in counter.keys) counter.room (cut text) } by { Prim.hlevel props },
}

impl<K: Sink> Watch<K> {
    /// Watches what a sink is given from now on, with a counter that has counted nothing.
    pub fn new(counter: Counter, inner: K) -> Self
        requires fresh { seen counter ≡ reading_of (names_in counter.keys) counter.room no_cut }
        requires empty { (text : List ℕ) → K.told inner ≡ Some text → text ≡ [] }
        ensures counter { result.counter ≡ counter }
        ensures inner { result.inner ≡ inner }
    {
        Watch { counter, inner }
    }

    /// The counts, those of the lines of what the sink behind it tells, where it tells that; and that sink.
    pub fn into_parts(self) -> (Counter, K)
        ensures counts { (text : List ℕ) → K.told self.inner ≡ Some text → seen result.0
            ≡ reading_of (names_in result.0.keys) result.0.room (cut text) }
        ensures inner { result.1 ≡ self.inner }
    {
        let Watch { counter, inner } = self;
        (counter, inner)
    }
}

impl<K: Sink> Sink for Watch<K> {
    ghost told = { λ w. K.told w.inner };

    ghost failures = { λ w. K.failures w.inner };

    fn write(&mut self, piece: &[u8]) -> Result<usize, SinkFault> {
        let taken = self.inner.write(piece)?;
        self.counter.take(&piece[..taken]);
        Ok(taken)
    }

    fn fired(&mut self, clause: Fired, words: &[i64]) {
        self.inner.fired(clause, words);
        self.counter.fire(clause);
    }

    fn went(&mut self, transition: Went) {
        self.inner.went(transition);
        self.counter.go(transition);
    }

    fn put(&mut self, put: Put, values: &[i64]) {
        self.inner.put(put, values);
        self.counter.put(put);
    }

    fn line(&mut self, number: u128, ms: u64) {
        self.inner.line(number, ms);
    }

    fn refused(&mut self, put: Refused) {
        self.inner.refused(put);
    }

    fn wait(&mut self) {
        self.inner.wait();
    }
}
