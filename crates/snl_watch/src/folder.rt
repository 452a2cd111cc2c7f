//! A sink that folds blocks of lines that repeat.

ghost use Rattle.std.specs.Prelude.{◌≡◌, ◌↔◌, ◌-◌, ◌+◌, ◌^◌, ◌<◌, ◌≤◌, ℕ, List, [], ◌++◌, Some, IsTrue, false, true, is_err, length, take, IfOk, OnOk, OnErr};
ghost use Rattle.std.proofs.Props.{props};
ghost use Rattle.snl_output.specs.Devices.{Wrote, counted, told_more, write_fails};
ghost use Rattle.snl_watch.specs.Folding.{IsFolded};
ghost use Rattle.snl_watch.specs.Folds.{Folds, ends_line, is_in_line};
ghost use Rattle.snl_watch.specs.Recents.{recent_texts};

use crate::block::Block;
use crate::folded_line::{end_line, noted};
use crate::line_ends::{ends_line, first_line};
use crate::note_buffer::LineNotes;
use crate::notes::Notes;
use crate::recent::Recent;
use crate::writer::write_pieces;
use snl_output::{Fired, Put, Refused, Sink, SinkFault, Went};
use std::alloc::{AllocError, Global};

/// Hands the lines of a run on, with notes between them, and blocks that repeat as one line each (docs/tools/run.md).
///
/// A witness is handed the run as it is, and so the folder tells what the witness tells. A line goes to the sink once the next
/// one comes, or at the end.
#[derive(Drop)]
pub struct Folder<'c, K: Sink, W: Sink> {
    inner: K,
    witness: W,
    /// The line that has begun, with its newline once it is whole.
    line: Vec<u8>,
    /// The notes in front of it.
    note: LineNotes,
    recent: Recent,
    block: Block,
    notes: Notes<'c>,
    /// How often it refused a piece by itself.
    refused: u64,
    /// Whether memory ran out.
    ran_out: bool,
    /// Whether the sink failed, or the run is over.
    is_over: bool,
    ghost folds: { is_over ≡ false → (run output : List ℕ) → W.told witness ≡ Some run
        → K.told inner ≡ Some output
        → ∥ Folds run output line.items recent block ∥₁ } by { Prim.hlevel props },
}

/// Room for the last lines, and for the notes in front of a line. Fails only where memory ran out.
fn rooms(alloc: Global) -> Result<(Recent, LineNotes), AllocError>
    ensures { IfOk result (λ rooms. recent_texts rooms.0 ≡ []) }
{
    let recent = Recent::new(alloc)?;
    Ok((recent, LineNotes::new(alloc)?))
}

impl<'c, K: Sink, W: Sink> Folder<'c, K, W> {
    /// Nothing was written yet. Fails only where memory ran out.
    pub fn new(alloc: Global, inner: K, witness: W, notes: Notes<'c>) -> Result<Self, AllocError>
    where
        K: Drop,
        W: Drop,
        requires inner { (text : List ℕ) → K.told inner ≡ Some text → text ≡ [] }
        requires witness { (text : List ℕ) → W.told witness ≡ Some text → text ≡ [] }
        ensures inner { IfOk result (λ folder. folder.inner ≡ inner) }
        ensures witness { IfOk result (λ folder. folder.witness ≡ witness) }
        ensures refused { IfOk result (λ folder. folder.refused ≡ 0) }
    {
        let (recent, note) = rooms(alloc)?;
        Ok(Folder {
            inner,
            witness,
            line: Vec::new(alloc),
            note,
            recent,
            block: Block::none(),
            notes,
            refused: 0,
            ran_out: false,
            is_over: false,
        })
    }

    /// Ends the line that has begun, where it is whole.
    fn settle(&mut self) -> Result<(), SinkFault>
        requires { K.failures self.old.inner + (W.failures self.old.witness + self.old.refused)
            < 2 ^ 64 - 1 }
        ensures told { W.told self.new.witness ≡ W.told self.old.witness }
        ensures unended { OnOk result (ends_line self.new.line.items ≡ false) }
        ensures failures { K.failures self.new.inner + (W.failures self.new.witness
            + self.new.refused) ≡ counted (is_err result) (K.failures self.old.inner
            + (W.failures self.old.witness + self.old.refused)) }
    {
        if !ends_line(self.line.as_slice()) {
            return Ok(());
        }
        if self.is_over {
            self.refused += 1;
            return Err(SinkFault);
        }
        self.is_over = true;
        let zero = self.notes.zero();
        end_line(
            &mut self.line,
            self.note.as_slice(),
            zero,
            &mut self.recent,
            &mut self.block,
            &mut self.inner,
        )?;
        self.is_over = false;
        Ok(())
    }

    /// Lets the notes that wait stand in front of a line that begins.
    fn begin_line(&mut self)
        ensures told { W.told self.new.witness ≡ W.told self.old.witness }
        ensures line { self.new.line.items ≡ self.old.line.items }
        ensures failures { K.failures self.new.inner + (W.failures self.new.witness
            + self.new.refused) ≡ K.failures self.old.inner + (W.failures self.old.witness
            + self.old.refused) }
    {
        if self.line.is_empty() {
            self.notes.put_noted(&mut self.note);
        }
    }

    /// Takes the front of a piece, at most one line, behind the line that has begun.
    fn take(&mut self, piece: &[u8]) -> Result<usize, SinkFault>
        requires unended { ends_line self.old.line.items ≡ false }
        requires failures { K.failures self.old.inner + (W.failures self.old.witness
            + self.old.refused) < 2 ^ 64 - 1 }
        ensures count { IfOk result (λ n. n ≤ length piece.now) }
        ensures taken { IfOk result (λ n. W.told self.new.witness
            ≡ told_more (W.told self.old.witness) (take n piece.now)) }
        ensures untaken { OnErr result (W.told self.new.witness ≡ W.told self.old.witness) }
        ensures failures { K.failures self.new.inner + (W.failures self.new.witness
            + self.new.refused) ≡ counted (write_fails result (length piece.now))
            (K.failures self.old.inner + (W.failures self.old.witness + self.old.refused)) }
    {
        let front = first_line(piece);
        let before = self.line.len();
        if self.line.extend_from_slice(&piece[..front]).is_err() {
            self.ran_out = true;
            self.refused += 1;
            return Err(SinkFault);
        }
        match self.witness.write(&piece[..front]) {
            Ok(taken) => {
                self.line.truncate(before + taken);
                self.notes.pass(&piece[..taken]);
                Ok(taken)
            }
            Err(fault) => {
                self.line.truncate(before);
                Err(fault)
            }
        }
    }

    /// Ends a run, with the notes that wait and others behind it, where they are extra lines and nothing else. What is held of
    /// a block goes to the sink.
    ///
    /// Fails where the sink fails, and where a line has begun that no newline ended: each line of a run has one. That counts as a
    /// piece that it refused.
    pub fn finish(&mut self, notes: &[u8]) -> Result<(), SinkFault>
        requires { K.failures self.old.inner + (W.failures self.old.witness + self.old.refused)
            < 2 ^ 64 - 1 }
        ensures told { W.told self.new.witness ≡ W.told self.old.witness }
        ensures folded { OnOk result ((run output : List ℕ) → W.told self.new.witness ≡ Some run
            → K.told self.new.inner ≡ Some output → ∥ IsFolded run output ∥₁) }
        ensures failures { K.failures self.new.inner + (W.failures self.new.witness
            + self.new.refused) ≡ counted (is_err result) (K.failures self.old.inner
            + (W.failures self.old.witness + self.old.refused)) }
    {
        self.settle()?;
        if !self.line.is_empty() || self.is_over {
            self.refused += 1;
            return Err(SinkFault);
        }
        self.is_over = true;
        self.notes.put_noted(&mut self.note);
        self.block.write(&mut self.inner)?;
        write_last(self.note.as_slice(), noted(notes), &mut self.inner)
    }

    /// Whether each piece that it did not take was one that the sink or the witness did not take.
    pub fn is_faithful(&self) -> bool
        ensures { IsTrue result ↔ (self.now.refused ≡ 0) }
    {
        self.refused == 0
    }

    /// What is noted, and what is known of the run.
    pub fn notes(&self) -> &Notes<'c> {
        &self.notes
    }

    /// The sink, and the witness.
    pub fn into_parts(self) -> (K, W)
        ensures inner { result.0 ≡ self.entry.inner }
        ensures witness { result.1 ≡ self.entry.witness }
    {
        let Folder { inner, witness, .. } = self;
        (inner, witness)
    }

    /// Whether memory ran out, so that the run was not taken.
    pub fn ran_out(&self) -> bool {
        self.ran_out
    }
}

/// Writes what stands behind a run.
fn write_last<'t, S: Sink>(
    waiting: &'t [u8],
    notes: &'t [u8],
    sink: &mut S,
) -> Result<(), SinkFault>
    requires { S.failures sink.old < 2 ^ 64 - 1 }
    ensures told { Wrote result (waiting.now ++ (notes.now ++ [])) (S.told sink.old)
        (S.told sink.new) }
    ensures failures { S.failures sink.new ≡ counted (is_err result) (S.failures sink.old) }
{
    write_pieces(sink, &[waiting, notes])
}

impl<K: Sink, W: Sink> Sink for Folder<'_, K, W> {
    ghost told = { λ folder. W.told folder.witness };

    ghost failures = { λ folder. K.failures folder.inner
        + (W.failures folder.witness + folder.refused) };

    fn write(&mut self, piece: &[u8]) -> Result<usize, SinkFault> {
        self.settle()?;
        self.begin_line();
        self.take(piece)
    }

    fn fired(&mut self, clause: Fired, words: &[i64]) {
        self.notes.fired(clause, words);
    }

    fn went(&mut self, transition: Went) {
        self.notes.went(transition);
    }

    fn put(&mut self, _put: Put, _values: &[i64]) {
        self.notes.put();
    }

    fn line(&mut self, number: u128, ms: u64) {
        self.notes.line(number, ms);
    }

    fn refused(&mut self, put: Refused) {
        self.notes.refused(put);
    }

    fn wait(&mut self) {
        self.inner.wait();
    }
}
