//! What is written: the lines of the program, and beside them those of the requirement.

ghost use Rattle.std.specs.Prelude.{◌≡◌, ◌≢◌, ◌-◌, ◌+◌, ◌^◌, ◌<◌, ◌++◌, ◌∷◌, ℕ, List, [], Some, All, IsTrue, OnErr, OnOk, false, is_err, map};
ghost use Rattle.std.proofs.Props.{props};
ghost use Rattle.snl_heard.specs.Printed.{IsPrinted};

use crate::texts::{WATCH, is_line, is_plain};
use crate::writer::write_pieces;
use snl_output::{Sink, SinkFault};
use snl_past::Past;

/// Where the lines of a program and of a requirement go: those of the program as they are, those of the requirement each with
/// `# watch ` in front. It knows what both wrote.
#[derive(Drop)]
pub struct Page<K: Sink> {
    out: K,
    /// Whether a line could not be written whole. Then nothing more is.
    is_stuck: bool,
    /// What the program wrote.
    pub run: Past,
    /// What the requirement wrote.
    pub watch: Past,
    ghost works: { is_stuck ≡ false → K.failures out < 2 ^ 64 - 1 },
    ghost printed: { is_stuck ≡ false → (text : List ℕ) → K.told out ≡ Some text
        → IsPrinted run.bytes watch.bytes text } by { Prim.hlevel props },
}

impl<K: Sink> Page<K> {
    /// Nothing was written yet.
    pub fn new(out: K) -> Self
        requires fresh { (text : List ℕ) → K.told out ≡ Some text → text ≡ [] }
        requires works { K.failures out < 2 ^ 64 - 1 }
        ensures run { result.run.bytes ≡ [] }
        ensures watch { result.watch.bytes ≡ [] }
        ensures stuck { result.is_stuck ≡ false }
    {
        Page {
            out,
            is_stuck: false,
            run: Past::new(),
            watch: Past::new(),
        }
    }

    /// Whether a line could not be written whole. Then nothing more is.
    pub fn is_stuck(&self) -> bool
        ensures { result ≡ self.now.is_stuck }
    {
        self.is_stuck
    }

    /// The sink behind it: where no line was stuck, it tells what both wrote.
    pub fn into_out(self) -> K
        ensures { self.is_stuck ≡ false → (text : List ℕ) → K.told result ≡ Some text
            → IsPrinted self.run.bytes self.watch.bytes text }
    {
        let Page { out, .. } = self;
        out
    }

    /// Lets lines go out that are held back: the run waits for its trace.
    pub fn wait(&mut self)
        ensures run { self.new.run.bytes ≡ self.old.run.bytes }
        ensures watch { self.new.watch.bytes ≡ self.old.watch.bytes }
        ensures stuck { self.new.is_stuck ≡ self.old.is_stuck }
    {
        self.out.wait();
    }

    /// Writes a line of the program. Where it can't be written whole, nothing is written any more; and so it is of a text that is no
    /// line of a program: one with a newline, or one that begins with `#`.
    pub fn print_run(&mut self, line: &[u8]) -> Result<(), SinkFault>
        ensures plain { OnOk result (All (λ byte. byte ≢ 10) line.now) }
        ensures run { OnOk result (self.new.run.bytes ≡ self.old.run.bytes ++ line.now ++ 10 ∷ []) }
        ensures unwritten { OnErr result (self.new.run.bytes ≡ self.old.run.bytes) }
        ensures watch { self.new.watch.bytes ≡ self.old.watch.bytes }
    {
        if self.is_stuck || !is_plain(line) {
            self.is_stuck = true;
            return Err(SinkFault);
        }
        self.is_stuck = true;
        write_pieces(&mut self.out, &[line, b"\n"])?;
        self.run.note(line);
        self.run.note(b"\n");
        self.is_stuck = false;
        Ok(())
    }

    /// Writes a line of the requirement, with `# watch ` in front. Where it can't be written whole, nothing is written any more; and so
    /// it is of a text with a newline.
    pub fn print_watch(&mut self, line: &[u8]) -> Result<(), SinkFault>
        ensures run { self.new.run.bytes ≡ self.old.run.bytes }
        ensures watch { OnOk result (self.new.watch.bytes
            ≡ self.old.watch.bytes ++ line.now ++ 10 ∷ []) }
        ensures unwritten { OnErr result (self.new.watch.bytes ≡ self.old.watch.bytes) }
    {
        if self.is_stuck || !is_line(line) {
            self.is_stuck = true;
            return Err(SinkFault);
        }
        self.is_stuck = true;
        write_pieces(&mut self.out, &[WATCH, line, b"\n"])?;
        self.watch.note(line);
        self.watch.note(b"\n");
        self.is_stuck = false;
        Ok(())
    }
}
