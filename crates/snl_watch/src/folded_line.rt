//! The end of a line of a run that is folded.

ghost use Rattle.std.specs.Prelude.{◌≡◌, ◌≤◌, ◌<◌, ◌-◌, ◌^◌, ℕ, List, [], ◌++◌, Some, length, take, drop, is_err, IfSome, OnOk, true};
ghost use Rattle.snl_output.specs.Devices.{counted, told_more};
ghost use Rattle.snl_watch.specs.Blocks.{told_again};
ghost use Rattle.snl_watch.specs.Folding.{are_notes, without_time};
ghost use Rattle.snl_watch.specs.Folds.{Folds, TellsMore, ends_line, is_in_line};

use crate::block::Block;
use crate::noted::are_notes;
use crate::recent::Recent;
use crate::writer::write_held;
use crate::zero::Zero;
use snl_output::{Sink, SinkFault};

/// Notes, where they are extra lines and nothing else, of which none reads as the line of a fold; else none.
pub(crate) fn noted<'t>(notes: &'t [u8]) -> &'t [u8]
    ensures { are_notes result.now ≡ true }
{
    if are_notes(notes) { notes } else { b"" }
}

/// How many bytes a line of a block has at most, without its time.
const TEXT: usize = 256;

/// Writes what is left of a block, and behind it a line with the notes in front.
#[inline(always)]
fn print<'t, S: Sink>(
    line: &'t [u8],
    note: &'t [u8],
    block: &Block,
    sink: &mut S,
) -> Result<(), SinkFault>
    requires { S.failures sink.old < 2 ^ 64 - 1 }
    ensures told { OnOk result (S.told sink.new ≡ told_more (told_more (S.told sink.old)
        (told_again block.now ++ block.now.held.items)) (note.now ++ line.now)) }
    ensures failures { S.failures sink.new ≡ counted (is_err result) (S.failures sink.old) }
{
    block.write(sink)?;
    write_held(sink, note)?;
    write_held(sink, line)
}

/// Ends a line that may be in a block. It is known where its time has its end.
#[inline(always)]
fn end_text<S: Sink>(
    line: &mut Vec<u8>,
    note: &[u8],
    zero: Zero,
    recent: &mut Recent,
    block: &mut Block,
    sink: &mut S,
) -> Result<(), SinkFault>
    requires failures { S.failures sink.old < 2 ^ 64 - 1 }
    requires start { drop recent.old.start line.old.items ≡ without_time line.old.items }
    requires line { ends_line line.old.items ≡ true }
    requires note { are_notes note.now ≡ true }
    ensures told { OnOk result (TellsMore (S.told sink.old) (S.told sink.new)) }
    ensures folds { OnOk result ((run output output' : List ℕ) → S.told sink.old ≡ Some output →
        S.told sink.new ≡ Some output' → Folds run output line.old.items recent.old block.old →
        Folds run output' [] recent.new block.new) }
    ensures line { OnOk result (line.new.items ≡ []) }
    ensures failures { S.failures sink.new ≡ counted (is_err result) (S.failures sink.old) }
{
    let bytes = line.as_slice();
    if recent.is_again(block.size(), bytes) && block.has_room(note, bytes) {
        block.take(note, bytes, zero);
        recent.push(line);
        return Ok(());
    }
    print(bytes, note, block, sink)?;
    recent.push(line);
    block.begin(recent.block());
    Ok(())
}

/// Ends a line that is too long for a block.
fn end_long<S: Sink>(
    line: &mut Vec<u8>,
    note: &[u8],
    recent: &mut Recent,
    block: &mut Block,
    sink: &mut S,
) -> Result<(), SinkFault>
    requires failures { S.failures sink.old < 2 ^ 64 - 1 }
    requires line { ends_line line.old.items ≡ true }
    requires note { are_notes note.now ≡ true }
    ensures told { OnOk result (TellsMore (S.told sink.old) (S.told sink.new)) }
    ensures folds { OnOk result ((run output output' : List ℕ) → S.told sink.old ≡ Some output →
        S.told sink.new ≡ Some output' → Folds run output line.old.items recent.old block.old →
        Folds run output' [] recent.new block.new) }
    ensures line { OnOk result (line.new.items ≡ []) }
    ensures failures { S.failures sink.new ≡ counted (is_err result) (S.failures sink.old) }
{
    print(line.as_slice(), note, block, sink)?;
    recent.clear();
    block.begin(0);
    line.clear();
    Ok(())
}

/// Ends a line, with the notes in front of it: it is held, where it comes again in a block that does, or written. Beside the time of a
/// block stands the time of day, by the date of 0 ms. What is left of the line is empty.
#[inline(always)]
pub(crate) fn end_line<S: Sink>(
    line: &mut Vec<u8>,
    note: &[u8],
    zero: Zero,
    recent: &mut Recent,
    block: &mut Block,
    sink: &mut S,
) -> Result<(), SinkFault>
    requires failures { S.failures sink.old < 2 ^ 64 - 1 }
    requires line { ends_line line.old.items ≡ true }
    requires note { are_notes note.now ≡ true }
    ensures told { OnOk result (TellsMore (S.told sink.old) (S.told sink.new)) }
    ensures folds { OnOk result ((run output output' : List ℕ) → S.told sink.old ≡ Some output →
        S.told sink.new ≡ Some output' → Folds run output line.old.items recent.old block.old →
        Folds run output' [] recent.new block.new) }
    ensures line { OnOk result (line.new.items ≡ []) }
    ensures failures { S.failures sink.new ≡ counted (is_err result) (S.failures sink.old) }
{
    if recent.measure(line.as_slice()) <= TEXT {
        return end_text(line, note, zero, recent, block, sink);
    }
    end_long(line, note, recent, block, sink)
}
