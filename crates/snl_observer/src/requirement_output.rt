//! The lines of the requirement, as they are written.

ghost use Rattle.std.specs.Prelude.{◌≡◌, ◌++◌, ◌∷◌, [], false, true};
ghost use Rattle.snl_observer.specs.Telling.{Adds};

use crate::logs::Log;
use snl_heard::first_line;
use snl_output::Sink;

/// Writes a line of the requirement, and notes where that leads it, unless a state came to be that must not. Answers whether it
/// was written.
fn write_line<K: Sink>(log: &mut Log<K>, line: &[u8]) -> bool
    ensures written { result ≡ true → log.new.page.watch.bytes
        ≡ log.old.page.watch.bytes ++ (line.now ++ 10 ∷ []) }
    ensures unwritten { result ≡ false → log.new.page.watch.bytes ≡ log.old.page.watch.bytes }
    ensures run { log.new.page.run.bytes ≡ log.old.page.run.bytes }
    ensures how { log.new.how ≡ log.old.how }
{
    if log.standing.hit().is_some() {
        return false;
    }
    match log.page.print_watch(line) {
        Ok(()) => {
            log.standing.note(line);
            true
        }
        Err(_) => false,
    }
}

/// Writes the lines of a text of the requirement, up to the one that leads it into a state that must not be. Answers whether all
/// were written, and no such state came to be.
pub(crate) fn write_lines<K: Sink>(log: &mut Log<K>, text: &[u8]) -> bool
    ensures adds { Adds log.old.page.watch.bytes log.new.page.watch.bytes text.now }
    ensures whole { result ≡ true → log.new.page.watch.bytes
        ≡ log.old.page.watch.bytes ++ text.now }
    ensures run { log.new.page.run.bytes ≡ log.old.page.run.bytes }
    ensures how { log.new.how ≡ log.old.how }
{
    let mut left = text;
    while let Some((line, rest)) = first_line(left) {
        if !write_line(log, line) {
            return false;
        }
        left = rest;
    }
    left.is_empty() && log.standing.hit().is_none()
}
