//! What is told of two runs, as a text.

ghost use Rattle.std.specs.Prelude.{◌≡◌};

use crate::alone::alone_in;
use crate::differences::{Apart, Close};
use crate::logs::Log;
use crate::puts::push_puts;
use crate::sides::Side;
use snl_heard::word;
use snl_output::{push_all, push_counted, push_told};
use snl_trace::{End, TraceFault};
use snl_watch::line_number;
use std::alloc::AllocError;

/// Adds a line that a run wrote, or that it wrote none.
fn push_line(out: &mut Vec<u8>, front: &[u8], line: &Option<Vec<u8>>) -> Result<(), AllocError> {
    match line {
        Some(line) => push_all(out, &[front, line.as_slice(), b"\n"]),
        None => push_all(out, &[front, b"nothing\n"]),
    }
}

/// Adds how a run ends.
fn push_end(log: &mut Log, front: &[u8], end: Option<End>) -> Result<(), AllocError>
    ensures first { log.new.first ≡ log.old.first }
    ensures filter { log.new.filter ≡ log.old.filter }
    ensures number { log.new.number ≡ log.old.number }
{
    let alloc = log.alloc;
    let out = &mut log.text;
    match end {
        None => push_all(out, &[front, b" goes on\n"]),
        Some(End::Fault(fault, line)) => {
            let text = format!(in alloc; "{fault}")?;
            push_all(out, &[front, b" faults: ", text.as_bytes()])?;
            push_told(out, b" (line ", line as u64, b")\n")
        }
        Some(End::TraceFault(_, fault)) => {
            let text = format!(in alloc; "{fault}")?;
            push_all(
                out,
                &[front, b" does not take the line: ", text.as_bytes(), b"\n"],
            )
        }
        Some(_) => push_all(out, &[front, b" exits\n"]),
    }
}

/// Adds how the runs are apart at a line.
fn push_apart(log: &mut Log, apart: &Apart, old: &Side, new: &Side) -> Result<(), AllocError>
    ensures first { log.new.first ≡ log.old.first }
    ensures filter { log.new.filter ≡ log.old.filter }
    ensures number { log.new.number ≡ log.old.number }
{
    let number = line_number(log.number);
    match apart {
        Apart::Lines(line, other) => {
            push_told(&mut log.text, b"line ", number, b" of the trace differs:\n")?;
            push_line(&mut log.text, b"old wrote: ", line)?;
            push_line(&mut log.text, b"new wrote: ", other)
        }
        Apart::Ends => {
            push_told(&mut log.text, b"line ", number, b" of the trace differs:\n")?;
            push_end(log, b"old", old.end)?;
            push_end(log, b"new", new.end)
        }
    }
}

/// The time at the front of a line of the output, in milliseconds.
fn time_of(line: &[u8]) -> u64 {
    let mut ms = 0u64;
    for byte in word(line) {
        let digit = u64::from(byte.wrapping_sub(b'0'));
        ms = ms.saturating_mul(10).saturating_add(digit);
    }
    ms
}

/// The times of which is told what fired in each run: that of the line by which it is apart, else that of the other's; where they are
/// apart by their ends, that at which each stands.
fn times_of(apart: &Apart, old: &Side, new: &Side) -> (u64, u64) {
    match apart {
        Apart::Lines(Some(line), Some(other)) => {
            (time_of(line.as_slice()), time_of(other.as_slice()))
        }
        Apart::Lines(Some(line), None) | Apart::Lines(None, Some(line)) => {
            (time_of(line.as_slice()), time_of(line.as_slice()))
        }
        _ => (old.machine.time(), new.machine.time()),
    }
}

/// Adds which clauses fired in both, and where both stand.
fn push_both(out: &mut Vec<u8>, apart: &Apart, old: &Side, new: &Side) -> Result<(), AllocError> {
    let (ms, other) = times_of(apart, old, new);
    old.page.scene.push_clauses(out, b"old", ms)?;
    new.page.scene.push_clauses(out, b"new", other)?;
    old.page.scene.push_place(out, b"old")?;
    new.page.scene.push_place(out, b"new")
}

/// Counts the lines that each run wrote alone at the line that they did last.
fn count_alone(log: &mut Log, old: &Side, new: &Side) -> Result<(), AllocError>
    ensures first { log.new.first ≡ log.old.first }
    ensures filter { log.new.filter ≡ log.old.filter }
    ensures number { log.new.number ≡ log.old.number }
{
    let alone = alone_in(log.alloc, log.filter, old.page.text(), new.page.text())?;
    log.old_alone = log.old_alone.saturating_add(alone.old);
    log.new_alone = log.new_alone.saturating_add(alone.new);
    Ok(())
}

/// Tells how the runs are apart at the line that they did last, if they are and that is to be told, and counts the lines that each wrote
/// alone there.
pub(crate) fn tell(
    log: &mut Log,
    old: &Side,
    new: &Side,
    apart: &Option<Apart>,
) -> Result<(), AllocError>
    ensures first { log.new.first ≡ log.old.first }
    ensures filter { log.new.filter ≡ log.old.filter }
    ensures number { log.new.number ≡ log.old.number }
{
    let Some(apart) = apart else {
        return Ok(());
    };
    count_alone(log, old, new)?;
    if log.first.is_some() && !log.is_whole {
        return Ok(());
    }
    push_apart(log, apart, old, new)?;
    push_both(&mut log.text, apart, old, new)
}

/// How many lines of the trace were looked at, with one that is too long.
fn lines_seen(log: &Log, close: Close) -> u64 {
    match close {
        Close::LineTooLong(number) => line_number(number),
        _ => line_number(log.number).saturating_sub(1),
    }
}

/// Adds how it went on behind the first difference, up to a line.
fn push_rest(log: &mut Log, lines: u64, old: &Side, new: &Side) -> Result<(), AllocError>
    ensures { log.new.first ≡ log.old.first }
{
    let filter = log.filter;
    let out = &mut log.text;
    push_told(out, b"", log.apart, b" of ")?;
    push_counted(out, b"", lines, b"line")?;
    let last = line_number(log.last);
    push_told(out, b" of the trace differ, the last is line ", last, b"\n")?;
    old.page.scene.push_written(out, b"old wrote ")?;
    new.page.scene.push_written(out, b"; new wrote ")?;
    push_counted(out, b"; alone: old ", log.old_alone, b"line")?;
    push_counted(out, b", new ", log.new_alone, b"line")?;
    out.extend_from_slice(b"\n")?;
    push_puts(out, filter, old, new)
}

/// Adds that there is no difference, and how much was compared.
fn push_same(out: &mut Vec<u8>, lines: u64, old: &Side) -> Result<(), AllocError> {
    push_counted(out, b"the same over ", lines, b"line")?;
    old.page.scene.push_written(out, b" of the trace: ")?;
    out.extend_from_slice(b"\n")
}

/// Adds the end of what is told. It is an error, too, where memory was refused for what is told.
pub(crate) fn sum_up(log: &mut Log, old: &Side, new: &Side, close: Close) -> Result<(), AllocError>
    ensures { log.new.first ≡ log.old.first }
{
    if old.page.scene.ran_out() || new.page.scene.ran_out() {
        return Err(AllocError);
    }
    let lines = lines_seen(log, close);
    if log.first.is_some() {
        return push_rest(log, lines, old, new);
    }
    let end = match close {
        Close::SourceFailed => return Ok(()),
        Close::TraceEnded => return push_same(&mut log.text, lines, old),
        Close::LineTooLong(number) => Some(End::TraceFault(number, TraceFault::LineTooLong)),
        Close::RunEnded(end, _) => end,
    };
    push_same(&mut log.text, lines, old)?;
    push_end(log, b"each", end)
}
