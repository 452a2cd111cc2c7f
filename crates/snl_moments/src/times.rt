//! The times that are asked for, one after another, and what is told in front of a line of the trace.

ghost use Rattle.std.specs.Prelude.{◌≡◌, ◌+◌, ◌<◌, ℕ, IfNone, IfOk, IfSome, IsTrue, Some, false, length, slice_get, true};
ghost use Rattle.snl_machine.specs.MachineOf.{world_held};
ghost use Rattle.snl_moments.specs.Plans.{AreFrom, KeepsPlan, TellsLast, TellsNext, left_of};
ghost use Rattle.snl_moments.specs.Walks.{ComesTowards, KeepsTold, Leaves, MeansAs, ReadsBehind, ReadsUpTo, TellsAt, TellsNow};
ghost use Rattle.snl_trace.specs.Run.{Rules};

use crate::line_step::time_of;
use crate::moment_store::tell;
use crate::subject::Subject;
use crate::wakes::wake_up;
use crate::walks::{Kind, Sort};
use snl_machine::Snapshot;
use std::alloc::{AllocError, Global};

/// The next time that is asked for.
pub(crate) fn next_time(walk: &Subject) -> Option<u64>
    ensures { result ≡ slice_get walk.now.times.items walk.now.next }
{
    walk.times.get(walk.next).copied()
}

/// Goes on to the time behind the next one.
fn go_on(walk: &mut Subject)
    ensures told { KeepsTold walk.old walk.new }
    ensures sort { walk.new.sort ≡ walk.old.sort }
    ensures times { walk.new.times.items ≡ walk.old.times.items }
    ensures next { walk.old.next < length walk.old.times.items →
        walk.new.next ≡ walk.old.next + 1 }
    ensures early { (ms : ℕ) → AreFrom ms (left_of walk.old) → AreFrom ms (left_of walk.new) }
{
    if walk.next < walk.times.len() {
        walk.next += 1;
    }
}

/// Tells what the program is at the next time that is asked for, and goes on to the one behind it. The only error is that memory ends.
pub(crate) fn tell_time(
    alloc: Global,
    walk: &mut Subject,
    ms: u64,
    from: &Snapshot,
) -> Result<(), AllocError>
    ensures tells { IfOk result (λ _. TellsNow (Kind.At ms) from.now walk.old walk.new) }
    ensures asked { IfOk result (λ _. TellsNext ms walk.old walk.new) }
{
    tell(alloc, walk, Kind::At(ms), from)?;
    go_on(walk);
    Ok(())
}

/// Whether the event of a line comes after a time.
fn is_behind(walk: &mut Subject, line: &[u8], ms: u64) -> bool
    ensures later { IsTrue result → (r : Rules) → MeansAs r walk.old.machine →
        ReadsBehind r (world_held walk.old.machine) line.now ms }
    ensures sooner { result ≡ false → (r : Rules) → MeansAs r walk.old.machine →
        ReadsUpTo r (world_held walk.old.machine) line.now ms }
    ensures leaves { Leaves walk.old walk.new }
{
    match time_of(walk, line) {
        Some(time) => ms < time,
        None => false,
    }
}

/// Tells what the program is at the next time that is asked for, behind the wakes up to it. The only error is that memory ends.
pub(crate) fn tell_next(alloc: Global, walk: &mut Subject, ms: u64) -> Result<(), AllocError>
    ensures tells { IfOk result (λ _. TellsAt ms walk.old walk.new) }
    ensures plan { IfOk result (λ _. TellsLast true ms walk.old walk.new) }
{
    let now = wake_up(alloc, walk, ms)?;
    tell_time(alloc, walk, ms, &now)
}

/// The next time that is asked for, if it comes before the event of a line.
fn due_time(walk: &mut Subject, line: &[u8]) -> Option<u64>
    ensures leaves { Leaves walk.old walk.new }
    ensures next { IfSome result (λ ms.
        slice_get walk.old.times.items walk.old.next ≡ Some ms) }
    ensures later { IfSome result (λ ms. (r : Rules) → MeansAs r walk.old.machine →
        ReadsBehind r (world_held walk.old.machine) line.now ms) }
    ensures none { IfNone result ((r : Rules) (ms : ℕ) → MeansAs r walk.old.machine →
        slice_get walk.old.times.items walk.old.next ≡ Some ms →
        ReadsUpTo r (world_held walk.old.machine) line.now ms) }
{
    let ms = next_time(walk)?;
    if is_behind(walk, line, ms) {
        Some(ms)
    } else {
        None
    }
}

/// Tells what the program is at the times that come before the event of a line. The only error is that memory ends.
fn tell_due(alloc: Global, walk: &mut Subject, line: &[u8]) -> Result<(), AllocError>
    ensures comes { IfOk result (λ _. ComesTowards line.now walk.old walk.new) }
    ensures plan { IfOk result (λ _. KeepsPlan walk.old walk.new) }
{
    for _time in 0..walk.times.len() {
        match due_time(walk, line) {
            Some(ms) => tell_next(alloc, walk, ms)?,
            None => return Ok(()),
        }
    }
    Ok(())
}

/// Runs the wakes in front of the event of a line, one after another, where no times are asked for. The only error is that memory ends.
fn wake_before(alloc: Global, walk: &mut Subject, line: &[u8]) -> Result<(), AllocError>
    ensures comes { IfOk result (λ _. walk.old.sort ≡ Sort.Into →
        ComesTowards line.now walk.old walk.new) }
    ensures plan { IfOk result (λ _. KeepsPlan walk.old walk.new) }
{
    match time_of(walk, line) {
        Some(ms) if ms > 0 => {
            let _now = wake_up(alloc, walk, ms - 1)?;
            Ok(())
        }
        _ => Ok(()),
    }
}

/// Does what is asked for in front of a line. The only error is that memory ends.
pub(crate) fn come_towards(alloc: Global, walk: &mut Subject, line: &[u8]) -> Result<(), AllocError>
    ensures comes { IfOk result (λ _. ComesTowards line.now walk.old walk.new) }
    ensures plan { IfOk result (λ _. KeepsPlan walk.old walk.new) }
{
    match walk.sort {
        Sort::Times => tell_due(alloc, walk, line),
        Sort::Into => wake_before(alloc, walk, line),
        Sort::Trip => Ok(()),
    }
}
