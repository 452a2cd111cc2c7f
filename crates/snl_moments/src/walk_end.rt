//! What is told where a walk ends.

ghost use Rattle.std.specs.Prelude.{◌≡◌, ◌⊎◌, [], IfOk, IsTrue, Some, false, slice_get, true};
ghost use Rattle.snl_machine.specs.MachineOf.{world_held};
ghost use Rattle.snl_moments.specs.Plans.{ClosesPlan, EndsPlan, SameAsked, StaysAsked, TellsLast, left_of};
ghost use Rattle.snl_moments.specs.declared.walks.Sort.TheVariants.{Times};
ghost use Rattle.snl_moments.specs.Walks.{EndsAt, Keeps, TellsBad};

use crate::moment_store::tell;
use crate::subject::Subject;
use crate::times::{next_time, tell_next};
use crate::wakes::{is_sought, note_into};
use crate::walks::{Close, Kind, Sort};
use snl_machine::Live;
use snl_trace::{End, TraceFault};
use std::alloc::{AllocError, Global};

/// Whether nothing follows, or the program has ended.
fn is_last(walk: &Subject, is_over: bool) -> bool
    ensures which { IsTrue result → (is_over ≡ true)
        ⊎ ((world_held walk.now.machine).phase ≡ Live.Ended) }
    ensures over { is_over ≡ true → IsTrue result }
{
    match walk.machine.phase() {
        Live::Ended => true,
        _ => is_over,
    }
}

/// Tells what the program is at the next time that is asked for, where nothing follows, or it has ended. The only error is that memory
/// ends.
fn tell_last(alloc: Global, walk: &mut Subject, ms: u64, is_over: bool) -> Result<(), AllocError>
    ensures ends { IfOk result (λ _. slice_get walk.old.times.items walk.old.next ≡ Some ms →
        EndsAt is_over walk.old walk.new) }
    ensures plan { IfOk result (λ _. TellsLast is_over ms walk.old walk.new) }
{
    if is_last(walk, is_over) {
        return tell_next(alloc, walk, ms);
    }
    Ok(())
}

/// The same for all times that are left.
fn tell_rest(alloc: Global, walk: &mut Subject, is_over: bool) -> Result<(), AllocError>
    ensures ends { IfOk result (λ _. EndsAt is_over walk.old walk.new) }
    ensures plan { IfOk result (λ _. EndsPlan is_over walk.old walk.new) }
{
    for _time in 0..walk.times.len() {
        match next_time(walk) {
            Some(ms) => tell_last(alloc, walk, ms, is_over)?,
            None => return Ok(()),
        }
    }
    Ok(())
}

/// Tells what the program is now, as a moment of a kind that is told wherever the run stands.
fn tell_trip(alloc: Global, walk: &mut Subject) -> Result<(), AllocError>
    ensures keeps { IfOk result (λ _. Keeps walk.old walk.new) }
    ensures asked { IfOk result (λ _. SameAsked walk.old walk.new) }
{
    let now = walk.machine.snapshot(alloc)?;
    tell(alloc, walk, Kind::Trip, &now)
}

/// Tells what the program is where it ends so, if that is a fault.
fn tell_fault(alloc: Global, walk: &mut Subject, end: End) -> Result<(), AllocError>
    ensures keeps { IfOk result (λ _. Keeps walk.old walk.new) }
    ensures asked { IfOk result (λ _. SameAsked walk.old walk.new) }
{
    match end {
        End::Fault(_, _) => tell_trip(alloc, walk),
        _ => Ok(()),
    }
}

/// Tells what the program is now, if it came into the state that is looked for.
pub(crate) fn tell_into(alloc: Global, walk: &mut Subject) -> Result<(), AllocError>
    ensures keeps { IfOk result (λ _. Keeps walk.old walk.new) }
    ensures asked { IfOk result (λ _. StaysAsked walk.old walk.new) }
{
    if !is_sought(walk) {
        return Ok(());
    }
    let now = walk.machine.snapshot(alloc)?;
    note_into(alloc, walk, &now)
}

/// Tells what is asked for where the run ends so: nothing follows, or the program has ended. The only error is that memory ends.
fn finish(alloc: Global, walk: &mut Subject, end: End, is_over: bool) -> Result<(), AllocError>
    ensures ends { IfOk result (λ _. EndsAt is_over walk.old walk.new) }
    ensures plan { IfOk result (λ _. EndsPlan is_over walk.old walk.new) }
{
    match walk.sort {
        Sort::Times => tell_rest(alloc, walk, is_over),
        Sort::Trip => tell_fault(alloc, walk, end),
        Sort::Into => tell_into(alloc, walk),
    }
}

/// Whether a time that is asked for is not told yet.
fn has_left(walk: &Subject) -> bool
    ensures { result ≡ false → walk.now.sort ≡ Times → left_of walk.now ≡ [] }
{
    match walk.sort {
        Sort::Times => walk.next < walk.times.len(),
        Sort::Trip | Sort::Into => false,
    }
}

/// Ends a walk where the run has ended so. A run that ends leaves its program ended, so no time is left then; no law says so, and where one
/// were left nothing would be answered. Else the only error is that memory ends.
pub(crate) fn finish_amid(alloc: Global, walk: &mut Subject, end: End) -> Result<Close, AllocError>
    ensures ends { IfOk result (λ _. EndsAt false walk.old walk.new) }
    ensures plan { IfOk result (λ close. ClosesPlan close walk.old walk.new) }
{
    finish(alloc, walk, end, false)?;
    if has_left(walk) {
        return Err(AllocError);
    }
    Ok(Close::Ended(end))
}

/// Ends a walk at the end of the trace. Where the program ended behind its last line, the walk knows how.
pub(crate) fn finish_over(alloc: Global, walk: &mut Subject) -> Result<Close, AllocError>
    ensures ends { IfOk result (λ _. EndsAt true walk.old walk.new) }
    ensures plan { IfOk result (λ close. ClosesPlan close walk.old walk.new) }
{
    let end = walk.end.unwrap_or(End::TraceEnded);
    finish(alloc, walk, end, true)?;
    match walk.end {
        Some(end) => Ok(Close::Ended(end)),
        None => Ok(Close::Over),
    }
}

/// Ends a walk in front of a bad line, by its number, and tells what the program is there, where a time is still asked for. The only error
/// is that memory ends.
pub(crate) fn finish_bad(
    alloc: Global,
    walk: &mut Subject,
    number: u128,
    fault: TraceFault,
) -> Result<Close, AllocError>
    ensures tells { IfOk result (λ _. TellsBad walk.old walk.new) }
    ensures plan { IfOk result (λ close. ClosesPlan close walk.old walk.new) }
{
    let now = walk.machine.snapshot(alloc)?;
    let end = End::TraceFault(number, fault);
    if let Some(ms) = next_time(walk) {
        tell(alloc, walk, Kind::Before(ms), &now)?;
        return Ok(Close::Ended(end));
    }
    Ok(Close::Ended(end))
}
