//! `moments`: what a program is at some times of a recorded day.

ghost use Rattle.std.specs.Prelude.{◌≡◌, ◌≢◌, ◌+◌, ◌-◌, ◌^◌, ◌<◌, ◌++◌, ◌∷◌, [], All, IfNone, IfOk, IfSome, IsTrue, false, is_none, length, true};
ghost use Rattle.snl_machine.specs.MachineOf.{world_held};
ghost use Rattle.snl_meaning.specs.World.{World};
ghost use Rattle.snl_moments.specs.Loaded.{IsUntold};
ghost use Rattle.snl_moments.specs.Plans.{AreFrom, AreTold, AsksFor, ClosesPlan, GoesPlanned, TellsPlan, kinds, left_of, times_of};
ghost use Rattle.snl_moments.specs.Tells.{AreMoments};
ghost use Rattle.snl_moments.specs.Walks.{DoesBy, EndsBehind, GoesBy, HasRoom, KeepsTold, MeansAs, Stands, TakesIn, TellsBad};
ghost use Rattle.snl_output.specs.Devices.{counted};
ghost use Rattle.snl_trace.specs.Run.{Rules};

use crate::line_step::{Done, line_done};
use crate::subject::Subject;
use crate::times::come_towards;
use crate::walk_end::{finish_amid, finish_bad, finish_over, tell_into};
use crate::walks::{Asked, Close, Sort};
use arrayvec::ArrayVec;
use snl_trace::{Source, TraceFault, first_line};
use std::alloc::{AllocError, Global};

/// One byte more than a line may have: with that many it is known to be too long.
const LINE_HELD: usize = 32_769;

/// A line that has not ended yet.
type Line = ArrayVec<u8, LINE_HELD>;

/// How many bytes are read at once at most.
const PIECE: usize = 65_536;

/// Adds bytes to a line; answers whether it is not too long then.
fn extend(line: &mut Line, bytes: &[u8]) -> bool
    ensures ok { result ≡ true → line.new.items ≡ line.old.items ++ bytes.now }
    ensures long { result ≡ false → 32768 < length line.old.items + length bytes.now }
{
    line.try_extend_from_slice(bytes).is_ok() && !line.is_full()
}

/// Whether all times that were asked for are told.
fn is_told(walk: &Subject) -> bool
    ensures { IsTrue result → left_of walk.now ≡ [] }
{
    match walk.sort {
        Sort::Times => walk.next >= walk.times.len(),
        Sort::Trip | Sort::Into => false,
    }
}

/// Does a line, in front of which all is told that comes there. Answers how the walk ends there, if it does. The only error is that memory
/// ends.
fn do_line(alloc: Global, walk: &mut Subject, line: &[u8]) -> Result<Option<Close>, AllocError>
    requires { All (λ byte. byte ≢ 10) line.now }
    ensures does { IfOk result (DoesBy line.now walk.old walk.new) }
    ensures plan { IfOk result (λ close. GoesPlanned close walk.old walk.new) }
{
    match line_done(walk, line) {
        Done::Bad(number, fault) => Ok(Some(finish_bad(alloc, walk, number, fault)?)),
        Done::Well(None) => {
            tell_into(alloc, walk)?;
            Ok(None)
        }
        Done::Well(Some(end)) => Ok(Some(finish_amid(alloc, walk, end)?)),
    }
}

/// Takes in a line. Answers how the walk ends there, if it does. The only error is that memory ends.
fn take_line(alloc: Global, walk: &mut Subject, line: &[u8]) -> Result<Option<Close>, AllocError>
    requires { All (λ byte. byte ≢ 10) line.now }
    ensures goes { IfOk result (GoesBy line.now walk.old walk.new) }
    ensures plan { IfOk result (λ close. GoesPlanned close walk.old walk.new) }
{
    come_towards(alloc, walk, line)?;
    if is_told(walk) {
        return Ok(Some(Close::Told));
    }
    match walk.end {
        Some(end) => Ok(Some(finish_amid(alloc, walk, end)?)),
        None => do_line(alloc, walk, line),
    }
}

/// Ends a walk at a line that is too long. The only error is that memory ends.
fn too_long(alloc: Global, walk: &mut Subject) -> Result<Close, AllocError>
    ensures tells { IfOk result (λ _. TellsBad walk.old walk.new) }
    ensures plan { IfOk result (λ close. ClosesPlan close walk.old walk.new) }
{
    let number = walk.number;
    finish_bad(alloc, walk, number, TraceFault::LineTooLong)
}

/// Takes in the rest of a line, which ends there. Answers how the walk ends there, if it does. The only error is that memory ends.
fn end_line(
    alloc: Global,
    walk: &mut Subject,
    begun: &mut Line,
    text: &[u8],
) -> Result<Option<Close>, AllocError>
    requires begun { All (λ byte. byte ≢ 10) begun.old.items }
    requires text { All (λ byte. byte ≢ 10) text.now }
    ensures goes { IfOk result (GoesBy (begun.old.items ++ text.now) walk.old walk.new) }
    ensures clear { IfOk result (λ close. IfNone close (begun.new.items ≡ [])) }
    ensures plan { IfOk result (λ close. GoesPlanned close walk.old walk.new) }
{
    if begun.is_empty() {
        return take_line(alloc, walk, text);
    }
    if !extend(begun, text) {
        return Ok(Some(too_long(alloc, walk)?));
    }
    let close = take_line(alloc, walk, begun.as_slice())?;
    begun.clear();
    Ok(close)
}

/// Takes in the next bytes of a trace: each line that ends in them is done, and what is left begins the next one. Answers how the walk
/// ends in them, if it does. The only error is that memory ends.
fn take_in(
    alloc: Global,
    walk: &mut Subject,
    begun: &mut Line,
    bytes: &[u8],
) -> Result<Option<Close>, AllocError>
    requires { All (λ byte. byte ≢ 10) begun.old.items }
    ensures takes { IfOk result (TakesIn bytes.now begun.old.items begun.new.items
        walk.old walk.new) }
    ensures plan { IfOk result (λ close. GoesPlanned close walk.old walk.new) }
{
    let mut left = bytes;
    while let Some((line, rest)) = first_line(left) {
        match end_line(alloc, walk, begun, line)? {
            None => left = rest,
            Some(close) => return Ok(Some(close)),
        }
    }
    if extend(begun, left) {
        return Ok(None);
    }
    Ok(Some(too_long(alloc, walk)?))
}

/// Ends a walk behind the last byte of its trace: a line without its newline is one. The only error is that memory ends.
fn end_trace(alloc: Global, walk: &mut Subject, begun: &[u8]) -> Result<Close, AllocError>
    requires { All (λ byte. byte ≢ 10) begun.now }
    ensures ends { IfOk result (λ _. EndsBehind begun.now walk.old walk.new) }
    ensures plan { IfOk result (λ close. ClosesPlan close walk.old walk.new) }
{
    if begun.is_empty() {
        return finish_over(alloc, walk);
    }
    match take_line(alloc, walk, begun)? {
        Some(close) => Ok(close),
        None => finish_over(alloc, walk),
    }
}

/// Walks along a trace of which nothing was read, line by line. Answers how the walk closed; None where the trace could not be read on. The
/// only error is that memory ends.
fn walk_over<R: Source>(
    alloc: Global,
    walk: &mut Subject,
    trace: &mut R,
) -> Result<Option<Close>, AllocError>
    requires trace { R.failures trace.old < 2 ^ 64 - 1 }
    requires fresh { R.gave trace.old ≡ [] }
    ensures walked { IfOk result (λ _. (r : Rules) (first : World) →
        Stands false r first [] [] walk.old →
        AreMoments r first (R.gave trace.new) (R.ended trace.new) walk.new.moments.items) }
    ensures plan { IfOk result (λ close. TellsPlan close walk.old walk.new) }
    ensures source { IfOk result (λ close. R.failures trace.new
        ≡ counted (is_none close) (R.failures trace.old)) }
{
    let mut room = [0u8; PIECE];
    let mut begun = Line::new();
    for _reads in 0..u64::MAX {
        match trace.read(&mut room) {
            Err(_) => return Ok(None),
            Ok(0) => {
                let close = end_trace(alloc, walk, begun.as_slice())?;
                return Ok(Some(close));
            }
            Ok(count) => {
                match take_in(alloc, walk, &mut begun, &room[..count])? {
                    Some(close) => return Ok(Some(close)),
                    None => {}
                }
            }
        }
    }
    Err(AllocError)
}

/// What is asked for goes into a walk that has not begun. The only error is that memory ends.
fn ask(walk: &mut Subject, asked: Asked<'_>) -> Result<(), AllocError>
    requires { IsUntold walk.old }
    ensures told { IfOk result (λ _. KeepsTold walk.old walk.new) }
    ensures asks { IfOk result (λ _. AsksFor (times_of asked.entry) walk.new) }
{
    match asked {
        Asked::Times(times) => {
            walk.sort = Sort::Times;
            walk.times.extend_from_slice(times)
        }
        Asked::Trip => {
            walk.sort = Sort::Trip;
            Ok(())
        }
        Asked::Into(set, state) => {
            walk.sort = Sort::Into;
            walk.ear.goal = Some((set, state));
            Ok(())
        }
    }
}

/// Runs a program over a trace of which nothing was read, line by line, and keeps what it is at the times that are asked for: behind all
/// lines up to the time and all wakes up to it; where the trace ends, or the program, behind what there was. Where a line of the trace is
/// bad, it is kept once more what the program is in front of that line. Or it is kept what the program is where it faults, or behind the
/// instant in which it came last into a state.
///
/// No more of the trace is read than is needed. Answers how the walk closed; None exactly where the trace could not be read on: then the
/// first times are told. The only error is that memory ends, or that there are more moments than stores.
pub fn moments<R: Source>(
    alloc: Global,
    walk: &mut Subject,
    asked: Asked<'_>,
    trace: &mut R,
) -> Result<Option<Close>, AllocError>
    requires trace { R.failures trace.old < 2 ^ 64 - 1 }
    requires fresh { R.gave trace.old ≡ [] }
    requires untold { IsUntold walk.old }
    ensures told { IfOk result (λ close. IfSome (times_of asked.entry) (λ times.
        AreTold times close (kinds walk.new.moments.items))) }
    ensures source { IfOk result (λ close. R.failures trace.new
        ≡ counted (is_none close) (R.failures trace.old)) }
    ensures are { IfOk result (λ _. (r : Rules) → MeansAs r walk.old.machine →
        All (HasRoom (world_held walk.old.machine)) walk.old.spares.items →
        IfSome (times_of asked.entry) (AreFrom (world_held walk.old.machine).time) →
        AreMoments r (world_held walk.old.machine) (R.gave trace.new) (R.ended trace.new)
        walk.new.moments.items) }
{
    ask(walk, asked)?;
    walk_over(alloc, walk, trace)
}
