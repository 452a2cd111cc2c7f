//! The wakes of a program, up to a time.

ghost use Rattle.std.specs.Prelude.{◌≡◌, ◌+◌, None, IfOk, IsTrue};
ghost use Rattle.snl_machine.specs.MachineOf.{world_held};
ghost use Rattle.snl_machine.specs.Snapshots.{Pictures, anew};
ghost use Rattle.snl_moments.specs.Plans.{SameAsked, StaysAsked};
ghost use Rattle.snl_moments.specs.Walks.{Keeps, WakesTo};
ghost use Rattle.snl_schedule.specs.Event.{wake_before, wake_by};

use crate::line_step::event_at;
use crate::moment_store::tell;
use crate::subject::Subject;
use crate::walks::{Kind, Moment, Sort};
use snl_machine::{Event, Live, Snapshot};
use std::alloc::{AllocError, Global};

/// The wake of what a snapshot pictures, if one comes up to a time.
fn wake_in(from: &Snapshot, ms: u64) -> Option<u64>
    ensures { result ≡ wake_by (ms + 1) from.now.phase from.now.wake }
{
    match (from.phase, from.wake) {
        (Live::Running, Some(wake)) if wake <= ms => Some(wake),
        _ => None,
    }
}

/// Takes the last moment away, and keeps its store for another one. The only error is that memory ends.
fn untell(walk: &mut Subject) -> Result<(), AllocError>
    ensures keeps { IfOk result (λ _. Keeps walk.old walk.new) }
    ensures machine { walk.new.machine ≡ walk.old.machine }
    ensures asked { SameAsked walk.old walk.new }
{
    match walk.moments.pop() {
        None => Ok(()),
        Some(moment) => {
            let Moment { store, .. } = moment;
            walk.spares.push(store)?;
            Ok(())
        }
    }
}

/// Whether a way into a state is looked for, and there was one.
pub(crate) fn is_sought(walk: &Subject) -> bool
    ensures { IsTrue result → walk.now.sort ≡ Sort.Into }
{
    match walk.sort {
        Sort::Into => walk.ear.is_hit,
        Sort::Times | Sort::Trip => false,
    }
}

/// Keeps what the machine is where it came into the state that is looked for, in the place of an earlier moment of that kind.
pub(crate) fn note_into(
    alloc: Global,
    walk: &mut Subject,
    from: &Snapshot,
) -> Result<(), AllocError>
    requires { Pictures from.now (anew (world_held walk.old.machine)) }
    ensures keeps { IfOk result (λ _. Keeps walk.old walk.new) }
    ensures machine { walk.new.machine ≡ walk.old.machine }
    ensures asked { IfOk result (λ _. StaysAsked walk.old walk.new) }
{
    if !is_sought(walk) {
        return Ok(());
    }
    walk.ear.is_hit = false;
    untell(walk)?;
    tell(alloc, walk, Kind::Into, from)
}

/// Runs the wakes up to a time, one after another, and gives what the machine is then. A walk whose program has ended has none. Where the
/// program ends at one, the walk knows how. The only error is that memory ends.
pub(crate) fn wake_up(alloc: Global, walk: &mut Subject, ms: u64) -> Result<Snapshot, AllocError>
    ensures wakes { IfOk result (λ _. WakesTo ms walk.old walk.new) }
    ensures still { IfOk result (λ _.
        wake_before (ms + 1) (world_held walk.new.machine) ≡ None) }
    ensures pictures { IfOk result (λ s. Pictures s (anew (world_held walk.new.machine))) }
    ensures asked { IfOk result (λ _. StaysAsked walk.old walk.new) }
{
    for _wake in 0..u64::MAX {
        let now = walk.machine.snapshot(alloc)?;
        note_into(alloc, walk, &now)?;
        match wake_in(&now, ms) {
            None => return Ok(now),
            Some(wake) => {
                let end = event_at(&mut walk.machine, &mut walk.ear, wake, &Event::Tick);
                walk.end = walk.end.or(end);
            }
        }
    }
    Err(AllocError)
}
