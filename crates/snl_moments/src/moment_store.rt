//! What a machine is, kept in a store.

ghost use Rattle.std.specs.Prelude.{◌≡◌, IfOk};
ghost use Rattle.snl_machine.specs.Snapshots.{Pictures, anew};
ghost use Rattle.snl_meaning.specs.World.{World};
ghost use Rattle.snl_moments.specs.Plans.{TellsKind};
ghost use Rattle.snl_moments.specs.Tells.{Tells};
ghost use Rattle.snl_moments.specs.Walks.{HasRoom, TellsNow};

use crate::subject::Subject;
use crate::walks::{Kind, Moment};
use snl_machine::Snapshot;
use snl_vm::Store;
use std::alloc::{AllocError, Global};

/// Takes what a snapshot pictures into a store that has room for it.
fn take_picture(store: &mut Store, from: &Snapshot)
    ensures { (w : World) → Pictures from.now (anew w) → HasRoom w store.old → Tells store.new w }
{
    store.take_picture(from.words.as_slice());
    store.phase = from.phase;
    store.time = from.time;
    store.wake = from.wake;
    store.ticks = 0;
    store.due = None;
}

/// Adds a moment of a kind, of the machine as it stands, by its snapshot. The only error is that memory ends, or that no store is left.
pub(crate) fn tell(
    alloc: Global,
    walk: &mut Subject,
    kind: Kind,
    from: &Snapshot,
) -> Result<(), AllocError>
    ensures tells { IfOk result (λ _. TellsNow kind from.now walk.old walk.new) }
    ensures machine { walk.new.machine ≡ walk.old.machine }
    ensures asked { IfOk result (λ _. TellsKind kind walk.old walk.new) }
{
    if walk.ear.ran_out {
        return Err(AllocError);
    }
    let heard = walk.ear.heard.clone()?;
    let Some(mut store) = walk.spares.pop() else {
        return Err(AllocError);
    };
    take_picture(&mut store, from);
    walk.moments.push(Moment { kind, store, heard })?;
    Ok(())
}
