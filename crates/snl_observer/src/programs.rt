//! A program that can be watched, or that can watch.

ghost use Rattle.std.specs.Prelude.{◌≡◌};
ghost use Rattle.snl_machine.specs.MachineOf.{world_held};
ghost use Rattle.snl_machine.specs.Snapshots.{Pictures, lasting_frame};
ghost use Rattle.snl_meaning.specs.World.{World};
ghost use Rattle.snl_observer.specs.Lasting.{lasting_of};

use crate::current_states::{ForbiddenState, place_named};
use crate::pages::TextSink;
use snl_machine::{Machine, Snapshot};
use snl_outline::SetOutline;
use snl_trace::Events;

/// A program that can be watched, or that can watch.
#[derive(Drop)]
pub struct Program {
    /// Its machine.
    pub machine: Machine,
    /// What the last line made it write.
    pub page: TextSink,
    /// Room for what it hears.
    pub(crate) events: Events,
    /// The names of its states.
    pub sets: Vec<SetOutline>,
    /// A channel that has a name of those that a requirement hears.
    pub(crate) reserved: Option<Vec<u8>>,
    /// Whether it waits for its channels before it starts.
    pub(crate) waits: bool,
}

impl Program {
    /// Takes its machine back to a snapshot of it.
    pub fn restore(&mut self, from: &Snapshot)
        ensures world { (w : World) → Pictures from.now w
            → lasting_frame w ≡ lasting_frame (world_held self.old.machine)
            → world_held self.new.machine ≡ w }
        ensures lasts { lasting_of self.new ≡ lasting_of self.old }
    {
        self.machine.restore(from);
    }

    /// The name of a channel, after macros, that begins as those do that a requirement hears: with `put:` or `state:`. A program with
    /// such a channel can't be watched.
    pub fn reserved(&self) -> Option<&[u8]> {
        match &self.reserved {
            Some(name) => Some(name.as_slice()),
            None => None,
        }
    }

    /// Whether it waits for its channels before it starts. A requirement does not: it has `option -c`.
    pub fn waits(&self) -> bool {
        self.waits
    }

    /// The state of a name, in the state set of a name; None where there is no such.
    pub fn place(&self, set: &[u8], state: &[u8]) -> Option<ForbiddenState> {
        place_named(self.sets.as_slice(), set, state)
    }
}
