//! What a machine tells of its run: how far it has come, and its links and channels, by their numbers.

ghost use Rattle.std.specs.Prelude.{◌≡◌, false, length, option_map, slice_get, slice_index_or};
ghost use Rattle.snl_machine.specs.MachineOf.{task_held, world_held};

use crate::machine::Machine;
use snl_meaning::{Live, Tied};

impl Machine {
    /// How far the program has come: whether it waits for its channels, runs, or has ended.
    pub fn phase(&self) -> Live
        ensures { result ≡ (world_held self.now).phase }
    {
        self.memory.store.phase
    }

    /// How many links the program has.
    pub fn link_count(&self) -> usize
        ensures { result ≡ length (task_held self.now).program.links }
    {
        self.plan.links.len()
    }

    /// A link by its number, from 0 on in the order of the `assign` definitions; None where there are no more.
    pub fn link(&self, number: usize) -> Option<Tied>
        ensures { result ≡ slice_get (task_held self.now).program.links number }
    {
        self.plan.links.get(number).copied()
    }

    /// The name of a channel, by its number, after macros; None where there are no more.
    pub fn channel_name(&self, number: usize) -> Option<&[u8]>
        ensures { option_map (λ name. name.now) result
            ≡ slice_get (task_held self.now).channels number }
    {
        match self.names.as_slice().get(number) {
            Some(name) => Some(name.as_slice()),
            None => None,
        }
    }

    /// Whether a channel is connected, by its number; `false` where there is none.
    pub fn is_up(&self, channel: usize) -> bool
        ensures { result ≡ slice_index_or (world_held self.now).ups channel false }
    {
        self.memory.store.is_up(channel)
    }

    /// Whether a channel was ever valued, by its number; `false` where there is none.
    pub fn is_valued(&self, channel: usize) -> bool
        ensures { result ≡ slice_index_or (world_held self.now).valued channel false }
    {
        self.memory.store.is_valued(channel)
    }
}
