//! A program that a trace is made for, and what it takes of it.

ghost use Rattle.std.specs.Prelude.{◌≡◌, Bool, true, take};
ghost use Rattle.snl_trace.specs.Grammar.{Told, Up, Down, Val, val_of};
ghost use Rattle.snl_machine.specs.Lookup.{fits_of};
ghost use Rattle.snl_logs.specs.Held.{numbers_of};
ghost use Rattle.snl_import.specs.Trace.{told_by};
ghost use Rattle.snl_import.specs.Taken.{taken_by};

use crate::happenings::Happening;
use arrayvec::ArrayVec;
use snl_logs::Values;
use snl_machine::{Event, Machine, VALUES_KEPT};

/// A program that a trace is made for.
pub trait Program {
    /// Whether it takes what a line tells.
    ghost taken: { Self → Told → Bool };

    /// Whether it has a channel of this name.
    fn has(&self, name: &[u8]) -> bool;

    /// Whether it takes what happens to a channel of this name: the channel is one of its own, and its variables can hold the values.
    fn takes(&self, name: &[u8], happening: Happening) -> bool
        ensures { result ≡ taken self.now (told_by name.now happening.entry) };
}

/// Any program: it takes all.
#[derive(Clone, Copy, Drop)]
pub struct AnyProgram;

impl Program for AnyProgram {
    ghost taken = { λ _ _. true };

    fn has(&self, _name: &[u8]) -> bool {
        true
    }

    fn takes(&self, _name: &[u8], _happening: Happening) -> bool {
        true
    }
}

/// A program that is loaded: it takes what a run of it would take.
#[derive(Clone, Copy, Drop)]
pub struct LoadedProgram<'m> {
    machine: &'m Machine,
}

/// Values as a run keeps them: of more than 1,024 the first ones.
fn kept(values: &[i64]) -> ArrayVec<i64, VALUES_KEPT>
    ensures { result.items ≡ take 1024 values.now }
{
    let mut kept = ArrayVec::new();
    let _ = kept.try_extend_from_slice(&values[..VALUES_KEPT.min(values.len())]);
    kept
}

/// Whether values fit the variables of a channel, by its number.
fn are_fit(machine: &Machine, channel: usize, values: &Values) -> bool
    ensures { result ≡ fits_of machine.now (val_of channel (take 1024 (numbers_of values.now))) }
{
    machine.fits(&Event::Val(channel, kept(values.as_slice())))
}

/// Whether a machine's program has a channel of this name: then it takes that the channel is connected or not.
fn has_channel(machine: &Machine, name: &[u8]) -> bool
    ensures up { result ≡ taken_by machine.now (Up name.now) }
    ensures down { result ≡ taken_by machine.now (Down name.now) }
{
    machine.channel(name).is_some()
}

/// Whether a machine's program has a channel of this name, and takes these values of it.
fn takes_values(machine: &Machine, name: &[u8], values: &Values) -> bool
    ensures { result ≡ taken_by machine.now (Val name.now (take 1024 (numbers_of values.now))) }
{
    match machine.channel(name) {
        Some(channel) => are_fit(machine, channel, values),
        None => false,
    }
}

impl<'m> LoadedProgram<'m> {
    /// The program of a machine.
    pub fn new(machine: &'m Machine) -> LoadedProgram<'m>
        ensures { result.machine ≡ machine.entry }
    {
        LoadedProgram { machine }
    }
}

impl<'m> Program for LoadedProgram<'m> {
    ghost taken = { λ program. taken_by program.machine.now };

    fn has(&self, name: &[u8]) -> bool {
        has_channel(self.machine, name)
    }

    fn takes(&self, name: &[u8], happening: Happening) -> bool {
        match happening {
            Happening::Up | Happening::Down => has_channel(self.machine, name),
            Happening::Values(values) => takes_values(self.machine, name, values),
        }
    }
}
