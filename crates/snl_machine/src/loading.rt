//! `Machine::load`: the machine of a checked program, which is dropped then.

ghost use Rattle.std.specs.Prelude.{◌≡◌, ℕ, List, IfOk};
ghost use Rattle.snl_machine.specs.declared.machine.Machine as machine;
ghost use Rattle.snl_machine.specs.Loading.{IsLoadedFrom};

use crate::machine::Machine;
use crate::making::machine_of;
use snl_channels::Macros;
use snl_check::Checked;
use snl_meaning::Sites;
use std::alloc::{AllocError, Global};

/// What is lent while its machine is made. A function that owns a whole checked program and lends it is dear to prove; one
/// that owns a value of a type parameter is not.
pub trait Loads {
    ghost loaded: { Self → List ℕ → ℕ → machine.Machine → Type 0 };

    /// Its machine. The only error is that memory ends.
    fn machine(&self, alloc: Global, macros: &Macros, budget: u32) -> Result<Machine, AllocError>
        ensures { IfOk result (loaded self.now macros.now.text.now budget) };
}

/// The machine of a checked program that is lent. It is made with the macros of the run, and waits for its channels as the
/// program's options say.
fn loaded<'a>(
    alloc: Global,
    checked: &Checked<'a>,
    macros: &Macros,
    budget: u32,
) -> Result<Machine, AllocError>
    ensures { IfOk result (IsLoadedFrom checked.now macros.now.text.now budget) }
{
    let sites = Sites::of(alloc, checked.sites(), checked.uses())?;
    machine_of(
        alloc,
        checked.program(),
        &sites,
        macros,
        checked.waits(),
        budget,
    )
}

impl<'a> Loads for Checked<'a> {
    ghost loaded = { IsLoadedFrom };

    fn machine(&self, alloc: Global, macros: &Macros, budget: u32) -> Result<Machine, AllocError> {
        loaded(alloc, self, macros, budget)
    }
}

impl Machine {
    /// Makes the machine of a checked program, with the macros of the run. It has not started: it waits for its channels
    /// then, but under the option `-c` (Compiling SNL Programs, "Options"). All the room that a run takes is made here, and
    /// the program is dropped: nothing of it or of its source is kept. The budget is the number of ticks that one instant may
    /// take, 1 to 1,000,000,000.
    ///
    /// Fails only where that room was not to be had.
    pub fn load<T: Loads + Drop>(
        alloc: Global,
        checked: T,
        macros: &Macros,
        budget: u32,
    ) -> Result<Machine, AllocError>
        ensures { IfOk result (T.loaded checked macros.now.text.now budget) }
    {
        checked.machine(alloc, macros, budget)
    }
}
