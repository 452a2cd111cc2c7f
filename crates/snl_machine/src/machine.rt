//! `Machine`: a program with its code and the memory of its run.

ghost use Rattle.std.specs.Prelude.{◌≡◌, ◌+◌, length, map};
ghost use Rattle.snl_flat.specs.Pieces.{texts_of};
ghost use Rattle.snl_output.specs.Spelled.{spelled_in};
ghost use Rattle.snl_vm.specs.Footprint.{operand_words, store_words};
ghost use Rattle.snl_vm.specs.Stack.{room_for, room_of};
ghost use Rattle.snl_schedule.specs.Loaded.{CanRunLoaded};
ghost use Rattle.snl_machine.specs.Holding.{loaded_by};
ghost use Rattle.snl_schedule.proofs.Facts.{loaded-fact};

use crate::fused::FusedProgram;
use indexmap::IndexSet;
use snl_output::Format;
use snl_schedule::Plan;
use snl_vm::Memory;

/// A program with the memory of its run. It owns all that it holds, and nothing of the source.
pub struct Machine {
    /// What the state sets and the links are.
    pub(crate) plan: Plan,
    /// Its code.
    pub(crate) code: FusedProgram,
    /// The formats of the code, cut at their numbers.
    pub(crate) formats: Vec<Format>,
    /// The names of the channels, by their numbers.
    pub(crate) names: IndexSet<Vec<u8>>,
    /// How many ticks an instant may take.
    pub(crate) budget: u32,
    /// All that a run changes.
    pub(crate) memory: Memory,
    /// How many words the store, the operands and the places where calls go on take.
    pub(crate) footprint: u64,
    ghost words: { footprint ≡ store_words memory.store + operand_words memory.operands },
    ghost room: { room_of memory.operands ≡ room_for code.depth (length code.functions.items) },
    ghost formats_are: { map spelled_in formats.items ≡ texts_of code },
    ghost runs: { CanRunLoaded (loaded_by plan code) } by { loaded-fact (loaded_by plan code) },
}

// Written out: a derived drop is proved anew wherever such a value ends.
impl Drop for Machine {
    fn drop(self) {
        let Machine {
            plan: _,
            code: _,
            formats: _,
            names: _,
            budget: _,
            memory: _,
            footprint: _,
        } = self;
    }
}
