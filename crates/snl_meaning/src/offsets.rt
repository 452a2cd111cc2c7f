//! Declarations by their offsets, each found by its number.

ghost use Rattle.std.specs.Prelude.{◌≡◌, length, IfOk};
ghost use Rattle.snl_meaning.specs.Names as spec;

use indexmap::IndexMap;
use std::alloc::{AllocError, Global};
use std::marker::Model;

/// Offsets of declarations, in bytes, in an order. It finds the number of one as fast among many as
/// among few.
#[derive(Drop)]
pub struct Offsets {
    all: Vec<usize>,
    /// Of each offset the number of the first that is this one.
    numbers: IndexMap<usize, usize>,
}

impl Model for Offsets {
    ghost use Rattle.std.specs.Prelude.{ℕ, List};

    ghost Value = { List ℕ };

    ghost view = { λ s. s.all.items };

    ghost use Rattle.snl_meaning.specs.OffsetTables.{IsOffsetTable};

    ghost invariant = { λ s. IsOffsetTable s.numbers s.all.items };
}

impl Offsets {
    /// These offsets, with their numbers from 0 on. The only error is that memory ends.
    pub fn of(alloc: Global, all: Vec<usize>) -> Result<Offsets, AllocError>
        ensures { IfOk result (λ offsets. offsets ≡ all.items) }
    {
        let mut numbers = IndexMap::new(alloc);
        for number in (0..all.len()).rev() {
            numbers.insert(all[number], number)?;
        }
        Ok(Offsets { all, numbers })
    }

    /// How many there are.
    pub fn len(&self) -> usize
        ensures { result ≡ length self.now }
    {
        self.all.len()
    }

    /// The number of the first that is this one; that after the last where none is.
    pub fn number(&self, offset: usize) -> usize
        ensures { result ≡ spec.number_at self.now offset }
    {
        self.numbers.get(&offset).copied().unwrap_or(self.all.len())
    }
}
