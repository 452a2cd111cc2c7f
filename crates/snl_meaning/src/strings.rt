//! Strings in an order, each found by its number.

ghost use Rattle.std.specs.Prelude.{◌≡◌, map, IfOk};
ghost use Rattle.snl_meaning.specs.Names as spec;

use indexmap::IndexMap;
use std::alloc::{AllocError, Global};
use std::marker::Model;

/// Strings. It finds the number of one as fast among many as among few.
#[derive(Drop)]
pub struct Strings<'a> {
    all: Vec<&'a [u8]>,
    /// Of each text the number of the first that is this one.
    numbers: IndexMap<&'a [u8], usize>,
}

impl<'a> Model for Strings<'a> {
    ghost use Rattle.std.specs.Prelude.{ℕ, List, map};

    ghost Value = { List (List ℕ) };

    ghost view = { λ s. map (λ t. t.now) s.all.items };

    ghost use Rattle.snl_meaning.specs.StringTables.{IsStringTable};

    ghost invariant = { λ s. IsStringTable s.numbers (map (λ t. t.now) s.all.items) };
}

impl<'a> Strings<'a> {
    /// These texts, with their numbers from 0 on. The only error is that memory ends.
    pub fn of(alloc: Global, all: Vec<&'a [u8]>) -> Result<Strings<'a>, AllocError>
        ensures { IfOk result (λ strings. strings ≡ map (λ t. t.now) all.entry.items) }
    {
        let mut numbers = IndexMap::new(alloc);
        for number in (0..all.len()).rev() {
            numbers.insert(all[number], number)?;
        }
        Ok(Strings { all, numbers })
    }

    /// The number of the first that is this one; that after the last where none is.
    pub fn number(&self, text: &[u8]) -> usize
        ensures { result ≡ spec.text_number self.now text.now }
    {
        self.numbers.get(&text).copied().unwrap_or(self.all.len())
    }
}
