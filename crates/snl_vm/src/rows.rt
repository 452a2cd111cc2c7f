//! Rows: the numbers of the places that have a key, for each key.

ghost use Rattle.std.specs.Prelude.{◌≡◌, ◌∷◌, ◌++◌, ◌<◌, [], length, ℕ, IfOk, OnOk};

use std::alloc::{AllocError, Global};

/// For each key the numbers of the places that have it, in their order.
#[derive(Drop)]
pub struct Rows {
    rows: Vec<Vec<usize>>,
}

impl Rows {
    ghost use Rattle.snl_vm.specs.Rows.{row_in, rows_of, numbers_of, with_number};

    /// No rows.
    pub fn none(alloc: Global) -> Self
        ensures { (key : ℕ) → row_in (rows_of result) key ≡ [] }
    {
        Rows {
            rows: Vec::new(alloc),
        }
    }

    /// The rows of some places, each of which has a key or none. There are as many rows as the greatest key says. The
    /// only error is that memory ends.
    pub fn new(alloc: Global, keys: &[Option<usize>]) -> Result<Self, AllocError>
        ensures { IfOk result (λ rows. (key : ℕ)
            → row_in (rows_of rows) key ≡ numbers_of key 0 keys.now) }
    {
        let mut rows = Rows::none(alloc);
        for (number, key) in keys.iter().enumerate() {
            if let Some(key) = *key {
                rows.add(alloc, key, number)?;
            }
        }
        Ok(rows)
    }

    /// The numbers of the places that have a key; none where there is no such row.
    pub fn row(&self, key: usize) -> &[usize]
        ensures { result.now ≡ row_in (rows_of self.now) key }
    {
        match self.rows.get(key) {
            Some(row) => row.as_slice(),
            None => &[],
        }
    }

    /// One number more in the row of a key.
    pub fn add(&mut self, alloc: Global, key: usize, number: usize) -> Result<(), AllocError>
        ensures { OnOk result ((other : ℕ) → row_in (rows_of self.new) other
            ≡ with_number key number other (row_in (rows_of self.old) other)) }
    {
        self.reach(alloc, key)?;
        self.rows[key].push(number)?;
        Ok(())
    }

    /// Empty rows, until there is one for a key.
    fn reach(&mut self, alloc: Global, key: usize) -> Result<(), AllocError>
        ensures same { OnOk result ((other : ℕ)
            → row_in (rows_of self.new) other ≡ row_in (rows_of self.old) other) }
        ensures enough { OnOk result (key < length self.new.rows.items) }
    {
        while self.rows.len() <= key {
            self.rows.push(Vec::new(alloc))?;
        }
        Ok(())
    }
}
