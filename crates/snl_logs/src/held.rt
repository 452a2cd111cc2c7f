//! The values of a sample, as numbers of 64 bits.

ghost use Rattle.std.specs.Prelude.{◌≡◌, ◌∷◌, ◌++◌, [], OnOk};
ghost use Rattle.std.specs.Int.{w64};
ghost use Rattle.std.specs.Int.RustNames.{FitsSigned};
ghost use Rattle.std.specs.List.{All};

use std::alloc::{AllocError, Global};

/// The values of a sample, as numbers of 64 bits.
#[derive(Drop)]
pub struct Values {
    items: Vec<i64>,
    ghost fit: { All (FitsSigned w64) items.items },
}

impl Values {
    /// None.
    pub fn new(alloc: Global) -> Values
        ensures { result.items.items ≡ [] }
    {
        Values {
            items: Vec::new(alloc),
        }
    }

    /// Takes all away.
    pub fn clear(&mut self)
        ensures { self.new.items.items ≡ [] }
    {
        self.items.clear();
    }

    /// Adds a value. The only error is that memory ends: then none is added.
    pub fn push(&mut self, value: i64) -> Result<(), AllocError>
        ensures { OnOk result (self.new.items.items ≡ self.old.items.items ++ value ∷ []) }
    {
        self.items.push(value)?;
        Ok(())
    }

    /// The values, in their order.
    pub fn as_slice(&self) -> &[i64]
        ensures value { result.now ≡ self.now.items.items }
        ensures fit { All (FitsSigned w64) result.now }
    {
        self.items.as_slice()
    }
}
