//! Where the elements of links begin in the copy of a state set.

ghost use Rattle.std.specs.Prelude.{◌≡◌, None, slice_index_or, IfOk};
ghost use Rattle.std.proofs.Props.{props};
ghost use Rattle.snl_meaning.specs.Links.{link_from};
ghost use Rattle.snl_vm.specs.Homes.{HasRows};

use crate::rows::Rows;
use std::alloc::{AllocError, Global};

/// By link: the word of a copy where the elements of the link begin; None where the copy does not have the link's
/// variable.
#[derive(Drop)]
pub struct Homes {
    /// By link.
    pub places: Vec<Option<usize>>,
    /// By word: the numbers of the links that begin there.
    rows: Rows,
    ghost known: { HasRows rows places.items } by { Prim.hlevel props },
}

impl Homes {
    /// Those of some links, in their order. The only error is that memory ends.
    pub fn new(alloc: Global, places: Vec<Option<usize>>) -> Result<Homes, AllocError>
        ensures { IfOk result (λ homes. homes.places ≡ places) }
    {
        let rows = Rows::new(alloc, places.as_slice())?;
        Ok(Homes { places, rows })
    }

    /// Where the elements of a link begin, if the copy has them.
    pub fn home(&self, link: usize) -> Option<usize>
        ensures { slice_index_or self.now.places.items link None ≡ result }
    {
        self.places.get(link).copied().unwrap_or(None)
    }

    /// The first link that begins at a word, if there is one. It takes no walk over the links.
    pub fn link_at(&self, place: usize) -> Option<usize>
        ensures { link_from 0 self.now.places.items place ≡ result }
    {
        self.rows.row(place).first().copied()
    }
}
