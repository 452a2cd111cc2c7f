//! Where the elements of links begin in the copies of all state sets, and which state sets have the variable of a link.

ghost use Rattle.std.specs.Prelude.{◌≡◌, ◌++◌, ℕ, map, IfOk, OnOk};
ghost use Rattle.std.proofs.Props.{props};
ghost use Rattle.snl_vm.specs.AllHomes.{HasTakers, homes_views, taken_by, takers_of};
ghost use Rattle.snl_vm.specs.Rows.{row_in, rows_of};

use crate::homes::Homes;
use crate::rows::Rows;
use std::alloc::{AllocError, Global};

/// The homes of all state sets. Which of them have the variable of a link is known without a walk over all.
#[derive(Drop)]
pub struct AllHomes {
    /// By state set.
    pub sets: Vec<Homes>,
    /// By link: the numbers of the state sets that have its variable.
    takers: Rows,
    ghost known: { HasTakers takers sets.items } by { Prim.hlevel props },
}

/// Adds a state set to the rows of the links whose variables it has. The only error is that memory ends.
fn add_set(alloc: Global, rows: &mut Rows, set: usize, homes: &Homes) -> Result<(), AllocError>
    ensures { OnOk result ((link : ℕ) → row_in (rows_of rows.new) link
        ≡ row_in (rows_of rows.old) link ++ taken_by set homes.now.places.items link) }
{
    for (link, place) in homes.places.iter().enumerate() {
        if place.is_some() {
            rows.add(alloc, link, set)?;
        }
    }
    Ok(())
}

/// The numbers of the state sets that have the variable of a link, for each link. The only error is that memory ends.
fn takers_in(alloc: Global, sets: &[Homes]) -> Result<Rows, AllocError>
    ensures { IfOk result (λ rows. HasTakers rows sets.now) }
{
    let mut rows = Rows::none(alloc);
    for (set, homes) in sets.iter().enumerate() {
        add_set(alloc, &mut rows, set, homes)?;
    }
    Ok(rows)
}

impl AllHomes {
    /// Those of some state sets, in their order. The only error is that memory ends.
    pub fn new(alloc: Global, sets: Vec<Homes>) -> Result<AllHomes, AllocError>
        ensures { IfOk result (λ all. all.sets ≡ sets) }
    {
        let takers = takers_in(alloc, sets.as_slice())?;
        Ok(AllHomes { sets, takers })
    }

    /// The numbers of the state sets that have the variable of a link, in their order.
    pub fn takers(&self, link: usize) -> &[usize]
        ensures { result.now ≡ takers_of link 0 (homes_views self.now.sets.items) }
    {
        self.takers.row(link)
    }
}
