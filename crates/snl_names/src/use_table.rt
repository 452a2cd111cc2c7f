//! The table of what the names of a program mean, by their places.

ghost use Rattle.std.specs.Prelude.{◌≡◌, ℕ, Option, OnOk, IfOk};
ghost use Rattle.snl_text.specs.declared.tokens.Pos.{Pos};
ghost use Rattle.snl_names.specs.Uses as spec;
ghost use Rattle.snl_names.specs.UseTables.{IsUseTable, declared_at, place_in};

use crate::sites::Site;
use crate::uses::{declared_pos, use_at};
use indexmap::IndexMap;
use snl_text::Pos;
use std::alloc::{AllocError, Global};

/// The places of the declarations that the names of a program mean. It finds one as fast in a long
/// program as in a short one.
#[derive(Drop)]
pub struct UseTable {
    /// By the offsets of the names; None for a predefined name and for one that is not declared.
    places: IndexMap<usize, Option<Pos>>,
}

/// Notes what the name means that a site uses; of two names at one offset the first.
fn note_meant(site: &Site, places: &mut IndexMap<usize, Option<Pos>>) -> Result<(), AllocError>
    ensures { OnOk result ((q : ℕ) (later : Option Pos) → place_in places.new q later
        ≡ place_in places.old q (spec.declared_by q (spec.use_at site.now) later)) }
{
    if let Some((name, meaning)) = use_at(site) {
        if !places.contains_key(&(name.pos.offset as usize)) {
            places.insert(name.pos.offset as usize, declared_pos(meaning))?;
        }
    }
    Ok(())
}

impl UseTable {
    /// What the names mean that these sites use. The only error is that memory ends.
    pub fn of(alloc: Global, sites: &[Site]) -> Result<UseTable, AllocError>
        ensures { IfOk result (λ table. IsUseTable table sites.now) }
    {
        let mut places = IndexMap::new(alloc);
        for site in sites {
            note_meant(site, &mut places)?;
        }
        Ok(UseTable { places })
    }

    /// Where the variable or the event flag is declared that the name at an offset means, in bytes.
    ///
    /// None where no name is used at the offset, and where it is a predefined one or one that is not
    /// declared.
    pub fn declared(&self, offset: usize) -> Option<Pos>
        ensures { result ≡ declared_at self.now offset }
    {
        match self.places.get(&offset) {
            Some(place) => *place,
            None => None,
        }
    }
}
