//! The variables that may be named at a place, found by their declarations.

ghost use Rattle.std.specs.Prelude.{◌≡◌, ◌++◌, map, IfOk};
ghost use Rattle.snl_names.specs.CopyVariables.{variable_view};
ghost use Rattle.snl_meaning.specs.Names as spec;

use crate::instrs::Variable;
use crate::names::{Placed, push_places};
use crate::offsets::Offsets;
use snl_names::CopyVariable;
use std::alloc::{AllocError, Global};
use std::marker::Model;

/// The variables of a copy, or those that functions may name, each by its declaration. It finds one as fast among many as
/// among few.
#[derive(Drop)]
pub struct Places {
    /// In the order of their words.
    all: Vec<Placed>,
    /// Where they are declared.
    declared: Offsets,
}

impl Model for Places {
    ghost use Rattle.std.specs.Prelude.{◌≡◌, List, map};
    ghost use Rattle.snl_meaning.specs.declared.names.Placed.{Placed};

    ghost Value = { List Placed };

    ghost view = { λ s. s.all.items };

    ghost invariant = { λ s. s.declared ≡ map (λ v. v.offset) s.all.items };
}

/// Where variables are declared.
fn offsets_of(alloc: Global, all: &[Placed]) -> Result<Vec<usize>, AllocError>
    ensures { IfOk result (λ offsets. offsets.items ≡ map (λ v. v.offset) all.now) }
{
    let mut offsets = Vec::new(alloc);
    for placed in all {
        offsets.push(placed.offset)?;
    }
    Ok(offsets)
}

/// The same, each found by its number.
fn declared_of(alloc: Global, all: &[Placed]) -> Result<Offsets, AllocError>
    ensures { IfOk result (λ declared. declared ≡ map (λ v. v.offset) all.now) }
{
    let offsets = offsets_of(alloc, all)?;
    Offsets::of(alloc, offsets)
}

impl Places {
    /// The variables of a copy; their words stand one after another. The only error is that memory ends.
    pub fn of<'p, 'a>(
        alloc: Global,
        variables: &'p [CopyVariable<'p, 'a>],
    ) -> Result<Places, AllocError>
        ensures { IfOk result (λ places. places
            ≡ spec.placed_from 0 (map variable_view variables.now)) }
    {
        let mut all = Vec::new(alloc);
        push_places(variables, false, &mut all)?;
        let declared = declared_of(alloc, all.as_slice())?;
        Ok(Places { all, declared })
    }

    /// The variables that the functions of a program may name: those that stand first in each copy, and those of functions. The
    /// only error is that memory ends.
    pub fn of_functions<'p, 'a>(
        alloc: Global,
        own: &'p [CopyVariable<'p, 'a>],
        shared: &'p [CopyVariable<'p, 'a>],
    ) -> Result<Places, AllocError>
        ensures { IfOk result (λ places. places ≡ spec.placed_from 0 (map variable_view own.now)
            ++ spec.placed_shared 0 (map variable_view shared.now)) }
    {
        let mut all = Vec::new(alloc);
        push_places(own, false, &mut all)?;
        push_places(shared, true, &mut all)?;
        let declared = declared_of(alloc, all.as_slice())?;
        Ok(Places { all, declared })
    }

    /// The variable that is declared at an offset, in bytes.
    pub fn variable(&self, offset: usize) -> Option<Variable>
        ensures { result ≡ spec.variable_in self.now offset }
    {
        let number = self.declared.number(offset);
        if number < self.all.len() {
            Some(self.all[number].variable)
        } else {
            None
        }
    }
}
