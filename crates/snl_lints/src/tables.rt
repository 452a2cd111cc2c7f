//! All that is known of the variables of a program.

ghost use Rattle.std.specs.Prelude.{◌≡◌, OnOk};
ghost use Rattle.snl_syntax.specs.view.Programs.{program_view};
ghost use Rattle.snl_names.specs.UseTables.{declared_at};
ghost use Rattle.snl_lints.specs.FactTables as spec;
ghost use Rattle.snl_lints.specs.Lints.{is_shared, known_by};

use crate::doers::{Doers, doers_in, note_program};
use crate::facts::{Fact, VariableFacts};
use crate::holdings::note_held_by;
use crate::touches::{Touch, ValueDomain};
use indexmap::IndexMap;
use snl_names::UseTable;
use snl_syntax::Program;
use std::alloc::{AllocError, Global};

/// What is done with variables, which state sets set and read them, and what they can hold.
#[derive(Drop)]
pub struct Tables {
    /// What is done with each.
    pub facts: VariableFacts,
    setters: IndexMap<usize, Doers>,
    readers: IndexMap<usize, Doers>,
    held: IndexMap<usize, ValueDomain>,
}

impl Tables {
    /// Where nothing is known.
    pub fn new(alloc: Global) -> Tables
        ensures { spec.AreBlank result }
    {
        Tables {
            facts: VariableFacts::new(alloc),
            setters: IndexMap::new(alloc),
            readers: IndexMap::new(alloc),
            held: IndexMap::new(alloc),
        }
    }

    /// Whether one state set sets a variable and another one reads it, and no `monitor` names it.
    pub fn is_shared(&self, variable: usize) -> bool
        ensures { result ≡ is_shared (spec.known_by_tables self.now) variable }
    {
        doers_in(&self.setters, variable).are_apart(doers_in(&self.readers, variable))
            && !self.facts.is_done(Fact::Monitored, variable)
    }

    /// What a variable can hold, if that is known.
    pub fn held(&self, variable: usize) -> Option<ValueDomain>
        ensures { result ≡ (spec.known_by_tables self.now).held variable }
    {
        self.held.get(&variable).copied()
    }
}

/// Notes all that there is to know of a program, by its touches. Fails only where memory ends.
pub fn note_all<'a>(
    alloc: Global,
    program: &Program<'a>,
    touches: &[Touch<'a>],
    uses: &UseTable,
    tables: &mut Tables,
) -> Result<(), AllocError>
    requires { spec.AreBlank tables.old }
    ensures { OnOk result (spec.known_by_tables tables.new
        ≡ known_by (declared_at uses.now) (program_view program.now) touches.now) }
{
    tables.facts.note_all(touches, uses)?;
    note_program(alloc, program, &mut tables.setters, Fact::Set, uses)?;
    note_program(alloc, program, &mut tables.readers, Fact::Read, uses)?;
    note_held_by(&mut tables.held, touches)?;
    Ok(())
}
