//! What is done anywhere in a program with its variables, which go by the offsets of their declarations.

ghost use Rattle.std.specs.Prelude.{◌≡◌, ℕ, ◌||◌, false, nat_eq, OnOk};
ghost use Rattle.std.specs.List.{list_any};
ghost use Rattle.std.specs.HashSet.{contains};
ghost use Rattle.snl_names.specs.UseTables.{declared_at};
ghost use Rattle.snl_lints.specs.Facts as spec;
ghost use Rattle.snl_lints.specs.FactTables as tables;

use crate::touches::Touch;
use indexmap::IndexSet;
use snl_names::{Query, UseTable};
use snl_text::Token;
use std::alloc::{AllocError, Global};

/// What may be done with a variable.
#[derive(Clone, Copy)]
pub enum Fact {
    /// An `assign` names it, with some channel.
    Assigned,
    /// A `monitor` names it.
    Monitored,
    /// A `sync` or a `syncQ` with an event flag names it.
    Flagged,
    /// Its value is read.
    Read,
    /// It is set.
    Set,
    /// A `pvPut` puts it.
    Put,
    /// A `pvPut` with the word `ASYNC` puts it.
    PutAsync,
    /// A `pvGet` or a `pvGetQ` gets it.
    Got,
}

/// The variables with which each of these is done.
#[derive(Drop)]
pub struct VariableFacts {
    assigned: IndexSet<usize>,
    monitored: IndexSet<usize>,
    flagged: IndexSet<usize>,
    read: IndexSet<usize>,
    set: IndexSet<usize>,
    put: IndexSet<usize>,
    put_async: IndexSet<usize>,
    got: IndexSet<usize>,
}

/// The name of what a get asks of.
fn name_of_get<'a>(touch: &Touch<'a>) -> Option<Token<'a>>
    ensures { result ≡ spec.name_of_get touch.now }
{
    match touch {
        Touch::Asks(Query::PvGet | Query::PvGetQ, name) => Some(*name),
        _ => None,
    }
}

/// The name by which this is done, if it is.
pub fn name_by<'a>(fact: Fact, touch: &Touch<'a>) -> Option<Token<'a>>
    ensures { result ≡ spec.name_by fact touch.now }
{
    match (fact, touch) {
        (Fact::Assigned, Touch::Assigns(name))
        | (Fact::Monitored, Touch::Monitors(name))
        | (Fact::Flagged, Touch::Flags(name))
        | (Fact::Read, Touch::Reads(name))
        | (Fact::Set, Touch::Sets(name))
        | (Fact::Put, Touch::Puts(name, _))
        | (Fact::PutAsync, Touch::Puts(name, true)) => Some(*name),
        (Fact::Got, touch) => name_of_get(touch),
        _ => None,
    }
}

/// Notes the variable that a name means, if there is a name, and it means one.
fn note_meant(
    variables: &mut IndexSet<usize>,
    name: Option<Token>,
    uses: &UseTable,
) -> Result<(), AllocError>
    ensures { OnOk result ((v : ℕ) → contains nat_eq variables.new v
        ≡ (contains nat_eq variables.old v || spec.means (declared_at uses.now) v name.entry)) }
{
    if let Some(name) = name {
        if let Some(declared) = uses.declared(name.pos.offset as usize) {
            variables.insert(declared.offset as usize)?;
        }
    }
    Ok(())
}

/// Notes each variable with which this is done.
fn note_fact(
    variables: &mut IndexSet<usize>,
    fact: Fact,
    touches: &[Touch],
    uses: &UseTable,
) -> Result<(), AllocError>
    requires { (v : ℕ) → contains nat_eq variables.old v ≡ false }
    ensures { OnOk result ((v : ℕ) → contains nat_eq variables.new v
        ≡ list_any (spec.does (declared_at uses.now) fact v) touches.now) }
{
    for touch in touches {
        note_meant(variables, name_by(fact, touch), uses)?;
    }
    Ok(())
}

impl VariableFacts {
    /// Where nothing is known.
    pub fn new(alloc: Global) -> VariableFacts
        ensures { tables.IsBlank result }
    {
        VariableFacts {
            assigned: IndexSet::new(alloc),
            monitored: IndexSet::new(alloc),
            flagged: IndexSet::new(alloc),
            read: IndexSet::new(alloc),
            set: IndexSet::new(alloc),
            put: IndexSet::new(alloc),
            put_async: IndexSet::new(alloc),
            got: IndexSet::new(alloc),
        }
    }

    /// Notes all that is done. Fails only where memory ends.
    pub fn note_all(&mut self, touches: &[Touch], uses: &UseTable) -> Result<(), AllocError>
        requires { tables.IsBlank self.old }
        ensures { OnOk result (tables.known_in self.new
            ≡ spec.is_done (declared_at uses.now) touches.now) }
    {
        note_fact(&mut self.assigned, Fact::Assigned, touches, uses)?;
        note_fact(&mut self.monitored, Fact::Monitored, touches, uses)?;
        note_fact(&mut self.flagged, Fact::Flagged, touches, uses)?;
        note_fact(&mut self.read, Fact::Read, touches, uses)?;
        note_fact(&mut self.set, Fact::Set, touches, uses)?;
        note_fact(&mut self.put, Fact::Put, touches, uses)?;
        note_fact(&mut self.put_async, Fact::PutAsync, touches, uses)?;
        note_fact(&mut self.got, Fact::Got, touches, uses)?;
        Ok(())
    }

    /// Whether this is done with a variable.
    pub fn is_done(&self, fact: Fact, variable: usize) -> bool
        ensures { result ≡ tables.known_in self.now fact variable }
    {
        match fact {
            Fact::Assigned => self.assigned.contains(&variable),
            Fact::Monitored => self.monitored.contains(&variable),
            Fact::Flagged => self.flagged.contains(&variable),
            Fact::Read => self.read.contains(&variable),
            Fact::Set => self.set.contains(&variable),
            Fact::Put => self.put.contains(&variable),
            Fact::PutAsync => self.put_async.contains(&variable),
            Fact::Got => self.got.contains(&variable),
        }
    }
}
