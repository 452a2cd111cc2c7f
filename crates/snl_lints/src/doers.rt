//! Which state sets do something with a variable.

ghost use Rattle.std.specs.Prelude.{◌≡◌, ℕ, None, map, nat_eq, OnOk};
ghost use Rattle.std.specs.HashMap.{get};
ghost use Rattle.snl_syntax.specs.view.Programs.{state_set_view, program_view};
ghost use Rattle.snl_syntax.specs.view.Shown.{shown, held};
ghost use Rattle.snl_syntax.specs.view.Statements.{block_view};
ghost use Rattle.snl_names.specs.UseTables.{declared_at};
ghost use Rattle.snl_lints.specs.Facts.{does};
ghost use Rattle.snl_lints.specs.Touches.{if_there, in_block, in_state_set};
ghost use Rattle.snl_lints.specs.Doers as spec;

use crate::facts::{Fact, name_by};
use crate::parts::push_state_set;
use crate::statements::push_maybe_block;
use crate::touches::Touch;
use indexmap::IndexMap;
use snl_names::UseTable;
use snl_syntax::{Block, Program, StateSet};
use std::alloc::{AllocError, Global};

/// The state sets that do something with a variable, by their numbers from 0 on.
#[derive(Clone, Copy)]
pub enum Doers {
    /// None does it.
    Nobody,
    /// This one alone.
    One(usize),
    /// Two or more.
    Several,
}

impl Doers {
    /// With one that does it too.
    fn and_also(self, set: usize) -> Doers
        ensures { result ≡ spec.and_also self set }
    {
        match self {
            Doers::Nobody => Doers::One(set),
            Doers::One(first) if first == set => Doers::One(first),
            _ => Doers::Several,
        }
    }

    /// Whether some state set is among these, and another one among the others.
    pub fn are_apart(self, others: Doers) -> bool
        ensures { result ≡ spec.are_apart self others }
    {
        match (self, others) {
            (Doers::Nobody, _) | (_, Doers::Nobody) => false,
            (Doers::One(first), Doers::One(second)) => first != second,
            _ => true,
        }
    }
}

/// What a table has of a variable.
pub fn doers_in(table: &IndexMap<usize, Doers>, variable: usize) -> Doers
    ensures { result ≡ spec.doers_in table.now variable }
{
    match table.get(&variable) {
        Some(doers) => *doers,
        None => Doers::Nobody,
    }
}

/// Notes that a state set does this with the variable of a touch, if it does.
fn note_doer(
    table: &mut IndexMap<usize, Doers>,
    fact: Fact,
    set: usize,
    touch: &Touch,
    uses: &UseTable,
) -> Result<(), AllocError>
    ensures { OnOk result ((v : ℕ) → spec.doers_in table.new v
        ≡ spec.and_if (does (declared_at uses.now) fact v touch.now)
        (spec.doers_in table.old v) set) }
{
    if let Some(name) = name_by(fact, touch) {
        if let Some(declared) = uses.declared(name.pos.offset as usize) {
            let doers = doers_in(table, declared.offset as usize).and_also(set);
            table.insert(declared.offset as usize, doers)?;
        }
    }
    Ok(())
}

/// Notes the same of touches. Fails only where memory ends.
fn note_doers(
    table: &mut IndexMap<usize, Doers>,
    fact: Fact,
    set: usize,
    touches: &[Touch],
    uses: &UseTable,
) -> Result<(), AllocError>
    ensures { OnOk result ((v : ℕ) → spec.doers_in table.new v
        ≡ spec.doers_after (declared_at uses.now) fact v set (spec.doers_in table.old v)
        touches.now) }
{
    for touch in touches {
        note_doer(table, fact, set, touch, uses)?;
    }
    Ok(())
}

/// Notes the same of a block of the program, which is done by the first state set.
fn note_block(
    alloc: Global,
    block: &Option<Box<Block>>,
    table: &mut IndexMap<usize, Doers>,
    fact: Fact,
    uses: &UseTable,
) -> Result<(), AllocError>
    ensures { OnOk result ((v : ℕ) → spec.doers_in table.new v
        ≡ spec.doers_after (declared_at uses.now) fact v 0 (spec.doers_in table.old v)
        (if_there (in_block (declared_at uses.now)) (shown (held block_view) block.now))) }
{
    let mut touches = Vec::new(alloc);
    push_maybe_block(block, uses, &mut touches)?;
    note_doers(table, fact, 0, touches.as_slice(), uses)
}

/// Notes the same of a state set.
fn note_set(
    alloc: Global,
    set: &StateSet,
    number: usize,
    table: &mut IndexMap<usize, Doers>,
    fact: Fact,
    uses: &UseTable,
) -> Result<(), AllocError>
    ensures { OnOk result ((v : ℕ) → spec.doers_in table.new v
        ≡ spec.doers_after (declared_at uses.now) fact v number (spec.doers_in table.old v)
        (in_state_set (declared_at uses.now) (state_set_view set.now))) }
{
    let mut touches = Vec::new(alloc);
    push_state_set(set, uses, &mut touches)?;
    note_doers(table, fact, number, touches.as_slice(), uses)
}

/// Notes the same of state sets.
fn note_sets(
    alloc: Global,
    sets: &[StateSet],
    table: &mut IndexMap<usize, Doers>,
    fact: Fact,
    uses: &UseTable,
) -> Result<(), AllocError>
    ensures { OnOk result ((v : ℕ) → spec.doers_in table.new v
        ≡ spec.doers_from (declared_at uses.now) fact v 0 (spec.doers_in table.old v)
        (map state_set_view sets.now)) }
{
    for (number, set) in sets.iter().enumerate() {
        note_set(alloc, set, number, table, fact, uses)?;
    }
    Ok(())
}

/// Notes which state sets of a program do this with each variable. Fails only where memory ends.
pub fn note_program(
    alloc: Global,
    program: &Program,
    table: &mut IndexMap<usize, Doers>,
    fact: Fact,
    uses: &UseTable,
) -> Result<(), AllocError>
    requires { (v : ℕ) → get nat_eq table.old v ≡ None }
    ensures { OnOk result ((v : ℕ) → spec.doers_in table.new v
        ≡ spec.doers_of (declared_at uses.now) (program_view program.now) fact v) }
{
    note_block(alloc, &program.entry, table, fact, uses)?;
    note_block(alloc, &program.exit, table, fact, uses)?;
    note_sets(alloc, program.state_sets.as_slice(), table, fact, uses)
}
