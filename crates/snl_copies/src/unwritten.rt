//! What clauses read of copies that are never written.

ghost use Rattle.std.specs.Prelude.{◌≡◌, ◌++◌, ◌↔◌, map, slice_get, Contains, OnOk, IfOk};
ghost use Rattle.std.specs.List.{flat_map, list_any};
ghost use Rattle.snl_syntax.specs.view.Definitions.{definition_view};
ghost use Rattle.snl_syntax.specs.view.Programs.{clause_view, state_view, state_set_view, program_view};
ghost use Rattle.snl_names.specs.UseTables.{IsTableOf};
ghost use Rattle.snl_copies.specs.declared.touches.Touch.{Touch};
ghost use Rattle.snl_copies.specs.declared.unwritten.Unwritten.{Unwritten};
ghost use Rattle.snl_copies.specs.Copies.{ReadsUnwritten};
ghost use Rattle.snl_copies.specs.Tests as spec;

use crate::calling::push_all_called;
use crate::copies::SetCopy;
use crate::parts::push_clause;
use crate::touches::Touch;
use snl_names::UseTable;
use snl_syntax::{Clause, Def, Program, State, StateSet};
use snl_text::{Pos, Token};
use std::alloc::{AllocError, Global};

/// A name by which a variable is read, of which the copy is never written.
#[derive(Clone, Copy)]
pub struct Unwritten<'a> {
    /// The name where it is read.
    pub name: Token<'a>,
    /// Where the variable is declared.
    pub declared: Pos,
}

/// Where clauses are looked at that lead to a state.
#[derive(Clone, Copy)]
struct Way<'w, 'a> {
    /// The name of the state.
    state: &'w [u8],
    /// What the names of the program mean.
    uses: &'w UseTable,
    /// The copy of the state set.
    copy: &'w SetCopy<'a>,
}

/// Adds a name by which a variable is read, where the copy is never written.
fn push_read<'a>(
    name: &Token<'a>,
    way: &Way<'_, 'a>,
    found: &mut Vec<Unwritten<'a>>,
) -> Result<(), AllocError>
    ensures { OnOk result (found.new.items ≡ found.old.items
        ++ spec.unwritten_at way.now.uses.now way.now.copy.now (Touch.Reads name.now)) }
{
    if let Some(declared) = way.uses.declared(name.pos.offset as usize) {
        if !way.copy.is_written(way.uses, declared.offset as usize) {
            let name = *name;
            found.push(Unwritten { name, declared })?;
        }
    }
    Ok(())
}

/// The same of what code does by a name.
fn push_touch<'a>(
    touch: &Touch<'a>,
    way: &Way<'_, 'a>,
    found: &mut Vec<Unwritten<'a>>,
) -> Result<(), AllocError>
    ensures { OnOk result (found.new.items ≡ found.old.items
        ++ spec.unwritten_at way.now.uses.now way.now.copy.now touch.now) }
{
    match touch {
        Touch::Reads(name) => push_read(name, way, found),
        _ => Ok(()),
    }
}

/// The same of all that code does.
fn push_code<'a>(
    code: &[Touch<'a>],
    way: &Way<'_, 'a>,
    found: &mut Vec<Unwritten<'a>>,
) -> Result<(), AllocError>
    ensures { OnOk result (found.new.items ≡ found.old.items
        ++ spec.unwritten_in way.now.uses.now way.now.copy.now code.now) }
{
    for touch in code {
        push_touch(touch, way, found)?;
    }
    Ok(())
}

/// Whether this leads to a state.
fn leads(touch: &Touch, state: &[u8]) -> bool
    ensures { result ≡ spec.leads state.now touch.now }
{
    match touch {
        Touch::Leads(name) => state == name.text,
        _ => false,
    }
}

/// Whether code leads to a state.
fn has_lead(code: &[Touch], state: &[u8]) -> bool
    ensures { result ≡ list_any (spec.leads state.now) code.now }
{
    for touch in code {
        if leads(touch, state) {
            return true;
        }
    }
    false
}

/// Adds what a clause reads of the copy that is never written, if it leads to the state.
fn push_clause_to<'a>(
    alloc: Global,
    clause: &Clause<'a>,
    definitions: &[Def<'a>],
    way: &Way<'_, 'a>,
    found: &mut Vec<Unwritten<'a>>,
) -> Result<(), AllocError>
    ensures { OnOk result (found.new.items ≡ found.old.items
        ++ spec.in_clause_to (map definition_view definitions.now) way.now.state.now
        way.now.uses.now way.now.copy.now (clause_view clause.now)) }
{
    let mut code = Vec::new(alloc);
    push_clause(clause, &mut code)?;
    if has_lead(code.as_slice(), way.state) {
        push_all_called(definitions, &mut code)?;
        push_code(code.as_slice(), way, found)?;
    }
    Ok(())
}

/// The same of clauses.
fn push_clauses_to<'a>(
    alloc: Global,
    clauses: &[Clause<'a>],
    definitions: &[Def<'a>],
    way: &Way<'_, 'a>,
    found: &mut Vec<Unwritten<'a>>,
) -> Result<(), AllocError>
    ensures { OnOk result (found.new.items ≡ found.old.items
        ++ flat_map (spec.in_clause_to (map definition_view definitions.now)
        way.now.state.now way.now.uses.now way.now.copy.now) (map clause_view clauses.now)) }
{
    for clause in clauses {
        push_clause_to(alloc, clause, definitions, way, found)?;
    }
    Ok(())
}

/// The same of a state.
fn push_state_to<'a>(
    alloc: Global,
    state: &State<'a>,
    definitions: &[Def<'a>],
    way: &Way<'_, 'a>,
    found: &mut Vec<Unwritten<'a>>,
) -> Result<(), AllocError>
    ensures { OnOk result (found.new.items ≡ found.old.items
        ++ spec.in_state_to (map definition_view definitions.now) way.now.state.now
        way.now.uses.now way.now.copy.now (state_view state.now)) }
{
    push_clauses_to(alloc, state.clauses.as_slice(), definitions, way, found)
}

/// The same of states.
fn push_states_to<'a>(
    alloc: Global,
    states: &[State<'a>],
    definitions: &[Def<'a>],
    way: &Way<'_, 'a>,
    found: &mut Vec<Unwritten<'a>>,
) -> Result<(), AllocError>
    ensures { OnOk result (found.new.items ≡ found.old.items
        ++ flat_map (spec.in_state_to (map definition_view definitions.now)
        way.now.state.now way.now.uses.now way.now.copy.now) (map state_view states.now)) }
{
    for state in states {
        push_state_to(alloc, state, definitions, way, found)?;
    }
    Ok(())
}

/// The same of the state set of a number, if there is one.
fn push_set_to<'a>(
    alloc: Global,
    sets: &[StateSet<'a>],
    set: usize,
    definitions: &[Def<'a>],
    way: &Way<'_, 'a>,
    found: &mut Vec<Unwritten<'a>>,
) -> Result<(), AllocError>
    ensures { OnOk result (found.new.items ≡ found.old.items
        ++ spec.in_set_to (map definition_view definitions.now) way.now.state.now
        way.now.uses.now way.now.copy.now (slice_get (map state_set_view sets.now) set)) }
{
    if sets.len() <= set {
        return Ok(());
    }
    push_states_to(alloc, sets[set].states.as_slice(), definitions, way, found)
}

/// What clauses that lead to a state read of the state set's copy that is never written, by what is known of the copy.
fn unwritten_by<'a>(
    alloc: Global,
    program: &Program<'a>,
    uses: &UseTable,
    set: usize,
    state: &[u8],
    copy: &SetCopy<'a>,
) -> Result<Vec<Unwritten<'a>>, AllocError>
    ensures { IfOk result (λ found. found.items ≡ spec.in_set_to
        (map definition_view program.now.definitions.items) state.now uses.now copy.now
        (slice_get (map state_set_view program.now.state_sets.items) set)) }
{
    let way = Way { state, uses, copy };
    let sets = program.state_sets.as_slice();
    let definitions = program.definitions.as_slice();
    let mut found = Vec::new(alloc);
    push_set_to(alloc, sets, set, definitions, &way, &mut found)?;
    Ok(found)
}

/// The names by which clauses that lead to a state, with the functions that they call, read variables of which the state set's copy is
/// never written. The state set goes by its number, from 0 on, the state by its name; `uses` is the table of the program's names. A
/// variable that is read by several names stands there as often. The only error is that memory ends.
pub fn unwritten_into<'a>(
    alloc: Global,
    program: &Program<'a>,
    uses: &UseTable,
    set: usize,
    state: &[u8],
) -> Result<Vec<Unwritten<'a>>, AllocError>
    requires { IsTableOf uses.now (program_view program.now) }
    ensures { IfOk result (λ found. (u : Unwritten) → Contains found.items u
        ↔ ReadsUnwritten (program_view program.now) set state.now u.name u.declared) }
{
    let copy = SetCopy::of(alloc, program, set)?;
    let found = unwritten_by(alloc, program, uses, set, state, &copy)?;
    Ok(found)
}
