//! Whether each `delay` in the states and functions of a program is short.

ghost use Rattle.std.specs.Prelude.{◌≡◌, ℕ, [], ◌∷◌, map, IsTrue, Some};
ghost use Rattle.std.specs.List.{flat_map};
ghost use Rattle.snl_alike.specs.Delays as spec;
ghost use Rattle.snl_alike.specs.Delays.{AreShort, DelaysInBlockMaybe, DelaysInBodies, DelaysInClauses, DelaysInSets, DelaysInState, DelaysInStates, IsShort};
ghost use Rattle.snl_alike.specs.Timing.{longests_in};
ghost use Rattle.snl_flat.specs.Heres.{routine_of};
ghost use Rattle.snl_names.specs.Variables.{function_by};
ghost use Rattle.snl_syntax.specs.Programs.{ProgramTree};
ghost use Rattle.snl_syntax.specs.view.Definitions.{definition_view};
ghost use Rattle.snl_syntax.specs.view.Shown.{shown, held};
ghost use Rattle.snl_syntax.specs.view.Statements.{block_view};
ghost use Rattle.snl_syntax.specs.view.Programs.{clause_view, state_view, state_set_view, program_view};

use crate::blocks::{are_short_block, are_short_maybe_block};
use crate::expressions::are_short_maybe;
use snl_alike::SetTiming;
use snl_syntax::{Block, Clause, Def, Program, State, StateSet};

/// Whether each `delay` in a clause is short.
fn is_short_clause<'a>(longest: u32, clause: &Clause<'a>) -> bool
    ensures { IsTrue result →
        DelaysInClauses (IsShort (Some longest)) (clause_view clause.now ∷ []) }
{
    are_short_maybe(longest, &clause.condition) && are_short_block(longest, &clause.block)
}

/// The same in clauses.
fn are_short_clauses<'a>(longest: u32, clauses: &[Clause<'a>]) -> bool
    ensures { IsTrue result →
        DelaysInClauses (IsShort (Some longest)) (map clause_view clauses.now) }
{
    for clause in clauses {
        if !is_short_clause(longest, clause) {
            return false;
        }
    }
    true
}

/// The same in a state.
fn is_short_state<'a>(longest: u32, state: &State<'a>) -> bool
    ensures { IsTrue result → DelaysInState (IsShort (Some longest)) (state_view state.now) }
{
    are_short_maybe_block(longest, &state.entry)
        && are_short_clauses(longest, state.clauses.as_slice())
        && are_short_maybe_block(longest, &state.exit)
}

/// The same in the body of a definition, if it is a function.
fn is_short_body<'a>(longest: u32, definition: &Def<'a>) -> bool
    ensures { IsTrue result → (p : ProgramTree) → DelaysInBodies (IsShort (Some longest))
        (map (routine_of p) (function_by (definition_view definition.now))) }
{
    match definition {
        Def::Function(function) => are_short_block(longest, &function.body),
        _ => true,
    }
}

/// The same in the bodies of functions.
fn are_short_bodies<'a>(longest: u32, definitions: &[Def<'a>]) -> bool
    ensures { IsTrue result → (p : ProgramTree) → DelaysInBodies (IsShort (Some longest))
        (map (routine_of p) (flat_map function_by (map definition_view definitions.now))) }
{
    for definition in definitions {
        if !is_short_body(longest, definition) {
            return false;
        }
    }
    true
}

/// Whether each `delay` in the bodies of functions is short by a longest one, where one is known.
fn are_short_bodies_by<'a>(definitions: &[Def<'a>], longest: Option<u32>) -> bool
    ensures { IsTrue result → (p : ProgramTree) → DelaysInBodies (IsShort longest)
        (map (routine_of p) (flat_map function_by (map definition_view definitions.now))) }
{
    match longest {
        Some(longest) => are_short_bodies(longest, definitions),
        None => true,
    }
}

/// The same by that of each state of a state set.
fn are_short_bodies_in<'a>(definitions: &[Def<'a>], longests: &[Option<u32>]) -> bool
    ensures { IsTrue result → (p : ProgramTree) (state : ℕ) →
        DelaysInBodies (IsShort (spec.longest_in longests.now state))
        (map (routine_of p) (flat_map function_by (map definition_view definitions.now))) }
{
    for longest in longests {
        if !are_short_bodies_by(definitions, *longest) {
            return false;
        }
    }
    true
}

/// The same by those of each state set of a table.
fn are_short_bodies_for<'a>(definitions: &[Def<'a>], table: &[SetTiming]) -> bool
    ensures { IsTrue result → (p : ProgramTree) (set state : ℕ) → DelaysInBodies
        (IsShort (spec.longest_in (spec.longests_of (longests_in table.now) set) state))
        (map (routine_of p) (flat_map function_by (map definition_view definitions.now))) }
{
    for timing in table {
        if !are_short_bodies_in(definitions, timing.longests.as_slice()) {
            return false;
        }
    }
    true
}

/// Whether each `delay` in a state is short by its longest one, where one is known.
fn is_short_state_by<'a>(longest: Option<u32>, state: &State<'a>) -> bool
    ensures { IsTrue result → DelaysInState (IsShort longest) (state_view state.now) }
{
    match longest {
        Some(longest) => is_short_state(longest, state),
        None => true,
    }
}

/// The same of a block that may be missing.
fn is_short_block_by<'a>(longest: Option<u32>, block: &Option<Box<Block<'a>>>) -> bool
    ensures { IsTrue result → DelaysInBlockMaybe (IsShort longest)
        (shown (held block_view) block.now) }
{
    match longest {
        Some(longest) => are_short_maybe_block(longest, block),
        None => true,
    }
}

/// The same by that of each state of a state set.
fn is_short_block_in<'a>(longests: &[Option<u32>], block: &Option<Box<Block<'a>>>) -> bool
    ensures { IsTrue result → (state : ℕ) →
        DelaysInBlockMaybe (IsShort (spec.longest_in longests.now state))
        (shown (held block_view) block.now) }
{
    for longest in longests {
        if !is_short_block_by(*longest, block) {
            return false;
        }
    }
    true
}

/// The longest delay of a state, by its number; None where nothing is said of it.
fn longest_in(longests: &[Option<u32>], state: usize) -> Option<u32>
    ensures { result ≡ spec.longest_in longests.now state }
{
    match longests.get(state) {
        Some(longest) => *longest,
        None => None,
    }
}

/// Whether each `delay` in states is short by the longest ones of these states.
fn are_short_states<'a>(longests: &[Option<u32>], states: &[State<'a>]) -> bool
    ensures { IsTrue result → DelaysInStates
        (λ state. IsShort (spec.longest_in longests.now state)) 0 (map state_view states.now) }
{
    for (number, state) in states.iter().enumerate() {
        let longest = longest_in(longests, number);
        if !is_short_state_by(longest, state) {
            return false;
        }
    }
    true
}

/// What a table says of the longest delays of a state set; nothing where it does not speak of it.
fn longests_of(table: &[SetTiming], number: usize) -> &[Option<u32>]
    ensures { result.now ≡ spec.longests_of (longests_in table.now) number }
{
    match table.get(number) {
        Some(set) => set.longests.as_slice(),
        None => &[],
    }
}

/// Whether each `delay` in the states of state sets is short by a table.
fn are_short_sets<'a>(sets: &[StateSet<'a>], table: &[SetTiming]) -> bool
    ensures { IsTrue result → DelaysInSets (λ set state. IsShort
        (spec.longest_in (spec.longests_of (longests_in table.now) set) state)) 0
        (map state_set_view sets.now) }
{
    for (number, set) in sets.iter().enumerate() {
        let longests = longests_of(table, number);
        if !are_short_states(longests, set.states.as_slice()) {
            return false;
        }
    }
    true
}

/// Whether no `delay` of a program is longer than a table says of the state in which a state set is that may come to it.
pub fn are_short<'a>(program: &Program<'a>, table: &[SetTiming]) -> bool
    ensures { IsTrue result → AreShort (longests_in table.now) (program_view program.now) }
{
    if !are_short_bodies_for(program.definitions.as_slice(), table) {
        return false;
    }
    let first = longests_of(table, 0);
    if !is_short_block_in(first, &program.entry) {
        return false;
    }
    if !are_short_sets(program.state_sets.as_slice(), table) {
        return false;
    }
    is_short_block_in(first, &program.exit)
}

/// Whether a number is less than one that is known, if one is.
fn is_less(ms: u32, known: Option<u32>) -> bool {
    match known {
        Some(known) => ms < known,
        None => true,
    }
}

/// The least of some numbers of milliseconds that no `delay` in functions is longer than; None where there is none.
pub fn longest_in_functions<'a>(definitions: &[Def<'a>], tried: &[u32]) -> Option<u32> {
    let mut longest: Option<u32> = None;
    for ms in tried {
        if is_less(*ms, longest) && are_short_bodies(*ms, definitions) {
            longest = Some(*ms);
        }
    }
    longest
}

/// The same of a state.
pub fn longest_in_state<'a>(state: &State<'a>, tried: &[u32]) -> Option<u32> {
    let mut longest: Option<u32> = None;
    for ms in tried {
        if is_less(*ms, longest) && is_short_state(*ms, state) {
            longest = Some(*ms);
        }
    }
    longest
}

/// The same of a block that may be missing.
pub fn longest_in_block<'a>(block: &Option<Box<Block<'a>>>, tried: &[u32]) -> Option<u32> {
    let mut longest: Option<u32> = None;
    for ms in tried {
        if is_less(*ms, longest) && are_short_maybe_block(*ms, block) {
            longest = Some(*ms);
        }
    }
    longest
}
