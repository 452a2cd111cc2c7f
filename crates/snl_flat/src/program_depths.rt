//! How many operands a program holds at once.

ghost use Rattle.std.specs.Prelude.{◌≡◌, map};
ghost use Rattle.snl_syntax.specs.view.Definitions.{definition_view};
ghost use Rattle.snl_syntax.specs.view.Programs.{clause_view, state_view, state_set_view, program_view};
ghost use Rattle.snl_syntax.specs.view.Shown.{shown, held};
ghost use Rattle.snl_syntax.specs.view.Statements.{block_view};
ghost use Rattle.snl_emit.specs.Depths as blocks;
ghost use Rattle.snl_meaning.specs.Known.{outlines};
ghost use Rattle.snl_flat.specs.Depths as spec;

use crate::block_depths::{block_depth, names_depth};
use crate::depths::{larger, maybe_depth};
use snl_meaning::Outline;
use snl_syntax::{Block, Clause, Def, Program, State, StateSet};

/// Of a definition.
fn definition_depth(definition: &Def, functions: &[Outline]) -> usize
    ensures { result
        ≡ spec.capped (spec.definition_depth (outlines functions.now)
        (definition_view definition.now)) }
{
    match definition {
        Def::Declaration(declaration) => names_depth(declaration.names.as_slice(), functions),
        Def::Assign(assign) => maybe_depth(&assign.place.subscript, functions),
        Def::Monitor(place) => maybe_depth(&place.subscript, functions),
        Def::Sync(sync) => maybe_depth(&sync.place.subscript, functions),
        Def::SyncQueue(queue) => maybe_depth(&queue.place.subscript, functions),
        Def::Function(function) => block_depth(&function.body, functions),
        Def::EventFlags(_) | Def::Setting(_) => 0,
    }
}

/// Of definitions.
fn definitions_depth(definitions: &[Def], functions: &[Outline]) -> usize
    ensures { result ≡ spec.capped (spec.greatest (spec.definition_depth (outlines functions.now))
        (map definition_view definitions.now)) }
{
    let mut depth = 0;
    for definition in definitions {
        depth = larger(depth, definition_depth(definition, functions));
    }
    depth
}

/// Of a block that may be missing.
fn own_depth(block: &Option<Box<Block>>, functions: &[Outline]) -> usize
    ensures { result
        ≡ spec.capped (spec.depth_if_there (blocks.block_depth (outlines functions.now))
        (shown (held block_view) block.now)) }
{
    match block {
        Some(block) => block_depth(block, functions),
        None => 0,
    }
}

/// Of a clause.
fn clause_depth(clause: &Clause, functions: &[Outline]) -> usize
    ensures { result
        ≡ spec.capped (spec.clause_depth (outlines functions.now) (clause_view clause.now)) }
{
    larger(
        maybe_depth(&clause.condition, functions),
        block_depth(&clause.block, functions),
    )
}

/// Of clauses.
fn clauses_depth(clauses: &[Clause], functions: &[Outline]) -> usize
    ensures { result ≡ spec.capped (spec.greatest (spec.clause_depth (outlines functions.now))
        (map clause_view clauses.now)) }
{
    let mut depth = 0;
    for clause in clauses {
        depth = larger(depth, clause_depth(clause, functions));
    }
    depth
}

/// Of the entry block and the exit block of a state.
fn own_blocks_depth(state: &State, functions: &[Outline]) -> usize
    ensures { result
        ≡ spec.capped (spec.own_blocks_depth (outlines functions.now) (state_view state.now)) }
{
    larger(
        own_depth(&state.entry, functions),
        own_depth(&state.exit, functions),
    )
}

/// Of a state.
fn state_depth(state: &State, functions: &[Outline]) -> usize
    ensures { result
        ≡ spec.capped (spec.state_depth (outlines functions.now) (state_view state.now)) }
{
    let definitions = definitions_depth(state.definitions.as_slice(), functions);
    let clauses = clauses_depth(state.clauses.as_slice(), functions);
    larger(
        larger(definitions, clauses),
        own_blocks_depth(state, functions),
    )
}

/// Of states.
fn states_depth(states: &[State], functions: &[Outline]) -> usize
    ensures { result
        ≡ spec.capped (spec.greatest (spec.state_depth (outlines functions.now))
        (map state_view states.now)) }
{
    let mut depth = 0;
    for state in states {
        depth = larger(depth, state_depth(state, functions));
    }
    depth
}

/// Of a state set.
fn set_depth(set: &StateSet, functions: &[Outline]) -> usize
    ensures { result
        ≡ spec.capped (spec.set_depth (outlines functions.now) (state_set_view set.now)) }
{
    let definitions = definitions_depth(set.definitions.as_slice(), functions);
    larger(definitions, states_depth(set.states.as_slice(), functions))
}

/// Of state sets.
fn sets_depth(sets: &[StateSet], functions: &[Outline]) -> usize
    ensures { result
        ≡ spec.capped (spec.greatest (spec.set_depth (outlines functions.now))
        (map state_set_view sets.now)) }
{
    let mut depth = 0;
    for set in sets {
        depth = larger(depth, set_depth(set, functions));
    }
    depth
}

/// The greatest number of operands that an expression of the program holds at once, where these functions may be called. It
/// stays at 2^64 - 1 where it would be more.
pub fn program_depth(program: &Program, functions: &[Outline]) -> usize
    ensures { result
        ≡ spec.capped (spec.depth_with (outlines functions.now) (program_view program.now)) }
{
    let definitions = definitions_depth(program.definitions.as_slice(), functions);
    let sets = sets_depth(program.state_sets.as_slice(), functions);
    let own = larger(
        own_depth(&program.entry, functions),
        own_depth(&program.exit, functions),
    );
    larger(larger(definitions, sets), own)
}
