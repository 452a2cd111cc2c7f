//! The sites in state sets and programs.

ghost use Rattle.std.specs.Prelude.{◌≡◌, [], ◌++◌, map, OnOk, IfOk};
ghost use Rattle.snl_syntax.specs.view.Shown.{shown, held};
ghost use Rattle.snl_syntax.specs.view.Statements.{block_view};
ghost use Rattle.snl_syntax.specs.view.Programs.{state_view, state_set_view, program_view};
ghost use Rattle.snl_resolve.specs.Seen.{sight_of, in_program};
ghost use Rattle.snl_names.specs.Chains.{scopes_of};
ghost use Rattle.snl_names.specs.Programs as spec;
ghost use Rattle.snl_names.specs.Sites.{maybe};

use crate::definition_scopes::definition_scope;
use crate::definitions::note_definitions;
use crate::functions::note_program_parts;
use crate::sights::Sight;
use crate::states::{note_plain_block, note_state};
use snl_names::{Numbered, Scopes, Site, pushed};
use snl_syntax::{Block, Program, State, StateSet};
use std::alloc::{AllocError, Global};

/// The names of states, with their numbers.
fn state_names<'a>(alloc: Global, states: &[State<'a>]) -> Result<Numbered<'a>, AllocError>
    ensures { IfOk result (λ names. names ≡ map (λ s. s.name) (map state_view states.now)) }
{
    let mut names = Vec::new(alloc);
    for state in states {
        pushed(&mut names, state.name)?;
    }
    Numbered::of(alloc, names)
}

/// The names of state sets, with their numbers.
fn set_names<'a>(alloc: Global, sets: &[StateSet<'a>]) -> Result<Numbered<'a>, AllocError>
    ensures { IfOk result (λ names. names ≡ map (λ g. g.name) (map state_set_view sets.now)) }
{
    let mut names = Vec::new(alloc);
    for set in sets {
        pushed(&mut names, set.name)?;
    }
    Numbered::of(alloc, names)
}

/// The site of a state of this number.
fn state_site<'a>(state: &State<'a>, names: &Numbered<'a>, number: usize) -> Site<'a>
    ensures { result ≡ spec.at_state names.now number (state_view state.now) }
{
    Site::State {
        word: state.word,
        name: state.name,
        is_later: names.is_later(number, state.name),
        has_clauses: !state.clauses.is_empty(),
    }
}

/// Notes a state of this number, and the sites in it.
fn note_numbered<'a>(
    alloc: Global,
    state: &State<'a>,
    outer: &Sight<'_, 'a>,
    names: &Numbered<'a>,
    number: usize,
    sites: &mut Vec<Site<'a>>,
) -> Result<(), AllocError>
    ensures { OnOk result (sites.new.items ≡ sites.old.items
        ++ spec.in_numbered (sight_of outer.now) names.now number (state_view state.now)) }
{
    pushed(sites, state_site(state, names, number))?;
    note_state(alloc, state, outer, names, sites)
}

/// Notes the states of these names, and the sites in them.
fn note_each_state<'a>(
    alloc: Global,
    states: &[State<'a>],
    outer: &Sight<'_, 'a>,
    names: &Numbered<'a>,
    sites: &mut Vec<Site<'a>>,
) -> Result<(), AllocError>
    ensures { OnOk result (sites.new.items ≡ sites.old.items
        ++ spec.in_states (sight_of outer.now) names.now 0 (map state_view states.now)) }
{
    for (number, state) in states.iter().enumerate() {
        note_numbered(alloc, state, outer, names, number, sites)?;
    }
    Ok(())
}

/// Notes the states of a state set, and the sites in them.
fn note_states<'a>(
    alloc: Global,
    states: &[State<'a>],
    outer: &Sight<'_, 'a>,
    sites: &mut Vec<Site<'a>>,
) -> Result<(), AllocError>
    ensures { OnOk result (sites.new.items ≡ sites.old.items
        ++ spec.in_all_states (sight_of outer.now) (map state_view states.now)) }
{
    let names = state_names(alloc, states)?;
    note_each_state(alloc, states, outer, &names, sites)
}

/// Notes the sites in a state set.
fn note_state_set<'a>(
    alloc: Global,
    set: &StateSet<'a>,
    outer: &Sight<'_, 'a>,
    sites: &mut Vec<Site<'a>>,
) -> Result<(), AllocError>
    ensures { OnOk result (sites.new.items ≡ sites.old.items
        ++ spec.in_state_set (sight_of outer.now) (state_set_view set.now)) }
{
    let scope = note_definitions(alloc, set.definitions.as_slice(), false, outer, sites)?;
    let states = set.states.as_slice();
    note_states(alloc, states, &outer.within(&scope), sites)
}

/// Notes a state set of this number, and the sites in it.
fn note_numbered_set<'a>(
    alloc: Global,
    set: &StateSet<'a>,
    outer: &Sight<'_, 'a>,
    names: &Numbered<'a>,
    number: usize,
    sites: &mut Vec<Site<'a>>,
) -> Result<(), AllocError>
    ensures { OnOk result (sites.new.items ≡ sites.old.items
        ++ spec.in_numbered_set (sight_of outer.now) names.now number (state_set_view set.now)) }
{
    let site = Site::StateSet {
        word: set.word,
        name: set.name,
        is_later: names.is_later(number, set.name),
    };
    pushed(sites, site)?;
    note_state_set(alloc, set, outer, sites)
}

/// Notes the state sets of these names, and the sites in them.
fn note_each_set<'a>(
    alloc: Global,
    sets: &[StateSet<'a>],
    outer: &Sight<'_, 'a>,
    names: &Numbered<'a>,
    sites: &mut Vec<Site<'a>>,
) -> Result<(), AllocError>
    ensures { OnOk result (sites.new.items ≡ sites.old.items
        ++ spec.in_state_sets (sight_of outer.now) names.now 0 (map state_set_view sets.now)) }
{
    for (number, set) in sets.iter().enumerate() {
        note_numbered_set(alloc, set, outer, names, number, sites)?;
    }
    Ok(())
}

/// Notes the state sets of a program, and the sites in them.
fn note_state_sets<'a>(
    alloc: Global,
    sets: &[StateSet<'a>],
    outer: &Sight<'_, 'a>,
    sites: &mut Vec<Site<'a>>,
) -> Result<(), AllocError>
    ensures { OnOk result (sites.new.items ≡ sites.old.items
        ++ spec.in_all_sets (sight_of outer.now) (map state_set_view sets.now)) }
{
    let names = set_names(alloc, sets)?;
    note_each_set(alloc, sets, outer, &names, sites)
}

/// Notes the sites in a block of a program, where no states can be named.
fn note_program_block<'a>(
    alloc: Global,
    block: &Option<Box<Block<'a>>>,
    sight: &Sight<'_, 'a>,
    sites: &mut Vec<Site<'a>>,
) -> Result<(), AllocError>
    ensures { OnOk result (sites.new.items ≡ sites.old.items
        ++ maybe (spec.in_plain_block (sight_of sight.now) [])
        (shown (held block_view) block.now)) }
{
    let no_states = Numbered::empty(alloc);
    note_plain_block(alloc, block, sight, &no_states, sites)
}

/// Notes the sites in the blocks and the state sets of a program, within its own scope.
fn note_parts<'a>(
    alloc: Global,
    entry: &Option<Box<Block<'a>>>,
    sets: &[StateSet<'a>],
    exit: &Option<Box<Block<'a>>>,
    sight: &Sight<'_, 'a>,
    sites: &mut Vec<Site<'a>>,
) -> Result<(), AllocError>
    ensures { OnOk result (sites.new.items ≡ sites.old.items
        ++ spec.in_parts (sight_of sight.now) (shown (held block_view) entry.now)
        (map state_set_view sets.now) (shown (held block_view) exit.now)) }
{
    note_program_block(alloc, entry, sight, sites)?;
    note_state_sets(alloc, sets, sight, sites)?;
    note_program_block(alloc, exit, sight, sites)
}

/// Notes the sites in a program behind the names of its definitions, whose scope stands innermost.
fn note_inside<'a>(
    alloc: Global,
    program: &Program<'a>,
    scopes: Scopes<'_, 'a>,
    sites: &mut Vec<Site<'a>>,
) -> Result<(), AllocError>
    ensures { OnOk result (sites.new.items ≡ sites.old.items
        ++ in_program (scopes_of scopes.entry) (program_view program.now)) }
{
    let definitions = program.definitions.as_slice();
    let functions = note_program_parts(alloc, definitions, scopes, sites)?;
    let sight = Sight {
        scopes,
        functions: &functions,
    };
    let sets = program.state_sets.as_slice();
    note_parts(alloc, &program.entry, sets, &program.exit, &sight, sites)
}

/// Notes the sites in a program.
fn note_program<'a>(
    alloc: Global,
    program: &Program<'a>,
    sites: &mut Vec<Site<'a>>,
) -> Result<(), AllocError>
    ensures { OnOk result (sites.new.items ≡ sites.old.items
        ++ spec.sites (program_view program.now)) }
{
    let outside = Scopes::Outside;
    let definitions = program.definitions.as_slice();
    let scope = definition_scope(alloc, definitions, &outside, sites)?;
    note_inside(alloc, program, Scopes::Within(&scope, &outside), sites)
}

/// The sites of a program, in the order of the source, but that the declared names stand first in
/// their scope. The only error is that memory ends.
pub fn sites_of<'a>(alloc: Global, program: &Program<'a>) -> Result<Vec<Site<'a>>, AllocError>
    ensures { IfOk result (λ sites. sites.items ≡ spec.sites (program_view program.now)) }
{
    let mut sites = Vec::new(alloc);
    note_program(alloc, program, &mut sites)?;
    Ok(sites)
}
