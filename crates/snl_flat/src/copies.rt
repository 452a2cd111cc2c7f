//! The variables of the copies of state sets, and those of functions, with the places of their words.

ghost use Rattle.std.specs.Prelude.{◌≡◌, [], map, IfOk};
ghost use Rattle.snl_syntax.specs.view.Programs.{program_view};
ghost use Rattle.snl_names.specs.Chains.{scopes_of};
ghost use Rattle.snl_names.specs.CopyVariables.{variable_view};
ghost use Rattle.snl_names.specs.Programs.{program_scopes};
ghost use Rattle.snl_names.specs.Variables.{by_definitions, shared_variables, variables_of};
ghost use Rattle.snl_meaning.specs.Names.{placed_from};
ghost use Rattle.snl_flat.specs.Copies.{held_sets, sets_of, variables_in};
ghost use Rattle.snl_flat.specs.Heres as heres;

use snl_meaning::Places;
use snl_resolve::{CopyVariable, Scopes, push_definitions, push_functions, push_parts};
use snl_syntax::Program;
use std::alloc::{AllocError, Global};

/// The variables of a program.
#[derive(Drop)]
pub struct Copies<'p, 'a> {
    /// What is declared of those that copies hold, by the numbers of the state sets.
    pub held: Vec<Vec<CopyVariable<'p, 'a>>>,
    /// Where their words stand.
    pub places: Vec<Places>,
    /// What is declared of those of functions, whose words all state sets share.
    pub shared: Vec<CopyVariable<'p, 'a>>,
    /// What functions may name: the variables of the program's definitions, and those of functions.
    pub bodies: Places,
}

/// The variables of the copy of a state set: those that all copies hold, and then its own.
fn held_set<'p, 'a>(
    alloc: Global,
    program: &'p Program<'a>,
    own: &[CopyVariable<'p, 'a>],
    scopes: &Scopes<'_, 'a>,
    set: usize,
) -> Result<Vec<CopyVariable<'p, 'a>>, AllocError>
    requires own { map variable_view own.now
        ≡ by_definitions [] (program_view program.now).definitions }
    requires scopes { scopes_of scopes.now ≡ program_scopes (program_view program.now) }
    ensures { IfOk result (λ held. map variable_view held.items
        ≡ variables_of (program_view program.now) set) }
{
    let mut held = Vec::from_slice(alloc, own)?;
    push_parts(
        alloc,
        &program.entry,
        program.state_sets.as_slice(),
        &program.exit,
        scopes,
        set,
        &mut held,
    )?;
    Ok(held)
}

/// The variables of the copies of all state sets, by those that all hold.
fn held_by<'p, 'a>(
    alloc: Global,
    program: &'p Program<'a>,
    own: &[CopyVariable<'p, 'a>],
    scopes: &Scopes<'_, 'a>,
) -> Result<Vec<Vec<CopyVariable<'p, 'a>>>, AllocError>
    requires own { map variable_view own.now
        ≡ by_definitions [] (program_view program.now).definitions }
    requires scopes { scopes_of scopes.now ≡ program_scopes (program_view program.now) }
    ensures { IfOk result (λ sets. sets_of sets.items
        ≡ held_sets (program_view program.now) 0 (program_view program.now).state_sets) }
{
    let mut sets = Vec::new(alloc);
    for (set, _) in program.state_sets.iter().enumerate() {
        let variables = held_set(alloc, program, own, scopes, set)?;
        sets.push(variables)?;
    }
    Ok(sets)
}

/// The variables of functions.
fn shared_by<'p, 'a>(
    alloc: Global,
    program: &'p Program<'a>,
    scopes: &Scopes<'_, 'a>,
) -> Result<Vec<CopyVariable<'p, 'a>>, AllocError>
    requires scopes { scopes_of scopes.now ≡ program_scopes (program_view program.now) }
    ensures { IfOk result (λ held. map variable_view held.items
        ≡ shared_variables (program_view program.now)) }
{
    let mut held = Vec::new(alloc);
    push_functions(alloc, program.definitions.as_slice(), scopes, &mut held)?;
    Ok(held)
}

/// The places of the variables of copies.
fn placed_sets<'p, 'a>(
    alloc: Global,
    sets: &'p [Vec<CopyVariable<'p, 'a>>],
) -> Result<Vec<Places>, AllocError>
    ensures { IfOk result (λ copies. copies.items ≡ map (placed_from 0) (sets_of sets.now)) }
{
    let mut copies = Vec::new(alloc);
    for variables in sets {
        let places = Places::of(alloc, variables.as_slice())?;
        copies.push(places)?;
    }
    Ok(copies)
}

/// The variables of a program, by those of its definitions.
fn copies_by<'p, 'a>(
    alloc: Global,
    program: &'p Program<'a>,
    own: &[CopyVariable<'p, 'a>],
    scopes: &Scopes<'_, 'a>,
) -> Result<Copies<'p, 'a>, AllocError>
    requires own { map variable_view own.now
        ≡ by_definitions [] (program_view program.now).definitions }
    requires scopes { scopes_of scopes.now ≡ program_scopes (program_view program.now) }
    ensures held { IfOk result (λ copies. sets_of copies.held.items
        ≡ held_sets (program_view program.now) 0 (program_view program.now).state_sets) }
    ensures places { IfOk result (λ copies. copies.places.items
        ≡ heres.placed_sets (program_view program.now) 0 (program_view program.now).state_sets) }
    ensures shared { IfOk result (λ copies. variables_in copies.shared
        ≡ shared_variables (program_view program.now)) }
    ensures bodies { IfOk result (λ copies. copies.bodies
        ≡ heres.function_places (program_view program.now)) }
{
    let held = held_by(alloc, program, own, scopes)?;
    let places = placed_sets(alloc, held.as_slice())?;
    let shared = shared_by(alloc, program, scopes)?;
    let bodies = Places::of_functions(alloc, own, shared.as_slice())?;
    Ok(Copies {
        held,
        places,
        shared,
        bodies,
    })
}

/// The variables of a program: those of the copies of all state sets, and those of functions. The only error is that memory
/// ends.
pub fn copies_of<'p, 'a>(
    alloc: Global,
    program: &'p Program<'a>,
) -> Result<Copies<'p, 'a>, AllocError>
    ensures held { IfOk result (λ copies. sets_of copies.held.items
        ≡ held_sets (program_view program.now) 0 (program_view program.now).state_sets) }
    ensures places { IfOk result (λ copies. copies.places.items
        ≡ heres.placed_sets (program_view program.now) 0 (program_view program.now).state_sets) }
    ensures shared { IfOk result (λ copies. variables_in copies.shared
        ≡ shared_variables (program_view program.now)) }
    ensures bodies { IfOk result (λ copies. copies.bodies
        ≡ heres.function_places (program_view program.now)) }
{
    let mut own = Vec::new(alloc);
    let definitions = program.definitions.as_slice();
    let scope = push_definitions(alloc, definitions, &Scopes::Outside, &mut own)?;
    let scopes = Scopes::Within(&scope, &Scopes::Outside);
    copies_by(alloc, program, own.as_slice(), &scopes)
}
