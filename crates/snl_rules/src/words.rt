//! How many words the stores of the state sets take, and with them all buffers and queues.

ghost use Rattle.std.specs.Prelude.{◌≡◌, ◌++◌, ◌+◌, ◌↔◌, [], ◌∷◌, true, nat_lt, map, OnOk, IfOk};
ghost use Rattle.std.specs.List.{Contains, sum_by};
ghost use Rattle.snl_text.specs.declared.tokens.Token.{Token};
ghost use Rattle.snl_syntax.specs.view.Programs.{state_set_view, program_view};
ghost use Rattle.snl_names.specs.CopyVariables.{variable_view};
ghost use Rattle.snl_names.specs.Programs as program_sites;
ghost use Rattle.snl_rules.specs.Words as spec;
ghost use Rattle.snl_rules.specs.Counts.{IsSharedIn, capped, own_words_in, overfull_at, overfull_from};

use crate::function_words::words_of_functions;
use crate::link_words::words_of_all_links;
use snl_resolve::{CopyVariable, Scope, Scopes, Site, push_definitions, push_parts};
use snl_syntax::{Program, StateSet};
use snl_text::Token;
use std::alloc::{AllocError, Global};

/// The words of variables, at most 2^64 - 1.
fn words_of_variables<'p, 'a>(held: &'p [CopyVariable<'p, 'a>]) -> u64
    ensures { result ≡ capped (sum_by spec.variable_words (map variable_view held.now)) }
{
    let mut words: u64 = 0;
    for variable in held {
        words = words.saturating_add(variable.size.elements() as u64);
    }
    words
}

/// The words of the variables of a row, at most 2^64 - 1. The row is handed over, so that its lifetimes are those with which it was filled.
pub fn words_of_row<'p, 'a>(held: Vec<CopyVariable<'p, 'a>>) -> u64
    ensures { result ≡ capped (sum_by spec.variable_words (map variable_view held.entry.items)) }
{
    words_of_variables(held.as_slice())
}

/// What the stores of all state sets have in common.
#[derive(Drop)]
pub struct Shared<'a> {
    /// The scope that the program's definitions make.
    pub scope: Scope<'a>,
    /// The words of their variables, at most 2^64 - 1.
    pub words: u64,
}

/// What the stores of all state sets of a program have in common.
fn shared_in<'a>(alloc: Global, program: &Program<'a>) -> Result<Shared<'a>, AllocError>
    ensures { IfOk result (IsSharedIn (program_view program.now)) }
{
    let mut held = Vec::new(alloc);
    let definitions = program.definitions.as_slice();
    let scope = push_definitions(alloc, definitions, &Scopes::Outside, &mut held)?;
    let words = words_of_row(held);
    Ok(Shared { scope, words })
}

/// The words that one state set holds beside the shared ones, at most 2^64 - 1.
fn own_words<'a>(
    alloc: Global,
    program: &Program<'a>,
    scope: &Scope<'a>,
    number: usize,
) -> Result<u64, AllocError>
    ensures { IfOk result (λ words. words
        ≡ capped (own_words_in (scope.now ∷ []) (program_view program.now) number)) }
{
    let mut held = Vec::new(alloc);
    let sets = program.state_sets.as_slice();
    let scopes = Scopes::Within(scope, &Scopes::Outside);
    push_parts(
        alloc,
        &program.entry,
        sets,
        &program.exit,
        &scopes,
        number,
        &mut held,
    )?;
    Ok(words_of_row(held))
}

/// The words of the store of a state set, at most 2^64 - 1.
fn words_of_set<'a>(
    alloc: Global,
    program: &Program<'a>,
    shared: &Shared<'a>,
    number: usize,
) -> Result<u64, AllocError>
    requires { IsSharedIn (program_view program.now) shared.now }
    ensures { IfOk result (λ words. words
        ≡ capped (spec.set_words (program_view program.now) number)) }
{
    let own = own_words(alloc, program, &shared.scope, number)?;
    Ok(shared.words.saturating_add(own))
}

/// Whether the store of a state set takes more than 65,536 words.
fn is_overfull_set<'a>(
    alloc: Global,
    program: &Program<'a>,
    shared: &Shared<'a>,
    number: usize,
) -> Result<bool, AllocError>
    requires { IsSharedIn (program_view program.now) shared.now }
    ensures { IfOk result (λ b. b
        ≡ nat_lt 65536 (spec.set_words (program_view program.now) number)) }
{
    let words = words_of_set(alloc, program, shared, number)?;
    Ok(65_536 < words)
}

/// Adds the `ss` of the state set of a number, if its store is overfull.
fn push_if_overfull<'a>(
    alloc: Global,
    program: &Program<'a>,
    set: &StateSet<'a>,
    shared: &Shared<'a>,
    number: usize,
    found: &mut Vec<Token<'a>>,
) -> Result<(), AllocError>
    requires { IsSharedIn (program_view program.now) shared.now }
    ensures { OnOk result (found.new.items ≡ found.old.items
        ++ overfull_at (program_view program.now) number (state_set_view set.now)) }
{
    if is_overfull_set(alloc, program, shared, number)? {
        found.push(set.word)?;
    }
    Ok(())
}

/// Adds the `ss` of each state set whose store is overfull.
fn push_overfull<'a>(
    alloc: Global,
    program: &Program<'a>,
    sets: &[StateSet<'a>],
    shared: &Shared<'a>,
    found: &mut Vec<Token<'a>>,
) -> Result<(), AllocError>
    requires { IsSharedIn (program_view program.now) shared.now }
    ensures { OnOk result (found.new.items ≡ found.old.items
        ++ overfull_from (program_view program.now) 0 (map state_set_view sets.now)) }
{
    for (number, set) in sets.iter().enumerate() {
        push_if_overfull(alloc, program, set, shared, number, found)?;
    }
    Ok(())
}

/// The `ss` of each state set whose store is overfull, in the order of the source.
fn overfull_in<'a>(
    alloc: Global,
    program: &Program<'a>,
    shared: &Shared<'a>,
) -> Result<Vec<Token<'a>>, AllocError>
    requires { IsSharedIn (program_view program.now) shared.now }
    ensures { IfOk result (λ found. (t : Token) → Contains found.items t
        ↔ spec.IsOverfullSet (program_view program.now) t) }
{
    let mut found = Vec::new(alloc);
    push_overfull(
        alloc,
        program,
        program.state_sets.as_slice(),
        shared,
        &mut found,
    )?;
    Ok(found)
}

/// The `ss` of each state set whose store takes more than 65,536 words, in the order of the source.
/// The only error is that memory ends.
pub fn overfull_sets<'a>(alloc: Global, program: &Program<'a>) -> Result<Vec<Token<'a>>, AllocError>
    ensures { IfOk result (λ found. (t : Token) → Contains found.items t
        ↔ spec.IsOverfullSet (program_view program.now) t) }
{
    let shared = shared_in(alloc, program)?;
    let found = overfull_in(alloc, program, &shared)?;
    Ok(found)
}

/// The words of the stores of state sets, at most 2^64 - 1.
fn words_of_sets<'a>(
    alloc: Global,
    program: &Program<'a>,
    sets: &[StateSet<'a>],
    shared: &Shared<'a>,
) -> Result<u64, AllocError>
    requires { IsSharedIn (program_view program.now) shared.now }
    ensures { IfOk result (λ words. words
        ≡ capped (spec.sets_words (program_view program.now) 0 (map state_set_view sets.now))) }
{
    let mut words: u64 = 0;
    for (number, _set) in sets.iter().enumerate() {
        let more = words_of_set(alloc, program, shared, number)?;
        words = words.saturating_add(more);
    }
    Ok(words)
}

/// The words of the stores of all state sets, at most 2^64 - 1.
fn words_in<'a>(
    alloc: Global,
    program: &Program<'a>,
    shared: &Shared<'a>,
) -> Result<u64, AllocError>
    requires { IsSharedIn (program_view program.now) shared.now }
    ensures { IfOk result (λ words. words ≡ capped (spec.sets_words (program_view program.now) 0
        (program_view program.now).state_sets)) }
{
    let words = words_of_sets(alloc, program, program.state_sets.as_slice(), shared)?;
    Ok(words)
}

/// The words of the stores of all state sets of a program, at most 2^64 - 1.
fn words_of_stores(alloc: Global, program: &Program) -> Result<u64, AllocError>
    ensures { IfOk result (λ words. words ≡ capped (spec.sets_words (program_view program.now) 0
        (program_view program.now).state_sets)) }
{
    let shared = shared_in(alloc, program)?;
    let words = words_in(alloc, program, &shared)?;
    Ok(words)
}

/// Whether so many words of stores, of links and of functions are more than there may be.
fn is_above(stores: u64, links: u64, functions: u64) -> bool
    ensures { result ≡ nat_lt 1048576 (capped (capped (stores + links) + functions)) }
{
    1_048_576 < stores.saturating_add(links).saturating_add(functions)
}

/// Whether the stores of all state sets, with the buffers and queues of all links and what functions
/// take, have more than 1,048,576 words. The sites are those of the program. The only error is that
/// memory ends.
pub fn is_overfull(alloc: Global, program: &Program, sites: &[Site]) -> Result<bool, AllocError>
    requires { sites.now ≡ program_sites.sites (program_view program.now) }
    ensures { IfOk result (λ b. (b ≡ true) ↔ spec.IsOverfull (program_view program.now)) }
{
    let stores = words_of_stores(alloc, program)?;
    let links = words_of_all_links(alloc, sites)?;
    let functions = words_of_functions(alloc, program)?;
    Ok(is_above(stores, links, functions))
}
