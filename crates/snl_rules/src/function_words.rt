//! How many words functions take, which all state sets share.

ghost use Rattle.std.specs.Prelude.{◌≡◌, length, map, IfOk};
ghost use Rattle.std.specs.List.{flat_map, sum_by};
ghost use Rattle.snl_syntax.specs.view.Definitions.{definition_view};
ghost use Rattle.snl_syntax.specs.view.Programs.{program_view};
ghost use Rattle.snl_names.specs.Variables.{function_by, shared_variables};
ghost use Rattle.snl_rules.specs.Counts.{capped};
ghost use Rattle.snl_rules.specs.Words.{function_words, variable_words};

use crate::words::words_of_row;
use snl_resolve::{Scopes, push_functions, scope_of};
use snl_syntax::{Def, Program};
use std::alloc::{AllocError, Global};

/// One where a definition is a function.
fn count_at(definition: &Def) -> usize
    ensures { result ≡ length (function_by (definition_view definition.now)) }
{
    match definition {
        Def::Function(_) => 1,
        _ => 0,
    }
}

/// How many functions there are among definitions.
fn count_of(definitions: &[Def]) -> u64
    ensures { result
        ≡ capped (length (flat_map function_by (map definition_view definitions.now))) }
{
    let mut count: u64 = 0;
    for definition in definitions {
        count = count.saturating_add(count_at(definition) as u64);
    }
    count
}

/// The words of the variables of functions, at most 2^64 - 1.
fn words_of_shared<'a>(alloc: Global, program: &Program<'a>) -> Result<u64, AllocError>
    ensures { IfOk result (λ words. words ≡ capped (sum_by variable_words (shared_variables
        (program_view program.now)))) }
{
    let definitions = program.definitions.as_slice();
    let scope = scope_of(alloc, definitions, &Scopes::Outside)?;
    let mut held = Vec::new(alloc);
    push_functions(
        alloc,
        definitions,
        &Scopes::Within(&scope, &Scopes::Outside),
        &mut held,
    )?;
    Ok(words_of_row(held))
}

/// The words that the functions of a program take: those of their variables, and one for each function
/// to return to. At most 2^64 - 1. The only error is that memory ends.
pub fn words_of_functions(alloc: Global, program: &Program) -> Result<u64, AllocError>
    ensures { IfOk result (λ words. words ≡ capped (function_words (program_view program.now))) }
{
    let count = count_of(program.definitions.as_slice());
    // Most programs have none, and their names are not looked at.
    if count == 0 {
        return Ok(0);
    }
    let shared = words_of_shared(alloc, program)?;
    Ok(shared.saturating_add(count))
}
