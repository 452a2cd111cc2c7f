//! The numbers of the states of a state set, by their names.

ghost use Rattle.std.specs.Prelude.{◌≡◌, ℕ, List, map, OnOk, IfOk};
ghost use Rattle.snl_syntax.specs.view.Programs.{state_view};
ghost use Rattle.snl_names.specs.NumberTables.{number_in, only_number, IsNumberTable};
ghost use Rattle.snl_names.specs.Scopes.{or_in};
ghost use Rattle.snl_reach.specs.Reach.{state_names};

use indexmap::IndexMap;
use snl_syntax::State;
use snl_text::Token;
use std::alloc::{AllocError, Global};

/// Adds a name's number to a table, if it is the first of its name.
fn note_number<'a>(
    name: Token<'a>,
    number: usize,
    numbers: &mut IndexMap<&'a [u8], usize>,
) -> Result<(), AllocError>
    ensures { OnOk result ((q : List ℕ) → number_in numbers.new q
        ≡ or_in (number_in numbers.old q) (only_number q name.entry number)) }
{
    if numbers.contains_key(&name.text) {
        return Ok(());
    }
    numbers.insert(name.text, number)?;
    Ok(())
}

/// The number of each state, from 0 on, by its name; of states with one name that of the first.
/// Fails only where memory ends.
pub fn state_numbers<'a>(
    alloc: Global,
    states: &[State<'a>],
) -> Result<IndexMap<&'a [u8], usize>, AllocError>
    ensures { IfOk result (λ numbers. IsNumberTable numbers
        (state_names (map state_view states.now))) }
{
    let mut numbers = IndexMap::new(alloc);
    for (number, state) in states.iter().enumerate() {
        note_number(state.name, number, &mut numbers)?;
    }
    Ok(numbers)
}
