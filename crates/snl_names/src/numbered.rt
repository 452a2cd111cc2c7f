//! The names of states in their state set, and of state sets in the program, by number.

ghost use Rattle.std.specs.Prelude.{◌≡◌, ℕ, List, [], OnOk, IfOk};
ghost use Rattle.snl_text.specs.declared.tokens.Token.{Token};
ghost use Rattle.snl_names.specs.Numbered as spec;
ghost use Rattle.snl_names.specs.NumberTables.{number_in, only_number};
ghost use Rattle.snl_names.specs.Scopes.{or_in};

use indexmap::IndexMap;
use snl_text::Token;
use std::alloc::{AllocError, Global};
use std::marker::Model;

/// Names in the order of the source, counted from 0.
#[derive(Drop)]
pub struct Numbered<'a> {
    names: Vec<Token<'a>>,
    /// The number of the first of each name.
    numbers: IndexMap<&'a [u8], usize>,
}

impl<'a> Model for Numbered<'a> {
    ghost use Rattle.std.specs.Prelude.{List};
    ghost use Rattle.snl_text.specs.declared.tokens.Token.{Token};

    ghost Value = { List Token };

    ghost view = { λ s. s.names.items };

    ghost use Rattle.snl_names.specs.NumberTables.{IsNumberTable};

    ghost invariant = { λ s. IsNumberTable s.numbers s.names.items };
}

/// Adds a name's number to a table, if it is the first of its name.
fn note_number<'a>(
    name: Token<'a>,
    number: usize,
    numbers: &mut IndexMap<&'a [u8], usize>,
) -> Result<(), AllocError>
    ensures { OnOk result ((q : List ℕ) → number_in numbers.new q
        ≡ or_in (number_in numbers.old q) (only_number q name.entry number)) }
{
    if numbers.contains_key(&name.text) {
        return Ok(());
    }
    numbers.insert(name.text, number)?;
    Ok(())
}

impl<'a> Numbered<'a> {
    /// No names.
    pub fn empty(alloc: Global) -> Numbered<'a>
        ensures { result ≡ [] }
    {
        Numbered {
            names: Vec::new(alloc),
            numbers: IndexMap::new(alloc),
        }
    }

    /// These names, with their numbers. Fails only where memory ends.
    pub fn of(alloc: Global, names: Vec<Token<'a>>) -> Result<Numbered<'a>, AllocError>
        ensures { IfOk result (λ numbered. numbered ≡ names.entry.items) }
    {
        let mut numbers = IndexMap::new(alloc);
        for (number, name) in names.iter().enumerate() {
            note_number(*name, number, &mut numbers)?;
        }
        Ok(Numbered { names, numbers })
    }

    /// The number of the first of a name.
    pub fn find(&self, name: Token<'a>) -> Option<usize>
        ensures { result ≡ spec.number_of self.now name.entry.text.now }
    {
        self.numbers.get(&name.text).copied()
    }

    /// Whether the name of this number stands before it too.
    pub fn is_later(&self, number: usize, name: Token<'a>) -> bool
        ensures { result ≡ spec.is_later self.now number name.entry }
    {
        match self.find(name) {
            Some(first) => first != number,
            None => true,
        }
    }
}
