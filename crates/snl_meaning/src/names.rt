//! What the names in a piece of code mean.

ghost use Rattle.std.specs.Prelude.{◌≡◌, ◌++◌, map, OnOk};
ghost use Rattle.snl_names.specs.CopyVariables.{variable_view};
ghost use Rattle.snl_meaning.specs.Names as spec;
ghost use Rattle.snl_meaning.specs.Known.{here_of};

use crate::instrs::Variable;
use crate::places::Places;
use crate::sites::Sites;
use snl_names::{CopyVariable, Numbered, predefined};
use snl_text::Token;
use std::alloc::AllocError;

/// What a name is in an expression.
#[derive(Clone, Copy)]
pub enum Sense {
    /// A variable: of the copy, or of a function.
    Varies(Variable),
    /// A number.
    Stands(i64),
}

/// A variable, by its declaration.
#[derive(Clone, Copy)]
pub struct Placed {
    /// Where it is declared, in bytes.
    pub offset: usize,
    /// What an instruction says of it.
    pub variable: Variable,
}

/// Where a piece of code stands.
#[derive(Clone, Copy)]
pub enum Within {
    /// In a piece of a state set: a condition, an entry, an exit or a block of a clause.
    Piece,
    /// In the body of a function, whose values lie between these numbers; one without a value gives 0.
    Body { least: i64, greatest: i64 },
}

/// What code knows of a function.
#[derive(Clone, Copy)]
pub struct Outline<'a> {
    /// Its name.
    pub name: &'a [u8],
    /// How many operands its body needs at once.
    pub depth: usize,
}

/// What is known where a piece of code stands.
#[derive(Clone, Copy)]
pub struct Known<'s, 'a> {
    /// The names of the states of its state set.
    pub states: &'s Numbered<'a>,
    /// The sites of the program.
    pub sites: &'s Sites<'s, 'a>,
    /// The variables that may be named there: those of the copy; in a function those of the program's definitions, and those of
    /// functions.
    pub variables: &'s Places,
    /// Whether it is the body of a function.
    pub within: Within,
    /// The names of the functions of the program.
    pub functions: &'s Numbered<'a>,
    /// How many of them may be called there: those above it.
    pub above: usize,
}

fn held_from<'p, 'a>(place: usize, is_shared: bool, held: &'p CopyVariable<'p, 'a>) -> Variable
    ensures { result ≡ spec.held_from is_shared place (variable_view held.now) }
{
    let (least, greatest) = held.range;
    Variable {
        place,
        size: held.size.elements(),
        least,
        greatest,
        is_shared,
    }
}

/// Adds variables, each by its declaration; their words stand one after another, among those that all state sets share or among
/// those of a copy. The only error is that memory ends.
pub fn push_places<'p, 'a>(
    variables: &'p [CopyVariable<'p, 'a>],
    is_shared: bool,
    places: &mut Vec<Placed>,
) -> Result<(), AllocError>
    ensures { OnOk result (places.new.items ≡ places.old.items
        ++ spec.placed_by is_shared 0 (map variable_view variables.now)) }
{
    let mut place = 0usize;
    for number in 0..variables.len() {
        let held = &variables[number];
        let variable = held_from(place, is_shared, held);
        places.push(Placed {
            offset: held.name.pos.offset as usize,
            variable,
        })?;
        place = place.saturating_add(variable.size);
    }
    Ok(())
}

impl<'s, 'a> Known<'s, 'a> {
    /// The variable that is declared at an offset, in bytes.
    pub fn variable(&self, offset: usize) -> Option<Variable>
        ensures { result ≡ spec.variable_at (here_of self.now) offset }
    {
        self.variables.variable(offset)
    }
    /// The variable that a name's declaration makes, or else the number that its text is predefined
    /// to be. A name that is neither stands for 0.
    pub fn sense(&self, name: Token<'a>) -> Sense
        ensures { result ≡ spec.sense_of (here_of self.now) name.entry }
    {
        let variable = match self.sites.declared(name.pos.offset as usize) {
            Some(place) => self.variables.variable(place.offset as usize),
            None => None,
        };
        match variable {
            Some(variable) => Sense::Varies(variable),
            None => Sense::Stands(predefined(name.text).unwrap_or(0)),
        }
    }
    /// The number of the event flag that a name means; that after the last where there is none.
    pub fn flag(&self, name: Token<'a>) -> usize
        ensures { result ≡ spec.flag_number (here_of self.now) name.entry }
    {
        self.sites.flag(name)
    }
    /// The number of a string among those that are formats; that after the last where it is none.
    pub fn format(&self, text: Token<'a>) -> usize
        ensures { result ≡ spec.format_number (here_of self.now) text.entry }
    {
        self.sites.format(text.text)
    }
    /// The number of the function that is called, among those of the program; none where no function of this name may be called
    /// there.
    pub fn function(&self, name: Token<'a>) -> Option<usize>
        ensures { result ≡ spec.function_number (here_of self.now) name.entry }
    {
        let number = self.functions.find(name)?;
        if number < self.above {
            Some(number)
        } else {
            None
        }
    }
    /// The number of the state that is named, in the state set; 0 for an unknown name.
    pub fn state(&self, name: Token<'a>) -> usize
        ensures { result ≡ spec.state_number (here_of self.now) name.entry }
    {
        self.states.find(name).unwrap_or(0)
    }
}

/// The same of a name in a tree: what is known has the same place here as where a tree stands first.
pub fn sense_in<'a>(name: &Token<'a>, known: &Known<'_, 'a>) -> Sense
    ensures { result ≡ spec.sense_of (here_of known.now) name.now }
{
    known.sense(*name)
}
