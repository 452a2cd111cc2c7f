//! What is in sight at a place: the scopes round it, and the functions that may be called there.

ghost use Rattle.std.specs.Prelude.{◌≡◌, ℕ, List, [], ◌∷◌, ◌++◌, OnOk, IfOk};
ghost use Rattle.snl_names.specs.declared.calls.Heading.{Heading};
ghost use Rattle.snl_names.specs.Calls.{heading_in};
ghost use Rattle.snl_resolve.specs.Seen.{sight_of};
ghost use Rattle.snl_resolve.specs.FunctionTables.{function_in, only_function};
ghost use Rattle.snl_names.specs.Scopes.{or_in};
ghost use Rattle.snl_names.specs.Sights as spec;

use indexmap::IndexMap;
use snl_names::{CallKind, Heading, Scope, Scopes, builtin_of, pushed};
use snl_text::Token;
use std::alloc::{AllocError, Global};
use std::marker::Model;

/// Functions of a program, with what calls see of them.
#[derive(Drop)]
pub struct Functions<'a> {
    /// In the order of the source.
    headings: Vec<Heading<'a>>,
    /// The first of each name.
    firsts: IndexMap<&'a [u8], Heading<'a>>,
}

impl<'a> Model for Functions<'a> {
    ghost use Rattle.std.specs.Prelude.{List};
    ghost use Rattle.snl_names.specs.declared.calls.Heading.{Heading};

    ghost Value = { List Heading };

    ghost view = { λ s. s.headings.items };

    ghost use Rattle.snl_resolve.specs.FunctionTables.{IsFunctionTable};

    ghost invariant = { λ s. IsFunctionTable s.firsts s.headings.items };
}

/// Adds a function to a table of firsts, if it is the first of its name.
fn note_first<'a>(
    firsts: &mut IndexMap<&'a [u8], Heading<'a>>,
    heading: Heading<'a>,
) -> Result<(), AllocError>
    ensures { OnOk result ((q : List ℕ) → function_in firsts.new q
        ≡ or_in (function_in firsts.old q) (only_function q heading.entry)) }
{
    if firsts.contains_key(&heading.name.text) {
        return Ok(());
    }
    firsts.insert(heading.name.text, heading)?;
    Ok(())
}

impl<'a> Functions<'a> {
    /// No functions.
    pub fn empty(alloc: Global) -> Functions<'a>
        ensures { result ≡ [] }
    {
        Functions {
            headings: Vec::new(alloc),
            firsts: IndexMap::new(alloc),
        }
    }

    /// One function more, behind the others. Fails only where memory ends.
    pub fn with(self, heading: Heading<'a>) -> Result<Functions<'a>, AllocError>
        ensures { IfOk result (λ functions. functions ≡ self.entry ++ heading.entry ∷ []) }
    {
        let Functions {
            mut headings,
            mut firsts,
        } = self;
        note_first(&mut firsts, heading)?;
        pushed(&mut headings, heading)?;
        Ok(Functions { headings, firsts })
    }

    /// The first function of a name. Most programs have none, and then no look is needed.
    pub fn find(&self, name: Token<'a>) -> Option<Heading<'a>>
        ensures { result ≡ heading_in self.now name.entry.text.now }
    {
        if self.headings.is_empty() {
            return None;
        }
        self.firsts.get(&name.text).copied()
    }
}

/// What is in sight at a place.
#[derive(Clone, Copy)]
pub struct Sight<'s, 'a> {
    /// The scopes round it.
    pub scopes: Scopes<'s, 'a>,
    /// The functions that may be called there.
    pub functions: &'s Functions<'a>,
}

impl<'s, 'a> Sight<'s, 'a> {
    /// What is seen from within one scope more.
    pub fn within(&'s self, scope: &'s Scope<'a>) -> Sight<'s, 'a>
        ensures { sight_of result ≡ spec.within scope.now (sight_of self.now) }
    {
        Sight {
            scopes: Scopes::Within(scope, &self.scopes),
            functions: self.functions,
        }
    }

    /// What a call of a name calls. A built-in function is meant where one has the name.
    pub fn called(&self, name: Token<'a>) -> CallKind<'a>
        ensures { result ≡ spec.called (sight_of self.now) name.entry }
    {
        match builtin_of(name.text) {
            Some(builtin) => CallKind::BuiltIn(builtin),
            None => match self.functions.find(name) {
                Some(heading) => CallKind::Defined(heading),
                None => CallKind::Unknown,
            },
        }
    }
}
