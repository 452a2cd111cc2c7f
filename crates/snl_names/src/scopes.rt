//! Scopes as tables of names, one in another, and what a name means there.

ghost use Rattle.std.specs.Prelude.{◌≡◌, ◌<◌, ◌^◌, ℕ, List, [], ◌∷◌, ◌++◌, is_some, map, OnOk, IfOk};
ghost use Rattle.snl_names.specs.declared.scopes.Declared.{Declared};
ghost use Rattle.snl_names.specs.Scopes as spec;
ghost use Rattle.snl_names.specs.Chains.{scopes_of};
ghost use Rattle.snl_names.specs.Sites.{declares, is_flag, words_of};
ghost use Rattle.snl_names.specs.Tables.{found_in, only};

use crate::constants::is_predefined;
use crate::rows::pushed;
use crate::sites::{Meaning, Site, Size};
use indexmap::IndexMap;
use snl_text::Token;
use std::alloc::{AllocError, Global};
use std::marker::Model;

/// A declared name, and the size of a variable.
#[derive(Clone, Copy)]
pub struct Declared<'a> {
    /// Its token has the place of the declaration.
    pub name: Token<'a>,
    /// None of an event flag.
    pub size: Option<Size>,
}

/// What a scope declares.
#[derive(Drop)]
pub struct Scope<'a> {
    /// In the order of the source.
    declared: Vec<Declared<'a>>,
    /// The first declaration of each name.
    firsts: IndexMap<&'a [u8], Declared<'a>>,
}

impl Size {
    /// Whether the variable is an array, of a size that is refused or not.
    pub fn is_array(self) -> bool
        ensures { result ≡ spec.is_array self }
    {
        !matches!(self, Size::Scalar)
    }

    /// How many elements the variable has; an array whose size is refused counts as one of 1,024.
    pub fn elements(self) -> usize
        ensures value { result ≡ spec.elements self }
        ensures within { result < 2 ^ 32 }
    {
        match self {
            Size::Scalar => 1,
            Size::Array(count) => count as usize,
            Size::TooLong | Size::Wrong => 1024,
        }
    }
}

impl<'a> Model for Scope<'a> {
    ghost use Rattle.std.specs.Prelude.{List};
    ghost use Rattle.snl_names.specs.declared.scopes.Declared.{Declared};

    ghost Value = { List Declared };

    ghost view = { λ s. s.declared.items };

    ghost use Rattle.snl_names.specs.Tables.{IsTable};

    ghost invariant = { λ s. IsTable s.firsts s.declared.items };
}

impl<'a> Scope<'a> {
    /// The first declaration of a name. Most scopes declare nothing, and then no look is needed.
    fn find(&self, name: Token<'a>) -> Option<Declared<'a>>
        ensures { result ≡ spec.first_of name.entry.text.now self.now }
    {
        if self.declared.is_empty() {
            return None;
        }
        self.firsts.get(&name.text).copied()
    }
}

/// Adds a declaration to a table of firsts, if it is the first of its name; tells whether there was
/// one.
fn note_first<'a>(
    firsts: &mut IndexMap<&'a [u8], Declared<'a>>,
    declared: Declared<'a>,
) -> Result<bool, AllocError>
    ensures later { IfOk result (λ later. later
        ≡ is_some (found_in firsts.old declared.entry.name.text.now)) }
    ensures firsts { OnOk result ((q : List ℕ) → found_in firsts.new q
        ≡ spec.or_in (found_in firsts.old q) (only q declared.entry)) }
{
    // One look at the table: where there was one, it goes back to its place.
    let Some(first) = firsts.insert(declared.name.text, declared)? else {
        return Ok(false);
    };
    firsts.insert(declared.name.text, first)?;
    Ok(true)
}

impl<'a> Scope<'a> {
    /// The scope that declares these names. Fails only where memory ends.
    pub fn of(alloc: Global, declared: Vec<Declared<'a>>) -> Result<Scope<'a>, AllocError>
        ensures { IfOk result (λ scope. scope ≡ declared.entry.items) }
    {
        let mut firsts = IndexMap::new(alloc);
        for name in &declared {
            note_first(&mut firsts, *name)?;
        }
        Ok(Scope { declared, firsts })
    }
}

/// The site of a declaration, by whether its scope declares the name before.
fn declaration_site<'a>(declared: Declared<'a>, is_later: bool) -> Site<'a>
    ensures { result ≡ Site.Declaration declared.entry.name (is_flag declared.entry) is_later
        (words_of declared.entry) }
{
    Site::Declaration {
        name: declared.name,
        is_flag: declared.size.is_none(),
        is_later,
        words: match declared.size {
            Some(size) => size.elements(),
            None => 0,
        },
    }
}

/// Adds a declaration to a table of firsts, and its site.
fn note_declared<'a>(
    declared: Declared<'a>,
    firsts: &mut IndexMap<&'a [u8], Declared<'a>>,
    sites: &mut Vec<Site<'a>>,
) -> Result<(), AllocError>
    ensures firsts { OnOk result ((q : List ℕ) → found_in firsts.new q
        ≡ spec.or_in (found_in firsts.old q) (only q declared.entry)) }
    ensures sites { OnOk result (sites.new.items ≡ sites.old.items
        ++ Site.Declaration declared.entry.name (is_flag declared.entry) (is_some
        (found_in firsts.old declared.entry.name.text.now)) (words_of declared.entry) ∷ []) }
{
    let is_later = note_first(firsts, declared)?;
    pushed(sites, declaration_site(declared, is_later))
}

/// The scope that declares these names; notes each of them. Fails only where memory ends.
pub fn scope_with<'a>(
    alloc: Global,
    declared: Vec<Declared<'a>>,
    sites: &mut Vec<Site<'a>>,
) -> Result<Scope<'a>, AllocError>
    ensures scope { IfOk result (λ scope. scope ≡ declared.entry.items) }
    ensures sites { OnOk result (sites.new.items ≡ sites.old.items
        ++ declares [] declared.entry.items) }
{
    let mut firsts = IndexMap::new(alloc);
    for name in &declared {
        note_declared(*name, &mut firsts, sites)?;
    }
    Ok(Scope { declared, firsts })
}

/// Scopes, innermost first.
#[derive(Clone, Copy)]
pub enum Scopes<'s, 'a> {
    /// Outside of all scopes.
    Outside,
    /// In a scope, and in those round it.
    Within(&'s Scope<'a>, &'s Scopes<'s, 'a>),
}

impl<'s, 'a> Scopes<'s, 'a> {
    /// What a name is bound to: its first declaration in the innermost scope that declares it.
    pub fn bound(&self, name: Token<'a>) -> Option<Declared<'a>>
        ensures { result ≡ spec.bound (scopes_of self.now) name.entry.text.now }
    {
        let mut scopes = self;
        while let Scopes::Within(scope, outer) = scopes {
            let found = scope.find(name);
            if found.is_some() {
                return found;
            }
            scopes = outer;
        }
        None
    }

    /// What a name means (SNL Reference, "Declarations" and "Built-in Constants").
    pub fn meaning(&self, name: Token<'a>) -> Meaning
        ensures { result ≡ spec.meaning (scopes_of self.now) name.entry }
    {
        match self.bound(name) {
            Some(
                Declared {
                    name,
                    size: Some(size),
                },
            ) => Meaning::Variable(name.pos, size),
            Some(Declared { name, size: None }) => Meaning::Flag(name.pos),
            None => {
                if is_predefined(name.text) {
                    Meaning::Number
                } else {
                    Meaning::Nothing
                }
            }
        }
    }
}
