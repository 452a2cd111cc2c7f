//! The copies of state sets, and what can write them.

ghost use Rattle.std.specs.Prelude.{◌≡◌, true, ◌↔◌, IfOk};
ghost use Rattle.std.specs.List.{list_any};
ghost use Rattle.snl_syntax.specs.view.Programs.{program_view};
ghost use Rattle.snl_names.specs.Uses.{declared_pos};
ghost use Rattle.snl_names.specs.UseTables.{IsTableOf, declared_at};
ghost use Rattle.snl_copies.specs.Copies as copies;
ghost use Rattle.snl_copies.specs.Tests as spec;

use crate::calling::push_all_called;
use crate::parts::code_of;
use crate::touches::Touch;
use snl_names::{Meaning, Site, Sort, UseTable};
use snl_resolve::sites_of;
use snl_syntax::Program;
use snl_text::Pos;
use std::alloc::{AllocError, Global};

/// What is known of a state set's copy.
#[derive(Drop)]
pub struct SetCopy<'a> {
    /// The sites of the program.
    pub sites: Vec<Site<'a>>,
    /// What the code does that runs on the copy, with the functions that it calls.
    pub code: Vec<Touch<'a>>,
}

/// Whether a declaration is there, and is that of a variable.
fn is_at(place: Option<Pos>, variable: usize) -> bool
    ensures { result ≡ spec.is_at variable place }
{
    match place {
        Some(place) => (place.offset as usize) == variable,
        None => false,
    }
}

/// The place of the declaration that a name means.
fn declared_pos(meaning: Meaning) -> Option<Pos>
    ensures { result ≡ declared_pos meaning }
{
    match meaning {
        Meaning::Variable(declared, _) | Meaning::Flag(declared) => Some(declared),
        Meaning::Number | Meaning::Nothing => None,
    }
}

/// The variable of which a site is the `monitor`.
fn monitored_at(site: &Site) -> Option<Pos>
    ensures { result ≡ copies.monitored_at site.now }
{
    match site {
        Site::Defined {
            sort: Sort::Monitor,
            meaning,
            ..
        } => declared_pos(*meaning),
        _ => None,
    }
}

/// The variable of which a site is the `syncQ`.
fn queued_at(site: &Site) -> Option<Pos>
    ensures { result ≡ copies.queued_at site.now }
{
    match site {
        Site::Defined {
            sort: Sort::Queue(_),
            meaning,
            ..
        } => declared_pos(*meaning),
        _ => None,
    }
}

/// Whether a site is a `monitor` of a variable.
fn has_monitor(sites: &[Site], variable: usize) -> bool
    ensures { result
        ≡ list_any (λ s. spec.is_at variable (copies.monitored_at s)) sites.now }
{
    for site in sites {
        if is_at(monitored_at(site), variable) {
            return true;
        }
    }
    false
}

/// Whether a site is a `syncQ` of a variable.
fn has_queue(sites: &[Site], variable: usize) -> bool
    ensures { result ≡ list_any (λ s. spec.is_at variable (copies.queued_at s)) sites.now }
{
    for site in sites {
        if is_at(queued_at(site), variable) {
            return true;
        }
    }
    false
}

/// Whether a piece of code writes a variable.
fn stores(touch: &Touch, uses: &UseTable, variable: usize) -> bool
    ensures { result ≡ spec.stores (declared_at uses.now) variable touch.now }
{
    match touch {
        Touch::Writes(name) => is_at(uses.declared(name.pos.offset as usize), variable),
        Touch::Begins(name) => (name.pos.offset as usize) == variable,
        _ => false,
    }
}

/// Whether code writes a variable.
fn has_store(code: &[Touch], uses: &UseTable, variable: usize) -> bool
    ensures { result ≡ list_any (spec.stores (declared_at uses.now) variable) code.now }
{
    for touch in code {
        if stores(touch, uses, variable) {
            return true;
        }
    }
    false
}

impl<'a> SetCopy<'a> {
    /// The copy of a state set. The only error is that memory ends.
    pub fn of(alloc: Global, program: &Program<'a>, set: usize) -> Result<SetCopy<'a>, AllocError>
        ensures { IfOk result (λ copy. spec.IsCopyOf (program_view program.now) set copy) }
    {
        let sites = sites_of(alloc, program)?;
        let mut code = code_of(alloc, program, set)?;
        push_all_called(program.definitions.as_slice(), &mut code)?;
        Ok(SetCopy { sites, code })
    }

    /// Whether a refresh or code writes a variable there.
    pub fn is_written(&self, uses: &UseTable, variable: usize) -> bool
        ensures { result ≡ spec.is_written uses.now self.now variable }
    {
        let sites = self.sites.as_slice();
        (has_monitor(sites, variable) && !has_queue(sites, variable))
            || has_store(self.code.as_slice(), uses, variable)
    }
}

/// Whether a state set's copy of a variable can be written while the program runs: by a refresh, as a monitored variable without a
/// queue is, or by code that runs on the copy. The state set goes by its number, from 0 on, and the variable by the byte offset of its
/// declaration. `uses` is the table of the program's names. The only error is that memory ends.
pub fn is_written<'a>(
    alloc: Global,
    program: &Program<'a>,
    uses: &UseTable,
    set: usize,
    variable: usize,
) -> Result<bool, AllocError>
    requires { IsTableOf uses.now (program_view program.now) }
    ensures { IfOk result (λ written. (written ≡ true)
        ↔ copies.Written (program_view program.now) set variable) }
{
    let copy = SetCopy::of(alloc, program, set)?;
    Ok(copy.is_written(uses, variable))
}
