//! What is known of all sites, and of those before a site.

ghost use Rattle.std.specs.Prelude.{◌≡◌, ℕ, ◌||◌, [], None, false, nat_eq, OnOk};
ghost use Rattle.std.specs.List.{list_any};
ghost use Rattle.std.specs.HashMap.{get};
ghost use Rattle.std.specs.HashSet.{contains};
ghost use Rattle.snl_rules.specs.Elements.{part_at, is_assign};
ghost use Rattle.snl_rules.specs.Rules as rules;
ghost use Rattle.snl_rules.specs.Tests as tests;
ghost use Rattle.snl_rules.specs.ElementTables as spec;

use crate::elements::{Elements, Naming, part_at};
use indexmap::{IndexMap, IndexSet};
use snl_resolve::{Extent, Meaning, Part, Site};
use std::alloc::{AllocError, Global};

/// State sets in a program.
const MOST_SETS: usize = 64;
/// States in all state sets of a program.
const MOST_STATES: usize = 1024;
/// Functions of a program.
const MOST_FUNCTIONS: usize = 256;
/// Channels of a program.
const MOST_CHANNELS: usize = 1024;

/// What is known of all sites. Variables and flags are told by the offsets of their declarations.
#[derive(Drop)]
pub struct ProgramFacts {
    /// What `assign` names.
    pub assigned: Elements,
    /// What `monitor` names.
    pub monitored: Elements,
    /// What `syncQ` names.
    pub queued: Elements,
    /// Of each variable that is assigned, whether the first `assign` is of its whole.
    firsts: IndexMap<usize, bool>,
    /// The declarations and functions that some name means.
    used: IndexSet<usize>,
}

/// What is known of the sites before a site.
#[derive(Drop)]
pub struct EarlierFacts {
    /// What `assign` names.
    pub assigned: Elements,
    /// What `sync` and `syncQ` name.
    pub synced: Elements,
    /// How many more state sets may come; None once there are too many.
    pub sets: Option<usize>,
    /// How many more states, likewise.
    pub states: Option<usize>,
    /// How many more functions, likewise.
    pub functions: Option<usize>,
    /// How many more channels, likewise.
    pub channels: Option<usize>,
}

/// Notes the first `assign` of a variable.
fn note_first(firsts: &mut IndexMap<usize, bool>, part: Part) -> Result<(), AllocError>
    ensures { OnOk result ((v : ℕ) → get nat_eq firsts.new v
        ≡ tests.first_or (get nat_eq firsts.old v) (tests.whole_by v (Some part))) }
{
    if !firsts.contains_key(&(part.variable.offset as usize)) {
        let is_whole = matches!(part.extent, Extent::Whole(_));
        firsts.insert(part.variable.offset as usize, is_whole)?;
    }
    Ok(())
}

/// Notes the `assign` at a site.
fn note_first_at(firsts: &mut IndexMap<usize, bool>, site: &Site) -> Result<(), AllocError>
    ensures { OnOk result ((v : ℕ) → get nat_eq firsts.new v
        ≡ tests.first_or (get nat_eq firsts.old v)
        (tests.whole_by v (part_at is_assign site.now))) }
{
    if let Some(part) = part_at(Naming::Assigning, site) {
        note_first(firsts, part)?;
    }
    Ok(())
}

/// Notes the first `assign` of each variable.
fn note_firsts(firsts: &mut IndexMap<usize, bool>, sites: &[Site]) -> Result<(), AllocError>
    requires { (v : ℕ) → get nat_eq firsts.old v ≡ None }
    ensures { OnOk result ((v : ℕ) → get nat_eq firsts.new v ≡ tests.first_whole sites.now v) }
{
    for site in sites {
        note_first_at(firsts, site)?;
    }
    Ok(())
}

/// Notes the declaration or the function that a site means.
fn note_used(used: &mut IndexSet<usize>, site: &Site) -> Result<(), AllocError>
    ensures { OnOk result ((v : ℕ) → contains nat_eq used.new v
        ≡ (contains nat_eq used.old v || tests.uses_declared v site.now)) }
{
    match site {
        Site::Use { meaning, .. } | Site::Defined { meaning, .. } => match meaning {
            Meaning::Variable(declared, _) | Meaning::Flag(declared) => {
                used.insert(declared.offset as usize)?;
            }
            Meaning::Number | Meaning::Nothing => {}
        },
        Site::Call {
            function: Some(function),
            ..
        } => {
            used.insert(function.offset as usize)?;
        }
        _ => {}
    }
    Ok(())
}

/// Notes the declarations and functions that some site means.
fn note_uses(used: &mut IndexSet<usize>, sites: &[Site]) -> Result<(), AllocError>
    requires { (v : ℕ) → contains nat_eq used.old v ≡ false }
    ensures { OnOk result ((v : ℕ) → contains nat_eq used.new v
        ≡ list_any (tests.uses_declared v) sites.now) }
{
    for site in sites {
        note_used(used, site)?;
    }
    Ok(())
}

impl ProgramFacts {
    /// What is known where there is no site.
    pub fn new(alloc: Global) -> ProgramFacts
        ensures { spec.IsBlank result }
    {
        ProgramFacts {
            assigned: Elements::new(alloc),
            monitored: Elements::new(alloc),
            queued: Elements::new(alloc),
            firsts: IndexMap::new(alloc),
            used: IndexSet::new(alloc),
        }
    }

    /// Notes what is known of some sites. Fails only where memory ends.
    pub fn note_all(&mut self, sites: &[Site]) -> Result<(), AllocError>
        requires { spec.IsBlank self.old }
        ensures { OnOk result (spec.known_in self.new ≡ tests.all_facts sites.now) }
    {
        self.assigned.note_all(Naming::Assigning, sites)?;
        self.monitored.note_all(Naming::Monitoring, sites)?;
        self.queued.note_all(Naming::Queueing, sites)?;
        note_firsts(&mut self.firsts, sites)?;
        note_uses(&mut self.used, sites)?;
        Ok(())
    }

    /// Whether the first `assign` of a variable is of its whole; None where there is no `assign`.
    pub fn first_is_whole(&self, variable: usize) -> Option<bool>
        ensures { result ≡ (spec.known_in self.now).first variable }
    {
        self.firsts.get(&variable).copied()
    }

    /// Whether some name means a declaration or a function.
    pub fn is_used(&self, declared: usize) -> bool
        ensures { result ≡ (spec.known_in self.now).used declared }
    {
        self.used.contains(&declared)
    }
}

/// One where a state set begins.
fn sets_at(site: &Site) -> usize
    ensures { result ≡ rules.sets_at site.now }
{
    match site {
        Site::StateSet { .. } => 1,
        _ => 0,
    }
}

/// One where a state begins.
fn states_at(site: &Site) -> usize
    ensures { result ≡ rules.states_at site.now }
{
    match site {
        Site::State { .. } => 1,
        _ => 0,
    }
}

/// One where a function is defined.
fn functions_at(site: &Site) -> usize
    ensures { result ≡ rules.functions_at site.now }
{
    match site {
        Site::Function { .. } => 1,
        _ => 0,
    }
}

/// How many channels an `assign` makes: one for a whole variable, else one for each element.
pub fn channels_at(site: &Site) -> usize
    ensures { result ≡ rules.channels_at site.now }
{
    match part_at(Naming::Assigning, site) {
        None => 0,
        Some(part) => match part.extent {
            Extent::Front(count) => count as usize,
            Extent::Whole(_) | Extent::Element(_) => 1,
        },
    }
}

/// Whether so many more are too many.
pub fn is_over(room: Option<usize>, count: usize) -> bool
    ensures { result ≡ tests.is_over room count }
{
    match room {
        Some(left) => left < count,
        None => false,
    }
}

/// How many more may come after so many.
fn room_after(room: Option<usize>, count: usize) -> Option<usize>
    ensures { result ≡ tests.room_after room count }
{
    match room {
        Some(left) => left.checked_sub(count),
        None => None,
    }
}

impl EarlierFacts {
    /// Nothing is before the first site.
    pub fn new(alloc: Global) -> EarlierFacts
        ensures { spec.seen_in result ≡ tests.seen_facts [] }
    {
        EarlierFacts {
            assigned: Elements::new(alloc),
            synced: Elements::new(alloc),
            sets: Some(MOST_SETS),
            states: Some(MOST_STATES),
            functions: Some(MOST_FUNCTIONS),
            channels: Some(MOST_CHANNELS),
        }
    }

    /// Notes a site. Fails only where memory ends.
    pub fn note(&mut self, site: &Site) -> Result<(), AllocError>
        ensures { OnOk result (spec.seen_in self.new
            ≡ tests.seen_after (spec.seen_in self.old) site.now) }
    {
        self.assigned.note_site(Naming::Assigning, site)?;
        self.synced.note_site(Naming::Syncing, site)?;
        self.sets = room_after(self.sets, sets_at(site));
        self.states = room_after(self.states, states_at(site));
        self.functions = room_after(self.functions, functions_at(site));
        self.channels = room_after(self.channels, channels_at(site));
        Ok(())
    }
}
