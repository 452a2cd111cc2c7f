//! Tables of the elements that definitions name. A whole variable, and a list, are one entry each.

ghost use Rattle.std.specs.Prelude.{◌≡◌, ℕ, ◌||◌, ◌&&◌, ◌==◌, Some, nat_lt, nat_eq, is_some, not, OnOk};
ghost use Rattle.std.specs.HashMap.{get};
ghost use Rattle.snl_rules.specs.Elements.{part_at};
ghost use Rattle.snl_rules.specs.Tests as tests;
ghost use Rattle.snl_rules.specs.ElementTables as spec;

use indexmap::{IndexMap, IndexSet};
use snl_resolve::{Extent, Part, Site, Sort};
use std::alloc::{AllocError, Global};

/// The sorts of definitions that a table is of.
#[derive(Clone, Copy)]
pub enum Naming {
    /// `assign`
    Assigning,
    /// `monitor`
    Monitoring,
    /// `sync` and `syncQ`
    Syncing,
    /// `syncQ`
    Queueing,
}

/// Elements of variables, which are told by the offsets of their declarations.
#[derive(Drop)]
pub struct Elements {
    /// Of each variable that is named, how many elements from the first one on.
    fronts: IndexMap<usize, usize>,
    /// Elements that are named by their number.
    singles: IndexSet<(usize, usize)>,
    /// The least element of each variable that has one named.
    leasts: IndexMap<usize, usize>,
}

/// Whether a definition is of such a sort.
fn is_of(naming: Naming, sort: Sort) -> bool
    ensures { result ≡ spec.sorts_of naming sort }
{
    match naming {
        Naming::Assigning => matches!(sort, Sort::Assign),
        Naming::Monitoring => matches!(sort, Sort::Monitor),
        Naming::Syncing => matches!(sort, Sort::Sync | Sort::Queue(_)),
        Naming::Queueing => matches!(sort, Sort::Queue(_)),
    }
}

/// What a site names, where it is a definition of such a sort.
pub fn part_at(naming: Naming, site: &Site) -> Option<Part>
    ensures { result ≡ part_at (spec.sorts_of naming) site.now }
{
    match site {
        Site::Defined { sort, part, .. } if is_of(naming, *sort) => *part,
        _ => None,
    }
}

/// How many first elements of a variable are named by one entry.
fn front_of(fronts: &IndexMap<usize, usize>, variable: usize) -> usize
    ensures { result ≡ spec.front_in fronts.now variable }
{
    match fronts.get(&variable) {
        Some(count) => *count,
        None => 0,
    }
}

/// Notes that the first elements of a variable are named.
fn note_front(
    fronts: &mut IndexMap<usize, usize>,
    variable: usize,
    count: usize,
) -> Result<(), AllocError>
    ensures front { OnOk result ((v k : ℕ) → nat_lt k (spec.front_in fronts.new v)
        ≡ (nat_lt k (spec.front_in fronts.old v) || (variable == v && nat_lt k count))) }
    ensures some { OnOk result ((v : ℕ) → is_some (get nat_eq fronts.new v)
        ≡ (is_some (get nat_eq fronts.old v) || (variable == v))) }
{
    let front = front_of(fronts, variable);
    fronts.insert(variable, if front < count { count } else { front })?;
    Ok(())
}

/// Notes that an element of a variable is named, for the least one.
fn note_least(
    leasts: &mut IndexMap<usize, usize>,
    variable: usize,
    element: usize,
) -> Result<(), AllocError>
    ensures { OnOk result ((v n : ℕ) → spec.least_in leasts.new v n
        ≡ (spec.least_in leasts.old v n || (variable == v && nat_lt element n))) }
{
    let least = match leasts.get(&variable) {
        Some(least) if *least < element => *least,
        _ => element,
    };
    leasts.insert(variable, least)?;
    Ok(())
}

impl Elements {
    /// A table that names nothing.
    pub fn new(alloc: Global) -> Elements
        ensures { spec.IsEmpty result }
    {
        Elements {
            fronts: IndexMap::new(alloc),
            singles: IndexSet::new(alloc),
            leasts: IndexMap::new(alloc),
        }
    }

    /// Whether an element of a variable is named.
    pub fn names_element(&self, variable: usize, element: usize) -> bool
        ensures { result ≡ spec.element_in self.now variable element }
    {
        element < front_of(&self.fronts, variable) || self.singles.contains(&(variable, element))
    }

    /// Whether one of the first elements of a variable, so many, is named.
    pub fn names_below(&self, variable: usize, count: usize) -> bool
        ensures { result ≡ spec.below_in self.now variable count }
    {
        match self.leasts.get(&variable) {
            Some(least) => *least < count,
            None => false,
        }
    }

    /// Whether a variable or an element of it is named.
    pub fn names_some(&self, variable: usize) -> bool
        ensures { result ≡ spec.some_in self.now variable }
    {
        self.fronts.contains_key(&variable)
    }

    /// Whether one of the first elements of a variable, so many, is not named. It looks at single
    /// elements only after those that one entry names.
    pub fn lacks_below(&self, variable: usize, count: usize) -> bool
        ensures { result ≡ tests.some_below (λ k. not (spec.element_in self.now variable k)) count }
    {
        let front = front_of(&self.fronts, variable);
        for element in front..count {
            if !self.singles.contains(&(variable, element)) {
                return true;
            }
        }
        false
    }

    /// Notes the first elements of a variable, so many.
    fn note_first(&mut self, variable: usize, count: usize) -> Result<(), AllocError>
        ensures element { OnOk result ((v k : ℕ) → spec.element_in self.new v k
            ≡ (spec.element_in self.old v k || (variable == v && nat_lt k count))) }
        ensures below { OnOk result ((v n : ℕ) → spec.below_in self.new v n
            ≡ (spec.below_in self.old v n || (variable == v && (nat_lt 0 count && nat_lt 0 n)))) }
        ensures some { OnOk result ((v : ℕ) → spec.some_in self.new v
            ≡ (spec.some_in self.old v || (variable == v))) }
    {
        note_front(&mut self.fronts, variable, count)?;
        if 0 < count {
            note_least(&mut self.leasts, variable, 0)?;
        }
        Ok(())
    }

    /// Notes an element of a variable.
    fn note_element(&mut self, variable: usize, element: usize) -> Result<(), AllocError>
        ensures element { OnOk result ((v k : ℕ) → spec.element_in self.new v k
            ≡ (spec.element_in self.old v k || (variable == v && (k == element)))) }
        ensures below { OnOk result ((v n : ℕ) → spec.below_in self.new v n
            ≡ (spec.below_in self.old v n || (variable == v && nat_lt element n))) }
        ensures some { OnOk result ((v : ℕ) → spec.some_in self.new v
            ≡ (spec.some_in self.old v || (variable == v))) }
    {
        note_front(&mut self.fronts, variable, 0)?;
        note_least(&mut self.leasts, variable, element)?;
        self.singles.insert((variable, element))?;
        Ok(())
    }

    /// Notes a part of a variable.
    fn note(&mut self, part: Part) -> Result<(), AllocError>
        ensures { OnOk result (spec.named_in self.new
            ≡ tests.with_part (spec.named_in self.old) (Some part)) }
    {
        match part.extent {
            Extent::Whole(count) | Extent::Front(count) => {
                self.note_first(part.variable.offset as usize, count as usize)?;
            }
            Extent::Element(element) => {
                self.note_element(part.variable.offset as usize, element as usize)?;
            }
        }
        Ok(())
    }

    /// Notes what a site names, where it is a definition of such a sort. Fails only where memory ends.
    pub fn note_site(&mut self, naming: Naming, site: &Site) -> Result<(), AllocError>
        ensures { OnOk result (spec.named_in self.new
            ≡ tests.with_part (spec.named_in self.old) (part_at (spec.sorts_of naming) site.now)) }
    {
        if let Some(part) = part_at(naming, site) {
            self.note(part)?;
        }
        Ok(())
    }

    /// Notes what the definitions of such a sort name, of all in some sites. Fails only where memory ends.
    pub fn note_all(&mut self, naming: Naming, sites: &[Site]) -> Result<(), AllocError>
        requires { spec.IsEmpty self.old }
        ensures { OnOk result (spec.named_in self.new
            ≡ tests.named_of (spec.sorts_of naming) sites.now) }
    {
        for site in sites {
            self.note_site(naming, site)?;
        }
        Ok(())
    }
}
