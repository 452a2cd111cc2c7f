//! What definitions say of elements, found by the variable and the element.

ghost use Rattle.std.specs.Prelude.{◌≡◌, ℕ, ◌&&◌, ◌||◌, ◌==◌, None, Option, map, nat_eq, IfOk, OnOk};
ghost use Rattle.std.specs.HashMap.{get};
ghost use Rattle.std.specs.HashSet.{contains};
ghost use Rattle.std.specs.Option.{option_or};
ghost use Rattle.snl_channels.specs.Facts.{alone_by, only_if, monitored_in, same_pair, synced_in};
ghost use Rattle.snl_channels.specs.Links as spec;
ghost use Rattle.snl_channels.specs.LinkViews.{said_view, synced_view};

use crate::said::Said;
use crate::ties::Synced;
use indexmap::{IndexMap, IndexSet};
use snl_resolve::{Extent, Part};
use std::alloc::{AllocError, Global};
use std::marker::Model;

/// Elements that are monitored. Variables are told by the offsets of their declarations.
#[derive(Drop)]
struct Monitored {
    /// Variables that are named whole.
    wholes: IndexSet<usize>,
    /// Elements that are named by their number.
    singles: IndexSet<(usize, usize)>,
}

/// The event flags and the queues of elements.
#[derive(Drop)]
struct Syncs<'a> {
    /// What is said first of a whole variable.
    wholes: IndexMap<usize, Synced<'a>>,
    /// What is said first of an element alone, where nothing is said of its whole variable before.
    singles: IndexMap<(usize, usize), Synced<'a>>,
}

/// What the definitions of a program say. It finds what they say of an element as fast among many as
/// among few.
#[derive(Drop)]
pub struct Facts<'s, 'a> {
    /// In the order of the source.
    all: &'s [Said<'s, 'a>],
    monitored: Monitored,
    syncs: Syncs<'a>,
}

impl<'s, 'a> Model for Facts<'s, 'a> {
    ghost use Rattle.std.specs.Prelude.{List, map};
    ghost use Rattle.snl_channels.specs.Links.{Said};
    ghost use Rattle.snl_channels.specs.LinkViews.{said_view};

    ghost Value = { List Said };

    ghost view = { λ s. map said_view s.all.now };

    ghost use Rattle.snl_channels.specs.Facts.{AreMonitored, AreSyncs};

    ghost invariant = { λ s. AreMonitored s.monitored (map said_view s.all.now)
        × AreSyncs s.syncs (map said_view s.all.now) };
}

impl Monitored {
    /// Notes that a part of a variable is monitored.
    fn note_part(&mut self, part: Part) -> Result<(), AllocError>
        ensures { OnOk result ((v k : ℕ) → monitored_in self.new v k
            ≡ (monitored_in self.old v k || spec.speaks_of part v k)) }
    {
        let variable = part.variable.offset as usize;
        match part.extent {
            Extent::Element(element) => {
                self.singles.insert((variable, element as usize))?;
            }
            Extent::Whole(_) | Extent::Front(_) => {
                self.wholes.insert(variable)?;
            }
        }
        Ok(())
    }

    /// Notes what a definition says.
    fn note(&mut self, said: &Said) -> Result<(), AllocError>
        ensures { OnOk result ((v k : ℕ) → monitored_in self.new v k
            ≡ (monitored_in self.old v k || spec.monitors v k (said_view said.now))) }
    {
        match said {
            Said::Monitored(part) => self.note_part(*part),
            _ => Ok(()),
        }
    }

    /// The elements that some definitions monitor.
    fn of<'s, 'a>(alloc: Global, all: &'s [Said<'s, 'a>]) -> Result<Monitored, AllocError>
        ensures { IfOk result (λ monitored. (v k : ℕ) → monitored_in monitored v k
            ≡ spec.is_monitored v k (map said_view all.now)) }
    {
        let mut monitored = Monitored {
            wholes: IndexSet::new(alloc),
            singles: IndexSet::new(alloc),
        };
        for said in all {
            monitored.note(said)?;
        }
        Ok(monitored)
    }

    /// Whether an element is monitored.
    fn has(&self, variable: usize, element: usize) -> bool
        ensures { result ≡ monitored_in self.now variable element }
    {
        self.wholes.contains(&variable) || self.singles.contains(&(variable, element))
    }
}

/// Notes what is said of a whole variable, if it is the first.
fn note_whole<'a>(
    wholes: &mut IndexMap<usize, Synced<'a>>,
    variable: usize,
    synced: Synced<'a>,
) -> Result<(), AllocError>
    ensures { OnOk result ((v : ℕ) → get nat_eq wholes.new v ≡ option_or
        (get nat_eq wholes.old v) (only_if (variable == v) synced.entry)) }
{
    if !wholes.contains_key(&variable) {
        wholes.insert(variable, synced)?;
    }
    Ok(())
}

/// Notes what is said of an element alone, if it is the first, and nothing was said of the whole.
fn note_single<'a>(
    wholes: &IndexMap<usize, Synced<'a>>,
    singles: &mut IndexMap<(usize, usize), Synced<'a>>,
    variable: usize,
    element: usize,
    synced: Synced<'a>,
) -> Result<(), AllocError>
    ensures { OnOk result ((v k : ℕ) → get same_pair singles.new (v, k) ≡ option_or
        (get same_pair singles.old (v, k))
        (alone_by (get nat_eq wholes.now v) (variable == v && element == k) synced.entry)) }
{
    if !wholes.contains_key(&variable) && !singles.contains_key(&(variable, element)) {
        singles.insert((variable, element), synced)?;
    }
    Ok(())
}

impl<'a> Syncs<'a> {
    /// Notes what is said of a part of a variable.
    fn note_part(&mut self, part: Part, synced: Synced<'a>) -> Result<(), AllocError>
        ensures { OnOk result ((v k : ℕ) (later : Option spec.Synced) → synced_in self.new v k later
            ≡ synced_in self.old v k (option_or
            (only_if (spec.speaks_of part v k) (synced_view synced.entry)) later)) }
    {
        let variable = part.variable.offset as usize;
        match part.extent {
            Extent::Element(element) => {
                note_single(
                    &self.wholes,
                    &mut self.singles,
                    variable,
                    element as usize,
                    synced,
                )
            }
            Extent::Whole(_) | Extent::Front(_) => note_whole(&mut self.wholes, variable, synced),
        }
    }

    /// Notes what a definition says.
    fn note(&mut self, said: &Said<'_, 'a>) -> Result<(), AllocError>
        ensures { OnOk result ((v k : ℕ) (later : Option spec.Synced) → synced_in self.new v k later
            ≡ synced_in self.old v k (option_or (spec.sync_by v k (said_view said.now)) later)) }
    {
        match said {
            Said::Synced { part, flag, queue } => {
                let synced = Synced {
                    flag: *flag,
                    queue: *queue,
                };
                self.note_part(*part, synced)
            }
            _ => Ok(()),
        }
    }

    /// What some definitions say first of each element.
    fn of<'s>(alloc: Global, all: &'s [Said<'s, 'a>]) -> Result<Syncs<'a>, AllocError>
        ensures { IfOk result (λ syncs. (v k : ℕ) → synced_in syncs v k None
            ≡ spec.first_sync v k (map said_view all.now)) }
    {
        let mut syncs = Syncs {
            wholes: IndexMap::new(alloc),
            singles: IndexMap::new(alloc),
        };
        for said in all {
            syncs.note(said)?;
        }
        Ok(syncs)
    }

    /// What is said of an element; no event flag and no queue where nothing is.
    fn synced(&self, variable: usize, element: usize) -> Synced<'a>
        ensures { synced_view result
            ≡ spec.synced_as (synced_in self.now variable element None) }
    {
        match self.singles.get(&(variable, element)) {
            Some(synced) => *synced,
            None => match self.wholes.get(&variable) {
                Some(synced) => *synced,
                None => Synced {
                    flag: None,
                    queue: 0,
                },
            },
        }
    }
}

impl<'s, 'a> Facts<'s, 'a> {
    /// What these definitions say. The only error is that memory ends.
    pub fn of(alloc: Global, all: &'s [Said<'s, 'a>]) -> Result<Facts<'s, 'a>, AllocError>
        ensures { IfOk result (λ facts. facts ≡ map said_view all.now) }
    {
        let monitored = Monitored::of(alloc, all)?;
        let syncs = Syncs::of(alloc, all)?;
        Ok(Facts {
            all,
            monitored,
            syncs,
        })
    }

    /// Whether an element of the variable that is declared at an offset is monitored.
    pub fn is_monitored(&self, variable: usize, element: usize) -> bool
        ensures { result ≡ spec.is_monitored variable element self.now }
    {
        self.monitored.has(variable, element)
    }

    /// What is said first of the event flag and the queue of an element.
    pub fn synced_as(&self, variable: usize, element: usize) -> Synced<'a>
        ensures { synced_view result
            ≡ spec.synced_as (spec.first_sync variable element self.now) }
    {
        self.syncs.synced(variable, element)
    }
}
