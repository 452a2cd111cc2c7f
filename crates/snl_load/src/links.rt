//! Where the values of links stand: in buffers, and in the words of their variables; and which event flags they set.

ghost use Rattle.std.specs.Prelude.{◌≡◌, map, option_map, IfOk};
ghost use Rattle.snl_channels.specs.LinkViews.{link_view};
ghost use Rattle.snl_meaning.specs.Names.{number_at};
ghost use Rattle.snl_load.specs.Places as spec;
ghost use Rattle.snl_load.specs.Sets.{names_in};

use crate::channels::channel_number;
use indexmap::IndexSet;
use snl_channels::Link;
use snl_meaning::{Offsets, Places, Tied, Variable};
use snl_vm::{AllHomes, Homes};
use std::alloc::{AllocError, Global};

/// Where the elements of a link begin in a copy, if that has the link's variable.
fn home_in(places: &Places, link: &Link) -> Option<usize>
    ensures { result ≡ spec.home_in places.now (link_view link.now) }
{
    match places.variable(link.variable.offset as usize) {
        Some(variable) => Some(variable.place.saturating_add(link.first)),
        None => None,
    }
}

/// The words of a copy where the elements of each link begin.
fn homes_of(alloc: Global, places: &Places, links: &[Link]) -> Result<Homes, AllocError>
    ensures { IfOk result (λ homes. homes.places.items
        ≡ map (spec.home_in places.now) (map link_view links.now)) }
{
    let mut homes = Vec::new(alloc);
    for link in links {
        homes.push(home_in(places, link))?;
    }
    Homes::new(alloc, homes)
}

/// The words where the elements of each link begin, in each copy that has its variable. The only error is that memory ends.
pub fn homes_in(alloc: Global, copies: &[Places], links: &[Link]) -> Result<AllHomes, AllocError>
    ensures { IfOk result (λ homes. map (λ h. h.places.items) homes.sets.items
        ≡ spec.homes_in copies.now (map link_view links.now)) }
{
    let mut homes = Vec::new(alloc);
    for places in copies {
        let of_copy = homes_of(alloc, places, links)?;
        homes.push(of_copy)?;
    }
    AllHomes::new(alloc, homes)
}

/// The variable that is declared at an offset, by the first copy that has it.
fn variable_among(copies: &[Places], offset: usize) -> Option<Variable>
    ensures { result ≡ spec.variable_among copies.now offset }
{
    for places in copies {
        if let Some(variable) = places.variable(offset) {
            return Some(variable);
        }
    }
    None
}

/// The number of the event flag of a link, if it has one.
fn flag_of(link: &Link, flags: &Offsets) -> Option<usize>
    ensures { result ≡ option_map (λ f. number_at flags.now f.offset)
        (link_view link.now).flag }
{
    match link.flag {
        Some(flag) => Some(flags.number(flag.offset as usize)),
        None => None,
    }
}

/// What never changes of a link whose buffer begins at a place.
fn tie_of(
    link: &Link,
    from: usize,
    names: &IndexSet<Vec<u8>>,
    flags: &Offsets,
    copies: &[Places],
) -> Tied
    ensures { result ≡ spec.tie_of (names_in names.now) flags.now copies.now from
        (link_view link.now) }
{
    let (least, greatest) = match variable_among(copies, link.variable.offset as usize) {
        Some(variable) => (variable.least, variable.greatest),
        None => (0, 0),
    };
    Tied {
        channel: channel_number(names, link.name.as_slice()),
        is_monitored: link.monitored,
        flag: flag_of(link, flags),
        from,
        count: link.count,
        least,
        greatest,
    }
}

/// What never changes of links, with the names of the channels, the event flags of the program and the variables of its
/// copies; the buffers of the links stand one after another. The only error is that memory ends.
pub fn ties_of(
    alloc: Global,
    links: &[Link],
    names: &IndexSet<Vec<u8>>,
    flags: &Offsets,
    copies: &[Places],
) -> Result<Vec<Tied>, AllocError>
    ensures { IfOk result (λ ties. ties.items ≡ spec.ties_from (names_in names.now)
        flags.now copies.now 0 (map link_view links.now)) }
{
    let mut ties = Vec::new(alloc);
    let mut from = 0usize;
    for link in links {
        ties.push(tie_of(link, from, names, flags, copies))?;
        from = from.saturating_add(link.count);
    }
    Ok(ties)
}
