//! How many words the buffers and queues of links take.

ghost use Rattle.std.specs.Prelude.{◌≡◌, OnOk, IfOk};
ghost use Rattle.std.specs.List.{sum_by};
ghost use Rattle.snl_rules.specs.Words as spec;
ghost use Rattle.snl_rules.specs.Counts as counts;
ghost use Rattle.snl_rules.specs.Counts.{capped};

use crate::queues::queue_sizes;
use indexmap::IndexMap;
use snl_resolve::{Extent, Part, Site, Sort};
use std::alloc::{AllocError, Global};

/// How many elements a definition names.
fn count(extent: Extent) -> usize
    ensures { result ≡ spec.count extent }
{
    match extent {
        Extent::Whole(count) => count as usize,
        Extent::Front(count) => count as usize,
        Extent::Element(_) => 1,
    }
}

/// What an `assign` names, of the elements that there are.
fn assigned_of(sort: Sort, part: Option<Part>) -> Option<Part>
    ensures { result ≡ spec.assigned_of sort part }
{
    match sort {
        Sort::Assign => part,
        Sort::Monitor | Sort::Sync | Sort::Queue(_) => None,
    }
}

/// The same of a site.
fn assigned_by(site: &Site) -> Option<Part>
    ensures { result ≡ spec.assigned_by site.now }
{
    match site {
        Site::Defined { sort, part, .. } => assigned_of(*sort, *part),
        _ => None,
    }
}

/// The size of the queue of a variable; 0 where it has none.
fn size_in(sizes: &IndexMap<usize, u64>, variable: usize) -> u64
    ensures { result ≡ counts.size_in sizes.now variable }
{
    match sizes.get(&variable) {
        Some(size) => *size,
        None => 0,
    }
}

/// The words of the links that an `assign` makes, at most 2^64 - 1.
fn words_of_links(sizes: &IndexMap<usize, u64>, part: Option<Part>) -> u64
    ensures { result ≡ capped (spec.link_words (counts.size_in sizes.now) part) }
{
    match part {
        Some(part) => {
            let elements = count(part.extent) as u64;
            let queued = elements.saturating_mul(size_in(sizes, part.variable.offset as usize));
            elements.saturating_add(queued)
        }
        None => 0,
    }
}

/// The words of all links, at most 2^64 - 1.
fn words_by_sizes(sizes: &IndexMap<usize, u64>, sites: &[Site]) -> u64
    ensures { result ≡ capped (sum_by (λ s. spec.link_words (counts.size_in sizes.now)
        (spec.assigned_by s)) sites.now) }
{
    let mut words: u64 = 0;
    for site in sites {
        words = words.saturating_add(words_of_links(sizes, assigned_by(site)));
    }
    words
}

/// The words of the buffers and queues of all links, at most 2^64 - 1. Fails only where memory ends.
pub fn words_of_all_links(alloc: Global, sites: &[Site]) -> Result<u64, AllocError>
    ensures { IfOk result (λ words. words ≡ capped (spec.links_words sites.now)) }
{
    let sizes = queue_sizes(alloc, sites)?;
    let words = words_by_sizes(&sizes, sites);
    Ok(words)
}
