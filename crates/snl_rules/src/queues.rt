//! The queues of variables.

ghost use Rattle.std.specs.Prelude.{◌≡◌, ℕ, nat_eq, Some, OnOk, IfOk};
ghost use Rattle.std.specs.HashMap.{get};
ghost use Rattle.snl_names.specs.Scopes.{or_in};
ghost use Rattle.snl_rules.specs.Words as spec;
ghost use Rattle.snl_rules.specs.Counts.{IsQueueTable};

use indexmap::IndexMap;
use snl_resolve::{Part, Site, Sort};
use std::alloc::{AllocError, Global};

/// The variable that a `syncQ` names, by the place of its declaration, and the size of its queue.
fn queue_of(sort: Sort, part: Option<Part>) -> Option<(usize, u64)>
    ensures { result ≡ spec.queue_of sort part }
{
    match sort {
        Sort::Queue(size) => match part {
            Some(part) => Some((part.variable.offset as usize, size)),
            None => None,
        },
        Sort::Assign | Sort::Monitor | Sort::Sync => None,
    }
}

/// The same of a site.
fn queue_by(site: &Site) -> Option<(usize, u64)>
    ensures { result ≡ spec.queue_by site.now }
{
    match site {
        Site::Defined { sort, part, .. } => queue_of(*sort, *part),
        _ => None,
    }
}

/// Adds the queue of a variable to a table, if the variable has none before.
fn note_size(variable: usize, size: u64, sizes: &mut IndexMap<usize, u64>) -> Result<(), AllocError>
    ensures { OnOk result ((q : ℕ) → get nat_eq sizes.new q
        ≡ or_in (get nat_eq sizes.old q) (spec.queue_at (Some (variable, size)) q)) }
{
    if sizes.contains_key(&variable) {
        return Ok(());
    }
    sizes.insert(variable, size)?;
    Ok(())
}

/// The same of a queue that may be missing.
fn note_queue(
    queue: Option<(usize, u64)>,
    sizes: &mut IndexMap<usize, u64>,
) -> Result<(), AllocError>
    ensures { OnOk result ((q : ℕ) → get nat_eq sizes.new q
        ≡ or_in (get nat_eq sizes.old q) (spec.queue_at queue q)) }
{
    if let Some((variable, size)) = queue {
        note_size(variable, size, sizes)?;
    }
    Ok(())
}

/// The size of the queue of each variable that has one, by the place of its declaration: that of the
/// first `syncQ` that names it. Fails only where memory ends.
pub fn queue_sizes(alloc: Global, sites: &[Site]) -> Result<IndexMap<usize, u64>, AllocError>
    ensures { IfOk result (λ sizes. IsQueueTable sizes sites.now) }
{
    let mut sizes = IndexMap::new(alloc);
    for site in sites {
        note_queue(queue_by(site), &mut sizes)?;
    }
    Ok(sizes)
}
