//! How many lines one run wrote alone.

use crate::filters::Filter;
use crate::kept_lines::kept;
use indexmap::IndexMap;
use std::alloc::{AllocError, Global};

/// How many lines each of two runs wrote that the other did not.
#[derive(Clone, Copy)]
pub(crate) struct Alone {
    pub(crate) old: u64,
    pub(crate) new: u64,
}

/// How often each line is among some.
fn counts_of(alloc: Global, lines: &[&[u8]]) -> Result<IndexMap<Vec<u8>, u64>, AllocError> {
    let mut counts = IndexMap::new(alloc);
    for line in lines {
        let line = Vec::from_slice(alloc, line)?;
        let count: u64 = counts.get(line.as_slice()).copied().unwrap_or(0);
        counts.insert(line, count.saturating_add(1))?;
    }
    Ok(counts)
}

/// How many of some lines are among others, each as often as it is there.
fn shared(counts: &mut IndexMap<Vec<u8>, u64>, lines: &[&[u8]]) -> u64 {
    let mut shared = 0u64;
    for line in lines {
        if let Some(left) = counts.get_mut(*line) {
            if *left > 0 {
                *left = left.saturating_sub(1);
                shared = shared.saturating_add(1);
            }
        }
    }
    shared
}

/// How many lines that are compared each of two texts has alone. The only error is that memory ends.
pub(crate) fn alone_in(
    alloc: Global,
    filter: Filter,
    old: &[u8],
    new: &[u8],
) -> Result<Alone, AllocError> {
    let lines = kept(alloc, filter, old)?;
    let others = kept(alloc, filter, new)?;
    let mut counts = counts_of(alloc, lines.as_slice())?;
    let both = shared(&mut counts, others.as_slice());
    Ok(Alone {
        old: (lines.len() as u64).saturating_sub(both),
        new: (others.len() as u64).saturating_sub(both),
    })
}
