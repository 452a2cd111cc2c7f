//! How two runs are apart at a line, by what each wrote there and how it ended.

ghost use Rattle.std.specs.Prelude.{◌≡◌, ◌↔◌, ℕ, List, None, IfOk, IsTrue, map, option_map};
ghost use Rattle.snl_same.specs.Firsts as firsts;
ghost use Rattle.snl_same.specs.Kept as spec;
ghost use Rattle.snl_same.specs.Lines as meant;
ghost use Rattle.snl_same.specs.Lines.{AreApart, EndAlike};
ghost use Rattle.snl_same.specs.declared.filters.Filter.{Filter};

use crate::differences::Apart;
use crate::filters::Filter;
use crate::kept_lines::kept;
use snl_trace::End;
use std::alloc::{AllocError, Global};

/// An end, wherever in the source its fault stands.
fn placeless(end: End) -> End
    ensures { result ≡ meant.placeless end }
{
    match end {
        End::Fault(fault, _) => End::Fault(fault, 0),
        _ => end,
    }
}

/// The same of a run that may go on.
fn placeless_of(end: Option<End>) -> Option<End>
    ensures { result ≡ option_map meant.placeless end }
{
    match end {
        None => None,
        Some(end) => Some(placeless(end)),
    }
}

/// Whether two runs end alike, or both go on.
fn end_alike(old: Option<End>, new: Option<End>) -> bool
    ensures { IsTrue result ↔ EndAlike old new }
{
    placeless_of(old) == placeless_of(new)
}

/// The first two lines of two lists, at one place, that differ.
fn first_difference<'t>(
    lines: &[&'t [u8]],
    others: &[&'t [u8]],
) -> Option<(Option<&'t [u8]>, Option<&'t [u8]>)>
    ensures { option_map (λ d. (option_map (λ l. l.now) d.0, option_map (λ l. l.now) d.1)) result
        ≡ firsts.first_difference (map (λ l. l.now) lines.now) (map (λ l. l.now) others.now) }
{
    for (place, line) in lines.iter().enumerate() {
        match others.get(place) {
            None => return Some((Some(*line), None)),
            Some(other) => {
                if *line != *other {
                    return Some((Some(*line), Some(*other)));
                }
            }
        }
    }
    match others.get(lines.len()) {
        None => None,
        Some(other) => Some((None, Some(*other))),
    }
}

/// A line of its own, where there is one. The only error is that memory ends.
fn owned(alloc: Global, line: Option<&[u8]>) -> Result<Option<Vec<u8>>, AllocError>
    ensures { IfOk result (λ o. option_map (λ l. l.items) o ≡ option_map (λ l. l.now) line.entry) }
{
    match line {
        Some(line) => Ok(Some(Vec::from_slice(alloc, line)?)),
        None => Ok(None),
    }
}

/// The lines by which two texts are apart, where they are. The only error is that memory ends.
fn lines_apart(
    alloc: Global,
    filter: Filter,
    old: &[u8],
    new: &[u8],
) -> Result<Option<Apart>, AllocError>
    ensures { IfOk result (AreApart filter.entry old.now new.now None None) }
{
    let lines = kept(alloc, filter, old)?;
    let others = kept(alloc, filter, new)?;
    match first_difference(lines.as_slice(), others.as_slice()) {
        None => Ok(None),
        Some((line, other)) => {
            let line = owned(alloc, line)?;
            Ok(Some(Apart::Lines(line, owned(alloc, other)?)))
        }
    }
}

/// How two runs are apart that wrote the same: by their ends, or not at all.
fn ends_apart(old: Option<End>, new: Option<End>) -> Option<Apart>
    ensures { (f : Filter) (text other : List ℕ) → spec.kept f text ≡ spec.kept f other →
        AreApart f text other old new result }
{
    if end_alike(old, new) {
        None
    } else {
        Some(Apart::Ends)
    }
}

/// How two runs are apart at a line, by what each wrote there and how it ended: by the first two lines of the output that differ, as far
/// as a filter lets lines count; or, where these are the same, by their ends. None where they are not apart. The only error is that
/// memory ends.
pub fn apart_at(
    alloc: Global,
    filter: Filter,
    old: &[u8],
    new: &[u8],
    old_end: Option<End>,
    new_end: Option<End>,
) -> Result<Option<Apart>, AllocError>
    ensures { IfOk result (AreApart filter.entry old.now new.now old_end new_end) }
{
    if old == new {
        return Ok(ends_apart(old_end, new_end));
    }
    match lines_apart(alloc, filter, old, new)? {
        None => Ok(ends_apart(old_end, new_end)),
        Some(apart) => Ok(Some(apart)),
    }
}
