//! What variables, and the buffers of their links, begin with.

ghost use Rattle.std.specs.Prelude.{◌≡◌, ◌++◌, ◌+◌, drop, map, option_map, pos, replicate, slice_get, OnOk, IfOk};
ghost use Rattle.std.specs.List.{flat_map};
ghost use Rattle.snl_channels.specs.LinkViews.{link_view};
ghost use Rattle.snl_meaning.specs.Effect.{values_of};
ghost use Rattle.snl_names.specs.Constants.{constant_of};
ghost use Rattle.snl_names.specs.CopyVariables.{begun, variable_view};
ghost use Rattle.snl_names.specs.Scopes.{is_hidden};
ghost use Rattle.snl_syntax.specs.view.Expressions.{boxed, view};
ghost use Rattle.snl_flat.specs.Copies.{sets_of};
ghost use Rattle.snl_load.specs.Initials as spec;
ghost use Rattle.snl_load.specs.Offsets.{first_of, offsets_of};

use snl_channels::Link;
use snl_meaning::Offsets;
use snl_resolve::{Constant, CopyVariable, Scopes, constant_of};
use snl_syntax::{Expr, Initialiser};
use snl_text::Pos;
use std::alloc::{AllocError, Global};

/// What a constant is worth in a range of numbers, and 0 where it has no place there.
fn worth_in(range: (i64, i64), constant: Constant) -> i64
    ensures { result ≡ spec.worth_in range constant }
{
    match constant {
        Constant::Worth(number) if range.0 <= number && number <= range.1 => number,
        _ => 0,
    }
}

/// The value in a list that stands so many values after another one, if it is there.
fn listed<'p, 'a>(each: &'p [Box<Expr<'a>>], from: usize, more: usize) -> Option<&'p Expr<'a>>
    ensures { option_map (λ e. view e.now) result ≡ slice_get (map boxed each.now) (from + more) }
{
    if each.len() <= from || each.len() - from <= more {
        return None;
    }
    Some(&*each[from + more])
}

/// The value that is written for the element that stands so many elements after another one, if one is written.
#[tactic(auto, using(crate::proofs::Listed::values_listed))]
fn value_for<'p, 'a>(
    initial: Option<&'p Initialiser<'a>>,
    from: usize,
    more: usize,
) -> Option<&'p Expr<'a>>
    ensures { option_map (λ e. view e.now) result
        ≡ slice_get (values_of (begun initial.entry)) (from + more) }
{
    match initial {
        None => None,
        Some(Initialiser::Single(value)) => {
            if from == 0 && more == 0 {
                Some(value)
            } else {
                None
            }
        }
        Some(Initialiser::List(values)) => listed(values.each.as_slice(), from, more),
    }
}

/// What the element begins with that stands so many elements after another one.
fn first_element(held: &CopyVariable, from: usize, more: usize) -> i64
    ensures { result ≡ spec.first_element (variable_view held.now) (from + more) }
{
    match value_for(held.initial, from, more) {
        Some(value) => worth_in(held.range, constant_of(value, &Scopes::Outside)),
        None => 0,
    }
}

/// Adds what so many elements of a variable begin with, from one on.
fn push_elements(
    held: &CopyVariable,
    from: usize,
    count: usize,
    words: &mut Vec<i64>,
) -> Result<(), AllocError>
    ensures { OnOk result (words.new.items
        ≡ words.old.items ++ spec.first_elements (variable_view held.now) from count) }
{
    for more in 0..count {
        words.push(first_element(held, from, more))?;
    }
    Ok(())
}

/// What the variables of a copy begin with, one variable after another. The only error is that memory ends.
pub fn first_words(alloc: Global, variables: &[CopyVariable]) -> Result<Vec<i64>, AllocError>
    ensures { IfOk result (λ words. words.items
        ≡ flat_map spec.all_elements (map variable_view variables.now)) }
{
    let mut words = Vec::new(alloc);
    for number in 0..variables.len() {
        let held = &variables[number];
        push_elements(held, 0, held.size.elements(), &mut words)?;
    }
    Ok(words)
}

/// How many bytes of the source stand before a place.
fn offset_of(pos: Pos) -> usize
    ensures { result ≡ pos.offset }
{
    pos.offset as usize
}

/// The variable that is declared at an offset, among those of a copy.
fn held_in<'p, 'a>(
    variables: &[CopyVariable<'p, 'a>],
    offset: usize,
) -> Option<CopyVariable<'p, 'a>>
    ensures { option_map variable_view result
        ≡ spec.held_in (map variable_view variables.now) offset }
{
    for number in 0..variables.len() {
        let held = variables[number];
        if offset_of(held.name.pos) == offset {
            return Some(held);
        }
    }
    None
}

/// The same, in the first copy that has it.
fn held_among<'p, 'a>(
    sets: &[Vec<CopyVariable<'p, 'a>>],
    offset: usize,
) -> Option<CopyVariable<'p, 'a>>
    ensures { option_map variable_view result ≡ spec.held_among (sets_of sets.now) offset }
{
    for variables in sets {
        if let Some(held) = held_in(variables.as_slice(), offset) {
            return Some(held);
        }
    }
    None
}

/// Where variables are declared, each found by its number. The only error is that memory ends.
fn offsets_of(alloc: Global, variables: &[CopyVariable]) -> Result<Offsets, AllocError>
    ensures { IfOk result (λ offsets. offsets
        ≡ offsets_of (map variable_view variables.now)) }
{
    let mut offsets = Vec::new(alloc);
    for number in 0..variables.len() {
        offsets.push(offset_of(variables[number].name.pos))?;
    }
    Offsets::of(alloc, offsets)
}

/// The copies after the first.
fn after_first<'s, 'p, 'a>(sets: &'s [Vec<CopyVariable<'p, 'a>>]) -> &'s [Vec<CopyVariable<'p, 'a>>]
    ensures { result.now ≡ drop 1 sets.now }
{
    if sets.is_empty() {
        return sets;
    }
    &sets[1..]
}

/// The same of the variables of the first copy. The only error is that memory ends.
fn first_offsets(alloc: Global, sets: &[Vec<CopyVariable>]) -> Result<Offsets, AllocError>
    ensures { IfOk result (λ offsets. offsets
        ≡ offsets_of (first_of (sets_of sets.now))) }
{
    if sets.is_empty() {
        return Offsets::of(alloc, Vec::new(alloc));
    }
    offsets_of(alloc, sets[0].as_slice())
}

/// The variable that is declared at an offset, in the first copy that has it. Those of the first copy, which has most of
/// them, are found by their offsets, as fast among many as among few.
fn held_by<'p, 'a>(
    sets: &[Vec<CopyVariable<'p, 'a>>],
    offsets: &Offsets,
    offset: usize,
) -> Option<CopyVariable<'p, 'a>>
    requires { offsets.now ≡ offsets_of (first_of (sets_of sets.now)) }
    ensures { option_map variable_view result ≡ spec.held_among (sets_of sets.now) offset }
{
    if sets.is_empty() {
        return None;
    }
    let first = sets[0].as_slice();
    let number = offsets.number(offset);
    if number < first.len() {
        return Some(first[number]);
    }
    held_among(after_first(sets), offset)
}

/// Adds so many zeros. The only error is that memory ends.
pub fn push_zeros(count: usize, words: &mut Vec<i64>) -> Result<(), AllocError>
    ensures { OnOk result (words.new.items ≡ words.old.items ++ replicate count (pos 0)) }
{
    for _more in 0..count {
        words.push(0)?;
    }
    Ok(())
}

/// Adds what the buffer of a link begins with, among the variables of these copies. The only error is that memory ends.
fn push_buffer(
    sets: &[Vec<CopyVariable>],
    offsets: &Offsets,
    link: &Link,
    words: &mut Vec<i64>,
) -> Result<(), AllocError>
    requires { offsets.now ≡ offsets_of (first_of (sets_of sets.now)) }
    ensures { OnOk result (words.new.items ≡ words.old.items
        ++ spec.first_buffer (sets_of sets.now) (link_view link.now)) }
{
    match held_by(sets, offsets, link.variable.offset as usize) {
        Some(held) => push_elements(&held, link.first, link.count, words),
        None => push_zeros(link.count, words),
    }
}

/// What the buffers of links of these copies' variables begin with, one buffer after another. The only error is that
/// memory ends.
pub fn first_buffers(
    alloc: Global,
    sets: &[Vec<CopyVariable>],
    links: &[Link],
) -> Result<Vec<i64>, AllocError>
    ensures { IfOk result (λ words. words.items
        ≡ flat_map (spec.first_buffer (sets_of sets.now)) (map link_view links.now)) }
{
    let offsets = first_offsets(alloc, sets)?;
    let mut words = Vec::new(alloc);
    for link in links {
        push_buffer(sets, &offsets, link, &mut words)?;
    }
    Ok(words)
}
