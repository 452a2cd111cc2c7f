//! The store of a program before the first event.

ghost use Rattle.std.specs.Prelude.{◌≡◌, map, false, replicate, IfOk};
ghost use Rattle.snl_channels.specs.LinkViews.{link_view};
ghost use Rattle.snl_vm.specs.Views.{copy_view, world_of};
ghost use Rattle.snl_flat.specs.Copies.{sets_of, variables_in};
ghost use Rattle.snl_names.specs.CopyVariables.{variable_view};
ghost use Rattle.snl_load.specs.First as spec;
ghost use Rattle.snl_vm.specs.Marks as tables;
ghost use Rattle.snl_vm.specs.Queues.{queue_view};
ghost use Rattle.snl_load.specs.Places as places;
ghost use Rattle.snl_load.specs.Sets.{names_in};

use crate::initials::{first_buffers, first_words, push_zeros};
use crate::links::homes_in;
use indexmap::IndexSet;
use snl_channels::Link;
use snl_flat::Copies;
use snl_meaning::{Live, Tied};
use snl_resolve::CopyVariable;
use snl_vm::{Marks, Queue, SetMemory, Store};
use std::alloc::{AllocError, Global};

/// The copies of all state sets.
fn first_copies(alloc: Global, sets: &[Vec<CopyVariable>]) -> Result<Vec<SetMemory>, AllocError>
    ensures { IfOk result (λ made. map copy_view made.items
        ≡ map spec.first_copy (sets_of sets.now)) }
{
    let mut made = Vec::new(alloc);
    for variables in sets {
        let words = first_words(alloc, variables.as_slice())?;
        made.push(SetMemory {
            words,
            state: 0,
            entered: 0,
        })?;
    }
    Ok(made)
}

/// The words of the variables of functions.
fn first_shared(alloc: Global, shared: &[CopyVariable]) -> Result<Vec<i64>, AllocError>
    ensures { IfOk result (λ words. words.items
        ≡ spec.first_shared (map variable_view shared.now)) }
{
    let mut words = Vec::new(alloc);
    for number in 0..shared.len() {
        push_zeros(shared[number].size.elements(), &mut words)?;
    }
    Ok(words)
}

/// The names of channels, by their numbers.
fn names_of(alloc: Global, names: &IndexSet<Vec<u8>>) -> Result<Vec<Vec<u8>>, AllocError>
    ensures { IfOk result (λ kept. map (λ name. name.items) kept.items ≡ names_in names.now) }
{
    let mut kept = Vec::new(alloc);
    for name in names.as_slice() {
        let copied = Vec::from_slice(alloc, name.as_slice())?;
        kept.push(copied)?;
    }
    Ok(kept)
}

/// No link is marked for any state set.
fn marks_of(
    alloc: Global,
    sets: &[Vec<CopyVariable>],
    links: usize,
) -> Result<Vec<Marks>, AllocError>
    ensures { IfOk result (λ marks. map tables.marks_of marks.items
        ≡ map (λ vs. replicate links false) (sets_of sets.now)) }
{
    let mut marks = Vec::new(alloc);
    for _variables in sets {
        let of_set = Marks::new(alloc, links)?;
        marks.push(of_set)?;
    }
    Ok(marks)
}

/// The queues of all links, which hold nothing.
fn queues_of(alloc: Global, links: &[Link]) -> Result<Vec<Queue>, AllocError>
    ensures { IfOk result (λ queues. map queue_view queues.items
        ≡ map spec.first_queue (map link_view links.now)) }
{
    let mut queues = Vec::new(alloc);
    for link in links {
        let queue = Queue::new(alloc, link.queue as usize, link.count)?;
        queues.push(queue)?;
    }
    Ok(queues)
}

/// The store of a program that waits for its start, by the variables of its copies and of its functions, how many event flags
/// it has, its links with their ties, and the names of its channels. The only error is that memory ends.
pub fn store_of(
    alloc: Global,
    copies: &Copies,
    flags: usize,
    links: &[Link],
    ties: &[Tied],
    names: &IndexSet<Vec<u8>>,
) -> Result<Store, AllocError>
    ensures { IfOk result (λ store. world_of store ≡ spec.first_world
        (sets_of copies.now.held.items) (variables_in copies.now.shared) flags
        (names_in names.now) ties.now
        (places.homes_in copies.now.places.items (map link_view links.now))
        (map link_view links.now)) }
{
    let sets = copies.held.as_slice();
    let shared = copies.shared.as_slice();
    let places = copies.places.as_slice();
    Ok(Store {
        time: 0,
        phase: Live::Waiting,
        ticks: 0,
        wake: None,
        due: None,
        copies: first_copies(alloc, sets)?,
        shared: first_shared(alloc, shared)?,
        flags: vec![in alloc; false; flags]?,
        channels: names_of(alloc, names)?,
        ups: vec![in alloc; false; names.len()]?,
        valued: vec![in alloc; false; names.len()]?,
        ties: Vec::from_slice(alloc, ties)?,
        homes: homes_in(alloc, places, links)?,
        buffers: first_buffers(alloc, sets, links)?,
        marks: marks_of(alloc, sets, links.len())?,
        queues: queues_of(alloc, links)?,
        waiting: vec![in alloc; false; links.len()]?,
        awaited: 0,
    })
}
