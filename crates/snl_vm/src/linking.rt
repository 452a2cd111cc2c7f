//! What is done with links: words that are copied to their buffers and queues or from them, event flags, marks.

ghost use Rattle.std.specs.Prelude.{◌≡◌, [], map, nat_lt, slice_index_or, slice_set, true, if◌then◌else◌};
ghost use Rattle.snl_meaning.specs.Links as spec;
ghost use Rattle.snl_meaning.specs.World.{copy_of, overwritten, words_at};
ghost use Rattle.snl_vm.specs.AllHomes.{homes_views};
ghost use Rattle.snl_vm.specs.Marks.{marks_of};
ghost use Rattle.snl_vm.specs.Queues.{queue_view};
ghost use Rattle.snl_vm.specs.Views.{world_of};

use crate::all_homes::AllHomes;
use crate::elements::{put_after, word_after};
use crate::marks::Marks;
use crate::queues::Queue;
use crate::stores::Store;
use snl_meaning::Tied;

/// Puts numbers into words, from a place on. Those for which there is no word are dropped. Most channels have one element.
pub fn fill(words: &mut Vec<i64>, place: usize, numbers: &[i64])
    ensures { words.new.items ≡ overwritten words.old.items place numbers.now }
{
    match numbers {
        [number] => put_after(words, place, 0, *number),
        _ => fill_all(words, place, numbers),
    }
}

/// The same, one number after another.
#[inline(never)]
fn fill_all(words: &mut Vec<i64>, place: usize, numbers: &[i64])
    ensures { words.new.items ≡ overwritten words.old.items place numbers.now }
{
    for (after, number) in numbers.iter().enumerate() {
        put_after(words, place, after, *number);
    }
}

/// Copies so many words, from a place on, to another place of other words. Where there is no word to copy it is 0. Most links
/// have one element.
fn overwrite(words: &mut Vec<i64>, to: usize, others: &[i64], from: usize, count: usize)
    ensures { words.new.items ≡ overwritten words.old.items to (words_at others.now from count) }
{
    if count == 1 {
        put_after(words, to, 0, word_after(others, from, 0));
    } else {
        overwrite_all(words, to, others, from, count);
    }
}

/// The same, one word after another.
fn overwrite_all(words: &mut Vec<i64>, to: usize, others: &[i64], from: usize, count: usize)
    ensures { words.new.items ≡ overwritten words.old.items to (words_at others.now from count) }
{
    for number in 0..count {
        put_after(words, to, number, word_after(others, from, number));
    }
}

/// Copies the buffer of a link into a state set's copy, from a word on.
pub fn fetch(set: usize, place: usize, tie: Tied, store: &mut Store)
    ensures { world_of store.new ≡ spec.with_elements set place
        (spec.buffer_of tie (world_of store.old)) (world_of store.old) }
{
    let buffers = store.buffers.as_slice();
    if let Some(copy) = store.copies.get_mut(set) {
        overwrite(&mut copy.words, place, buffers, tie.from, tie.count);
    }
}

/// Sets an event flag, if there is one.
fn signal(flag: Option<usize>, store: &mut Store)
    ensures { world_of store.new ≡ spec.flagged flag (world_of store.old) }
{
    if let Some(flag) = flag {
        store.set_flag(flag, true);
    }
}

/// Clears an event flag, if there is one.
pub fn unsignal(flag: Option<usize>, store: &mut Store)
    ensures { world_of store.new ≡ spec.unflagged flag (world_of store.old) }
{
    if let Some(flag) = flag {
        store.set_flag(flag, false);
    }
}

/// Words from a place on come to the queue of a link as one item, if it has a queue. Answers whether it has.
#[inline(always)]
fn enqueue(link: usize, words: &[i64], place: usize, queues: &mut Vec<Queue>) -> bool
    ensures there { result
        ≡ nat_lt 0 (slice_index_or (map queue_view queues.old.items) link spec.no_queue).size }
    ensures put { map queue_view queues.new.items
        ≡ (if result then slice_set (map queue_view queues.old.items) link
        (spec.put_into words.now place
        (slice_index_or (map queue_view queues.old.items) link spec.no_queue))
        else map queue_view queues.old.items) }
{
    match queues.get_mut(link) {
        None => false,
        Some(queue) => {
            if queue.size() == 0 {
                return false;
            }
            queue.put(words, place);
            true
        }
    }
}

/// Marks a link for a state set.
fn mark_in(marks: &mut Vec<Marks>, set: usize, link: usize)
    ensures { map marks_of marks.new.items ≡ slice_set (map marks_of marks.old.items) set
        (slice_set (slice_index_or (map marks_of marks.old.items) set []) link true) }
{
    if let Some(of_set) = marks.get_mut(set) {
        of_set.mark(link);
    }
}

/// Whether a state set is the one that is left out, if one is.
fn is_left_out(but: Option<usize>, set: usize) -> bool
    ensures { result ≡ spec.is_left_out but set }
{
    match but {
        None => false,
        Some(own) => own == set,
    }
}

/// Marks a link for all state sets that have its variable, but for one. It takes no walk over the others.
fn mark(but: Option<usize>, link: usize, homes: &AllHomes, marks: &mut Vec<Marks>)
    ensures { map marks_of marks.new.items ≡ spec.marked_from but link 0
        (homes_views homes.now.sets.items) (map marks_of marks.old.items) }
{
    for set in homes.takers(link) {
        if !is_left_out(but, *set) {
            mark_in(marks, *set, link);
        }
    }
}

/// Marks a link that is monitored for all state sets that have its variable, but for one.
fn mark_monitored(but: Option<usize>, link: usize, tie: Tied, store: &mut Store)
    ensures { world_of store.new ≡ spec.marked but link tie (world_of store.old) }
{
    if tie.is_monitored {
        mark(but, link, &store.homes, &mut store.marks);
    }
}

/// What is in the buffer of a link is announced: the whole buffer comes to its queue, or where it has none, it is marked for
/// all state sets that have its variable.
fn announce(link: usize, tie: Tied, store: &mut Store)
    ensures { world_of store.new ≡ spec.announced link tie (world_of store.old) }
{
    let is_queued = enqueue(link, store.buffers.as_slice(), tie.from, &mut store.queues);
    if !is_queued {
        mark(None, link, &store.homes, &mut store.marks);
    }
}

/// Numbers came from the channel of a link to its buffer: where the link is monitored, they are announced, and its event flag
/// is set.
pub fn notice(link: usize, tie: Tied, store: &mut Store)
    ensures { world_of store.new ≡ spec.noticed link tie (world_of store.old) }
{
    if tie.is_monitored {
        announce(link, tie, store);
        signal(tie.flag, store);
    }
}

/// Copies the elements of a link from a state set's copy into the link's buffer.
fn keep(set: usize, place: usize, tie: Tied, store: &mut Store)
    ensures { world_of store.new ≡ spec.with_buffer tie
        (spec.elements_at set place tie (world_of store.old)) (world_of store.old) }
{
    match store.copies.get(set) {
        Some(copy) => overwrite(
            &mut store.buffers,
            tie.from,
            copy.words.as_slice(),
            place,
            tie.count,
        ),
        None => overwrite(&mut store.buffers, tie.from, &[], place, tie.count),
    }
}

/// The elements of a link come from a state set's copy to the link's queue as one item, if it has a queue. Answers whether it
/// has.
fn enqueue_elements(set: usize, place: usize, link: usize, store: &mut Store) -> bool
    ensures there { result ≡ spec.is_queued link (world_of store.old) }
    ensures put { world_of store.new ≡ (if result then spec.enqueued link
        (copy_of set (world_of store.old)).words place (world_of store.old)
        else world_of store.old) }
{
    match store.copies.get(set) {
        Some(copy) => enqueue(link, copy.words.as_slice(), place, &mut store.queues),
        None => enqueue(link, &[], place, &mut store.queues),
    }
}

/// The elements of a link stand in its queue, or where it has none in its buffer; then, where it is monitored, it is marked
/// for the other state sets.
fn keep_for(set: usize, place: usize, link: usize, tie: Tied, store: &mut Store)
    ensures { world_of store.new ≡ spec.kept_for set place link tie (world_of store.old) }
{
    let is_queued = enqueue_elements(set, place, link, store);
    if !is_queued {
        keep(set, place, tie, store);
        mark_monitored(Some(set), link, tie, store);
    }
}

/// A state set puts the elements of a link that has no channel: they are kept for the others, and its event flag is set.
pub fn hand_over(set: usize, place: usize, link: usize, tie: Tied, store: &mut Store)
    ensures { world_of store.new ≡ spec.handed_over set place link tie (world_of store.old) }
{
    keep_for(set, place, link, tie, store);
    signal(tie.flag, store);
}
