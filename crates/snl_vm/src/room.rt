//! How many words a store holds.

ghost use Rattle.std.specs.Prelude.{◌≡◌, ◌+◌, IfSome};
ghost use Rattle.std.specs.List.{sum_by};
ghost use Rattle.snl_vm.specs.Footprint as spec;

use crate::marks::Marks;
use crate::queues::Queue;
use crate::stores::{SetMemory, Store};

/// A sum and the words of the state sets; None where that is 2^64 or more.
fn with_copies(sum: u64, copies: &[SetMemory]) -> Option<u64>
    ensures { IfSome result (λ words. words ≡ sum + sum_by spec.copy_words copies.now) }
{
    let mut words = sum;
    for copy in copies {
        words = words.checked_add(copy.words.len() as u64)?.checked_add(2)?;
    }
    Some(words)
}

/// A sum and the words of queues.
fn with_queues(sum: u64, queues: &[Queue]) -> Option<u64>
    ensures { IfSome result (λ words. words ≡ sum + sum_by spec.queue_words queues.now) }
{
    let mut words = sum;
    for queue in queues {
        words = words.checked_add(queue.capacity() as u64)?;
    }
    Some(words)
}

/// A sum and the words of marks.
fn with_marks(sum: u64, marks: &[Marks]) -> Option<u64>
    ensures { IfSome result (λ words. words ≡ sum + sum_by spec.mark_words marks.now) }
{
    let mut words = sum;
    for of_set in marks {
        words = words.checked_add(of_set.count() as u64)?;
    }
    Some(words)
}

/// How many words a store holds besides some others: all members of its arrays, the room of its rings, and five single words.
/// None where that is 2^64 or more.
pub fn words_with(store: &Store, others: usize) -> Option<u64>
    ensures { IfSome result (λ words. words ≡ spec.store_words store.now + others) }
{
    let words = with_copies(5, store.copies.as_slice())?;
    let words = words.checked_add(store.shared.len() as u64)?;
    let words = words.checked_add(store.buffers.len() as u64)?;
    let words = with_queues(words, store.queues.as_slice())?;
    let words = with_marks(words, store.marks.as_slice())?;
    let words = words.checked_add(store.flags.len() as u64)?;
    let words = words.checked_add(store.waiting.len() as u64)?;
    let words = words.checked_add(store.ups.len() as u64)?;
    let words = words.checked_add(store.valued.len() as u64)?;
    words.checked_add(others as u64)
}
