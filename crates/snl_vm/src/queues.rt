//! The queue of a link: what came to the link and was not taken yet, the oldest first, in room that was made before.

ghost use Rattle.std.specs.Prelude.{◌≡◌, ◌+◌, ◌*◌, ◌<◌, ◌≤◌, ◌++◌, ◌∷◌, [], drop, length, not, pos, slice_index_or, IfOk, OnOk};
ghost use Rattle.snl_meaning.specs.Queues.{kept, put_in};
ghost use Rattle.snl_meaning.specs.World.{words_at, overwritten};

use crate::elements::{put_after, word_after};
use circular_buffer::HeapCircularBuffer;
use std::alloc::{AllocError, Global};

/// A queue. Its items have the same number of words each, and stand one after another in one ring.
#[derive(Drop)]
pub struct Queue {
    ring: HeapCircularBuffer<i64>,
    size: usize,
    width: usize,
    held: usize,
    ghost room: { ring.capacity ≡ size * width },
    ghost whole: { length ring.items ≡ held * width },
    ghost within: { held ≤ size },
}

/// One word more in a ring that has room for it.
fn append(ring: &mut HeapCircularBuffer<i64>, word: i64)
    requires { length ring.old.items < ring.old.capacity }
    ensures items { ring.new.items ≡ ring.old.items ++ word ∷ [] }
    ensures capacity { ring.new.capacity ≡ ring.old.capacity }
{
    ring.push_back(word);
}

/// So many words more, from a place on; 0 where there is none.
fn append_all(ring: &mut HeapCircularBuffer<i64>, words: &[i64], place: usize, count: usize)
    requires { length ring.old.items + count ≤ ring.old.capacity }
    ensures items { ring.new.items ≡ ring.old.items ++ words_at words.now place count }
    ensures capacity { ring.new.capacity ≡ ring.old.capacity }
{
    for number in 0..count {
        append(ring, word_after(words, place, number));
    }
}

/// A word of a ring; 0 where there is none.
fn word_in(ring: &HeapCircularBuffer<i64>, number: usize) -> i64
    ensures { slice_index_or ring.now.items number (pos 0) ≡ result }
{
    match ring.get(number) {
        Some(word) => *word,
        None => 0,
    }
}

/// Copies the first words of a ring to words from a place on.
fn copy_front(ring: &HeapCircularBuffer<i64>, words: &mut Vec<i64>, place: usize, count: usize)
    ensures { words.new.items
        ≡ overwritten words.old.items place (words_at ring.now.items 0 count) }
{
    for number in 0..count {
        put_after(words, place, number, word_in(ring, number));
    }
}

impl Queue {
    ghost use Rattle.snl_vm.specs.Pictures.{IsReadFrom, QueueFits, queue_picture};
    ghost use Rattle.snl_vm.specs.Queues.{items_of, is_there, oldest_to, queue_view, room_of_queue};

    /// Room for so many items of so many words. The only error is that memory ends.
    pub fn new(alloc: Global, size: usize, width: usize) -> Result<Self, AllocError>
        ensures items { IfOk result (λ queue. items_of queue ≡ []) }
        ensures size { IfOk result (λ queue. queue.size ≡ size) }
        ensures width { IfOk result (λ queue. queue.width ≡ width) }
    {
        let ring = HeapCircularBuffer::with_capacity(alloc, size.saturating_mul(width))?;
        let _room = ring.capacity();
        Ok(Queue {
            ring,
            size,
            width,
            held: 0,
        })
    }

    /// How many items it can hold; 0 where the link has no queue.
    pub fn size(&self) -> usize
        ensures { result ≡ self.now.size }
    {
        self.size
    }

    /// How many words it has room for.
    pub fn capacity(&self) -> usize
        ensures { result ≡ self.now.ring.capacity }
    {
        self.ring.capacity()
    }

    /// How many words its items have.
    pub fn held_words(&self) -> usize
        ensures { result ≡ length self.now.ring.items }
    {
        self.ring.len()
    }

    /// Whether it holds no item.
    pub fn is_empty(&self) -> bool
        ensures { result ≡ not (is_there (items_of self.now)) }
    {
        self.held == 0
    }

    /// Drops the newest item of a full queue.
    fn make_room(&mut self)
        requires { 0 < self.old.size }
        ensures items { items_of self.new ≡ kept self.old.size (items_of self.old) }
        ensures room { self.new.held < self.new.size }
        ensures size { self.new.size ≡ self.old.size }
        ensures width { self.new.width ≡ self.old.width }
    {
        if self.held < self.size {
            return;
        }
        let kept = self.ring.len() - self.width;
        self.ring.truncate_back(kept);
        self.held -= 1;
    }

    /// Puts an item at the end of a queue that has room for it.
    fn add(&mut self, words: &[i64], place: usize)
        requires { self.old.held < self.old.size }
        ensures items { items_of self.new
            ≡ items_of self.old ++ words_at words.now place self.old.width ∷ [] }
        ensures size { self.new.size ≡ self.old.size }
        ensures width { self.new.width ≡ self.old.width }
    {
        append_all(&mut self.ring, words, place, self.width);
        self.held += 1;
    }

    /// Puts an item at the end: the words from a place on, 0 where there are none. A full queue has it in the place of its
    /// newest item.
    pub fn put(&mut self, words: &[i64], place: usize)
        requires { 0 < self.old.size }
        ensures items { items_of self.new
            ≡ put_in self.old.size (words_at words.now place self.old.width) (items_of self.old) }
        ensures size { self.new.size ≡ self.old.size }
        ensures width { self.new.width ≡ self.old.width }
    {
        self.make_room();
        self.add(words, place);
    }

    /// Drops the oldest item. Answers whether there was one.
    pub fn skip(&mut self) -> bool
        ensures there { result ≡ is_there (items_of self.old) }
        ensures items { items_of self.new ≡ drop 1 (items_of self.old) }
        ensures size { self.new.size ≡ self.old.size }
        ensures width { self.new.width ≡ self.old.width }
    {
        if self.held == 0 {
            return false;
        }
        let left = self.ring.len() - self.width;
        self.ring.truncate_front(left);
        self.held -= 1;
        true
    }

    /// Takes the oldest item into the words from a place on. Answers whether there was one.
    pub fn take(&mut self, words: &mut Vec<i64>, place: usize) -> bool
        ensures there { result ≡ is_there (items_of self.old) }
        ensures words { words.new.items ≡ oldest_to (items_of self.old) place words.old.items }
        ensures items { items_of self.new ≡ drop 1 (items_of self.old) }
        ensures size { self.new.size ≡ self.old.size }
        ensures width { self.new.width ≡ self.old.width }
    {
        if self.held == 0 {
            return false;
        }
        copy_front(&self.ring, words, place, self.width);
        self.skip()
    }

    /// Writes how many items it holds behind words, and then their words. The only error is that memory ends.
    pub fn write(&self, words: &mut Vec<i64>) -> Result<(), AllocError>
        ensures words { OnOk result (words.new.items
            ≡ words.old.items ++ queue_picture self.now) }
        ensures fit { OnOk result (QueueFits self.now) }
    {
        let (front, back) = self.ring.as_slices();
        words.push((self.held as u64).cast_signed())?;
        words.extend_from_slice(front)?;
        words.extend_from_slice(back)
    }

    /// Takes so many items from the front of words, where they are there and it can hold so many. Gives the words that are left.
    fn refill<'a>(&mut self, held: usize, from: &'a [i64]) -> &'a [i64]
        ensures read { IsReadFrom (λ of. of.ring.items)
            (λ of. (of.held ≡ held) × (room_of_queue of ≡ room_of_queue self.old))
            (λ of. queue_view self.new ≡ queue_view of) from.now result.now }
        ensures room { room_of_queue self.new ≡ room_of_queue self.old }
    {
        let _room = self.ring.capacity();
        if self.size < held {
            return from;
        }
        match from.split_at_checked(held * self.width) {
            Some((own, left)) => {
                self.ring.clear();
                self.ring.extend_from_slice(own);
                self.held = held;
                left
            }
            None => from,
        }
    }

    /// Takes its items from the front of words, as `write` leaves them for a queue of the same room. Gives the words that are
    /// left.
    pub fn read<'a>(&mut self, from: &'a [i64]) -> &'a [i64]
        ensures read { IsReadFrom queue_picture
            (λ of. (room_of_queue of ≡ room_of_queue self.old) × QueueFits of)
            (λ of. queue_view self.new ≡ queue_view of) from.now result.now }
        ensures room { room_of_queue self.new ≡ room_of_queue self.old }
    {
        match from.split_first() {
            Some((held, left)) => self.refill(held.cast_unsigned() as usize, left),
            None => from,
        }
    }

    /// Drops all items.
    pub fn flush(&mut self)
        ensures items { items_of self.new ≡ [] }
        ensures size { self.new.size ≡ self.old.size }
        ensures width { self.new.width ≡ self.old.width }
    {
        self.ring.clear();
        self.held = 0;
    }
}
