//! The store: all that a run reads and changes.

ghost use Rattle.std.specs.Borrow.{sem};
ghost use Rattle.std.specs.Prelude.{◌≡◌, ◌+◌, [], false, pos, slice_get, slice_index_or, IfSome};
ghost use Rattle.snl_vm.specs.Lending.{LendsWords};

use crate::all_homes::AllHomes;
use crate::elements::{put_after, word_after, zero_from};
use crate::marks::Marks;
use crate::queues::Queue;
use snl_meaning::{Live, Tied, Variable};

/// What a state set has for itself.
#[derive(Drop)]
pub struct SetMemory {
    /// The elements of all its variables, one variable after another.
    pub words: Vec<i64>,
    /// The number of the state that it is in.
    pub state: usize,
    /// When it entered that, in milliseconds.
    pub entered: u64,
}

/// All that a run reads and changes. Its vectors keep their lengths.
pub struct Store {
    /// In milliseconds; that of the last event, and 0 before the first.
    pub time: u64,
    /// How far the program has come.
    pub phase: Live,
    /// Ticks that are left in this instant.
    pub ticks: u32,
    /// When the next `delay` is due, in milliseconds, if one is.
    pub wake: Option<u64>,
    /// The least due time that a `delay` noted in this round, in milliseconds.
    pub due: Option<u64>,
    /// By state set.
    pub copies: Vec<SetMemory>,
    /// The elements of the parameters and variables of all functions, one variable after another. All state sets share them.
    pub shared: Vec<i64>,
    /// By event flag, which all state sets share: whether it is set.
    pub flags: Vec<bool>,
    /// By channel: its name, which never changes.
    pub channels: Vec<Vec<u8>>,
    /// By channel: whether it is connected.
    pub ups: Vec<bool>,
    /// By channel: whether it was ever valued.
    pub valued: Vec<bool>,
    /// By link: what never changes of it.
    pub ties: Vec<Tied>,
    /// By state set: where the elements of links begin in its copy, which never changes.
    pub homes: AllHomes,
    /// The elements of the buffers of all links, one link after another.
    pub buffers: Vec<i64>,
    /// By state set, then by link: whether a value came that the copy does not have yet.
    pub marks: Vec<Marks>,
    /// By link: its queue, whose size is 0 where the link has none.
    pub queues: Vec<Queue>,
    /// By link: whether it waits for the answer to a put.
    pub waiting: Vec<bool>,
    /// The number of a link that the start waited for when this was last looked at. No part of the world: it says only
    /// where to look first.
    pub awaited: usize,
}

// Written out: a derived drop is proved anew wherever such a value ends.
impl Drop for Store {
    fn drop(self) {
        let Store {
            time: _,
            phase: _,
            ticks: _,
            wake: _,
            due: _,
            copies: _,
            shared: _,
            flags: _,
            channels: _,
            ups: _,
            valued: _,
            ties: _,
            homes: _,
            buffers: _,
            marks: _,
            queues: _,
            waiting: _,
            awaited: _,
        } = self;
    }
}

impl Store {
    ghost use Rattle.snl_vm.specs.Views.{world_of};
    ghost use Rattle.snl_meaning.specs.Links.{home_of, link_at};
    ghost use Rattle.snl_meaning.specs.World.{copy_of, element_of, is_set, is_waiting, with_element, with_flag, with_waiting, with_zeros, words_for};

    /// A word of a state set's copy that stands so many words after a place; 0 where there is none.
    pub fn word(&self, set: usize, place: usize, after: usize) -> i64
        ensures { slice_index_or (copy_of set (world_of self.now)).words (place + after) (pos 0)
            ≡ result }
    {
        word_after(self.words(set), place, after)
    }

    /// All words of a state set's copy, one variable after another; none where there is no such copy.
    pub fn words(&self, set: usize) -> &[i64]
        ensures { result.now ≡ (copy_of set (world_of self.now)).words }
    {
        match self.copies.get(set) {
            Some(copy) => copy.words.as_slice(),
            None => &[],
        }
    }

    /// The words among which a variable stands, to be read and changed: those of a state set's copy, or those that functions
    /// share. None where there is no such copy.
    #[inline(always)]
    pub fn words_mut(&mut self, set: usize, is_shared: bool) -> Option<&mut Vec<i64>>
        ensures* writes_back { sem 𝓛 (LendsWords self.entry set is_shared result) }
        ensures value { IfSome result (λ words. words.now.items
            ≡ words_for set is_shared (world_of self.old)) }
    {
        if is_shared {
            Some(&mut self.shared)
        } else {
            match self.copies.get_mut(set) {
                Some(copy) => Some(&mut copy.words),
                None => None,
            }
        }
    }

    /// An element of a variable; 0 where there is none.
    pub fn element(&self, set: usize, variable: Variable, element: usize) -> i64
        ensures { element_of set variable element (world_of self.now) ≡ result }
    {
        if variable.is_shared {
            word_after(self.shared.as_slice(), variable.place, element)
        } else {
            self.word(set, variable.place, element)
        }
    }

    /// Puts a number into an element, where there is one.
    pub fn set_element(&mut self, set: usize, variable: Variable, element: usize, number: i64)
        ensures { world_of self.new ≡ with_element set variable element number (world_of self.old) }
    {
        if variable.is_shared {
            put_after(&mut self.shared, variable.place, element, number);
        } else if let Some(copy) = self.copies.get_mut(set) {
            put_after(&mut copy.words, variable.place, element, number);
        }
    }

    /// Makes all elements of a variable 0.
    pub fn clear(&mut self, set: usize, variable: Variable)
        ensures { world_of self.new ≡ with_zeros set variable (world_of self.old) }
    {
        if variable.is_shared {
            zero_from(&mut self.shared, variable.place, variable.size);
        } else if let Some(copy) = self.copies.get_mut(set) {
            zero_from(&mut copy.words, variable.place, variable.size);
        }
    }

    /// When a state set entered its state, in milliseconds.
    pub fn entered(&self, set: usize) -> u64
        ensures { (copy_of set (world_of self.now)).entered ≡ result }
    {
        match self.copies.get(set) {
            Some(copy) => copy.entered,
            None => 0,
        }
    }

    /// Whether an event flag is set; one that is not there is not.
    pub fn is_set(&self, flag: usize) -> bool
        ensures { is_set flag (world_of self.now) ≡ result }
    {
        self.flags.get(flag).copied().unwrap_or(false)
    }

    /// Sets or clears an event flag, where there is one.
    pub fn set_flag(&mut self, flag: usize, now: bool)
        ensures { world_of self.new ≡ with_flag flag now (world_of self.old) }
    {
        if let Some(at) = self.flags.get_mut(flag) {
            *at = now;
        }
    }

    /// Whether a link waits for the answer to a put; one that is not there does not.
    pub fn is_waiting(&self, link: usize) -> bool
        ensures { is_waiting link (world_of self.now) ≡ result }
    {
        self.waiting.get(link).copied().unwrap_or(false)
    }

    /// Lets a link wait for one, or not any more, where there is one.
    pub fn set_waiting(&mut self, link: usize, now: bool)
        ensures { world_of self.new ≡ with_waiting link now (world_of self.old) }
    {
        if let Some(at) = self.waiting.get_mut(link) {
            *at = now;
        }
    }

    /// Whether a channel is connected.
    pub fn is_up(&self, channel: usize) -> bool
        ensures { slice_index_or (world_of self.now).ups channel false ≡ result }
    {
        self.ups.get(channel).copied().unwrap_or(false)
    }

    /// Whether a channel was ever valued.
    pub fn is_valued(&self, channel: usize) -> bool
        ensures { slice_index_or (world_of self.now).valued channel false ≡ result }
    {
        self.valued.get(channel).copied().unwrap_or(false)
    }

    /// The name of a channel; empty where there is no such channel.
    pub fn channel(&self, channel: usize) -> &[u8]
        ensures { result.now ≡ slice_index_or (world_of self.now).channels channel [] }
    {
        match self.channels.get(channel) {
            Some(name) => name.as_slice(),
            None => &[],
        }
    }

    /// What never changes of a link, where there is such a link.
    pub fn tie(&self, link: usize) -> Option<Tied>
        ensures { slice_get (world_of self.now).ties link ≡ result }
    {
        self.ties.get(link).copied()
    }

    /// The word of a state set's copy where the elements of a link begin, if the copy has them.
    pub fn home(&self, set: usize, link: usize) -> Option<usize>
        ensures { home_of set link (world_of self.now) ≡ result }
    {
        match self.homes.sets.get(set) {
            Some(homes) => homes.home(link),
            None => None,
        }
    }

    /// The link whose elements begin at a word of a state set's copy, if there is one.
    pub fn link_at(&self, set: usize, place: usize) -> Option<usize>
        ensures { link_at set place (world_of self.now) ≡ result }
    {
        match self.homes.sets.get(set) {
            Some(homes) => homes.link_at(place),
            None => None,
        }
    }
}
