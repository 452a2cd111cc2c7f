//! Marks of places, 64 to a word, the lowest bit first.

ghost use Rattle.std.specs.Prelude.{◌≡◌, ◌+◌, ◌*◌, ◌≤◌, ◌<◌, ◌++◌, true, false, length, replicate, slice_index_or, slice_set, IfOk, OnOk};
ghost use Rattle.std.proofs.Props.{props};
ghost use Rattle.snl_vm.specs.Zeros.{AreZeroOutside};

use std::alloc::{AllocError, Global};

/// Which of some places are marked. Where there are many places, few are marked at a time: so it is known between which words
/// the marks are, and no others are looked at.
#[derive(Drop)]
pub struct Marks {
    words: Vec<u64>,
    count: usize,
    /// No word before this one has a mark,
    start: usize,
    /// and none from this one on.
    end: usize,
    ghost held: { count ≤ 64 * length words.items },
    ghost few: { length words.items ≤ count },
    ghost tight: { 64 * length words.items < count + 64 },
    ghost inside: { end ≤ length words.items },
    ghost outside: { AreZeroOutside words.items start end } by { Prim.hlevel props },
}

impl Marks {
    ghost use Rattle.snl_vm.specs.Marks.{marks_of, has, if_within, IsFirst};
    ghost use Rattle.snl_vm.specs.Pictures.{IsReadFrom, MarksFit, marks_picture, marks_size};

    /// So many places, none of them marked. The only error is that memory ends.
    pub fn new(alloc: Global, count: usize) -> Result<Self, AllocError>
        ensures { IfOk result (λ marks. marks_of marks ≡ replicate count false) }
    {
        Ok(Marks {
            words: vec![in alloc; 0u64; count.div_ceil(64)]?,
            count,
            start: 0,
            end: 0,
        })
    }

    /// How many places it has.
    pub fn count(&self) -> usize
        ensures { result ≡ self.now.count }
    {
        self.count
    }

    /// How many words it has.
    pub fn size(&self) -> usize
        ensures { result ≡ marks_size self.now }
    {
        self.words.len()
    }

    /// Whether a place is marked; one that is not there is not.
    pub fn is_marked(&self, place: usize) -> bool
        ensures { has (marks_of self.now) place ≡ result }
    {
        place < self.count && (self.words[place / 64] >> (place % 64)) & 1 == 1
    }

    /// Marks a place, if it is there.
    pub fn mark(&mut self, place: usize)
        ensures { marks_of self.new ≡ slice_set (marks_of self.old) place true }
    {
        if place < self.count {
            let word = place / 64;
            self.reach(word);
            self.words[word] |= 1u64 << (place % 64);
        }
    }

    /// Lets marks be in a word, too.
    fn reach(&mut self, word: usize)
        requires within { word < length self.old.words.items }
        ensures start { self.new.start ≤ word }
        ensures end { word < self.new.end }
        ensures words { self.new.words ≡ self.old.words }
        ensures count { self.new.count ≡ self.old.count }
    {
        if self.end <= self.start {
            self.start = word;
            self.end = word + 1;
        } else if word < self.start {
            self.start = word;
        } else if self.end <= word {
            self.end = word + 1;
        }
    }

    /// Takes the mark of a place away.
    pub fn unmark(&mut self, place: usize)
        ensures { marks_of self.new ≡ slice_set (marks_of self.old) place false }
    {
        if place < self.count {
            let word = place / 64;
            let left = self.words[word] & !(1u64 << (place % 64));
            self.words[word] = left;
            if left == 0 {
                self.leave(word);
            }
        }
    }

    /// Lets no more marks be in a word that has none, if it is the first in which they may be.
    fn leave(&mut self, word: usize)
        requires within { word < length self.old.words.items }
        requires none { slice_index_or self.old.words.items word 0 ≡ 0 }
        ensures words { self.new.words ≡ self.old.words }
        ensures count { self.new.count ≡ self.old.count }
    {
        if self.start == word {
            self.start = word + 1;
        }
    }

    /// Writes its words behind others. The only error is that memory ends.
    pub fn write(&self, words: &mut Vec<i64>) -> Result<(), AllocError>
        ensures words { OnOk result (words.new.items
            ≡ words.old.items ++ marks_picture self.now) }
        ensures fit { OnOk result (MarksFit self.now) }
    {
        for word in self.words.as_slice() {
            words.push(word.cast_signed())?;
        }
        Ok(())
    }

    /// Takes its words from the front of others, as `write` leaves them for as many places. Gives the words that are left.
    pub fn read<'a>(&mut self, from: &'a [i64]) -> &'a [i64]
        ensures read { IsReadFrom marks_picture (λ of. (of.count ≡ self.old.count) × MarksFit of)
            (λ of. marks_of self.new ≡ marks_of of) from.now result.now }
        ensures count { self.new.count ≡ self.old.count }
    {
        match from.split_at_checked(self.words.len()) {
            Some((own, left)) => {
                self.start = 0;
                self.end = self.words.len();
                for (number, word) in own.iter().enumerate() {
                    self.words[number] = word.cast_unsigned();
                }
                left
            }
            None => from,
        }
    }

    /// The first marked place from one on. It looks at one word for 64 places.
    pub fn first_from(&self, from: usize) -> Option<usize>
        ensures { IsFirst (marks_of self.now) from result }
    {
        let word = from / 64;
        if word < self.start {
            return self.first_in(self.start);
        }
        if self.end <= word {
            return None;
        }
        let left = self.words[word] >> (from % 64);
        if left != 0 {
            return self.within(from + left.trailing_zeros() as usize);
        }
        self.first_in(word + 1)
    }

    /// The first marked place of the words from one on.
    fn first_in(&self, word: usize) -> Option<usize>
        ensures { IsFirst (marks_of self.now) (64 * word) result }
    {
        for number in word..self.end {
            let left = self.words[number];
            if left != 0 {
                return self.within(number * 64 + left.trailing_zeros() as usize);
            }
        }
        None
    }

    /// A place, if it is there.
    fn within(&self, place: usize) -> Option<usize>
        ensures { result ≡ if_within self.now.count place }
    {
        if place < self.count {
            Some(place)
        } else {
            None
        }
    }
}
