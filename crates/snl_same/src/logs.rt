//! What was found so far of two runs: the first difference, counts, and a text.

ghost use Rattle.std.specs.Prelude.{◌≡◌, ◌+◌, OnOk, None, Some};
ghost use Rattle.snl_same.specs.Answers.{first_of};

use crate::differences::{Apart, Difference};
use crate::filters::Filter;
use std::alloc::Global;

/// What was found so far.
#[derive(Drop)]
pub(crate) struct Log<'f> {
    pub(crate) alloc: Global,
    pub(crate) filter: Filter<'f>,
    /// The number of the next line, from 1.
    pub(crate) number: u128,
    /// The first difference.
    pub(crate) first: Option<Difference>,
    /// At how many lines the runs were apart.
    pub(crate) apart: u64,
    /// The last of these.
    pub(crate) last: u128,
    /// How many lines each run wrote there that the other did not.
    pub(crate) old_alone: u64,
    pub(crate) new_alone: u64,
    /// Whether each difference is told, and not the first alone.
    pub(crate) is_whole: bool,
    /// What is told of the differences.
    pub(crate) text: Vec<u8>,
}

impl<'f> Log<'f> {
    /// Nothing was found yet.
    pub(crate) fn new(alloc: Global, filter: Filter<'f>, is_whole: bool) -> Self
        ensures filter { result.filter ≡ filter.entry }
        ensures number { result.number ≡ 1 }
        ensures first { result.first ≡ None }
    {
        Log {
            alloc,
            filter,
            number: 1,
            first: None,
            apart: 0,
            last: 0,
            old_alone: 0,
            new_alone: 0,
            is_whole,
            text: Vec::new(alloc),
        }
    }

    /// Notes how the runs are apart at the next line, if they are.
    pub(crate) fn note(&mut self, apart: Option<Apart>)
        ensures first { self.new.first ≡ first_of self.old.first self.old.number apart }
        ensures filter { self.new.filter ≡ self.old.filter }
        ensures number { self.new.number ≡ self.old.number }
    {
        let Some(apart) = apart else {
            return;
        };
        self.apart = self.apart.saturating_add(1);
        self.last = self.number;
        if self.first.is_none() {
            self.first = Some(Difference {
                number: self.number,
                apart,
            });
        }
    }
}
