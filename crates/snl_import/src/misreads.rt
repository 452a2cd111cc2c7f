//! The lines of a log that are not understood.

use std::alloc::{AllocError, Global};

/// How many of them are told with their text.
const MOST: usize = 5;

/// How many bytes of a line are told.
const BYTES: usize = 60;

/// A line that is not understood.
#[derive(Drop)]
pub struct Misread {
    /// Its number, from 1 on.
    pub number: u64,
    /// The bytes with which it begins.
    pub front: Vec<u8>,
}

impl Misread {
    /// The bytes with which it begins, without what ends it.
    pub fn shown(&self) -> &[u8] {
        match self.front.as_slice() {
            [front @ .., b'\r', b'\n'] | [front @ .., b'\n'] => front,
            front => front,
        }
    }
}

/// The lines of a log that are not understood: how many, and the first ones.
#[derive(Drop)]
pub struct Misreads {
    /// How many.
    pub count: u64,
    /// The first ones.
    pub first: Vec<Misread>,
}

impl Misreads {
    /// None.
    pub fn new(alloc: Global) -> Misreads {
        Misreads {
            count: 0,
            first: Vec::new(alloc),
        }
    }

    /// Adds a line.
    pub fn add(&mut self, alloc: Global, number: u64, line: &[u8]) -> Result<(), AllocError> {
        self.count = self.count.saturating_add(1);
        if self.first.len() < MOST {
            let front = Vec::from_slice(alloc, &line[..line.len().min(BYTES)])?;
            self.first.push(Misread { number, front })?;
        }
        Ok(())
    }

    /// How many are not told with their text.
    pub fn more(&self) -> u64 {
        self.count.saturating_sub(self.first.len() as u64)
    }
}
