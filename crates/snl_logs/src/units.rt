//! In which unit a channel is told, and which numbers its texts stand for.

use crate::patterns::Pattern;
use crate::scales::Scale;
use std::alloc::{AllocError, Global};

/// A text of a channel, and the number that it stands for.
#[derive(Drop)]
pub struct Word {
    /// The text.
    pub text: Vec<u8>,
    /// The number.
    pub value: i64,
}

/// In which unit a channel is told, and which numbers its texts stand for.
#[derive(Drop)]
pub struct Units {
    /// What its values are multiplied by.
    pub scale: Scale,
    /// The form of the texts that are 1; all others are 0.
    pub pattern: Option<Pattern>,
    words: Vec<Word>,
}

impl Units {
    /// Values as they are, and no texts.
    pub fn new(alloc: Global) -> Units {
        Units {
            scale: Scale::of_power(0),
            pattern: None,
            words: Vec::new(alloc),
        }
    }

    /// Lets a text stand for a number.
    pub fn add(&mut self, alloc: Global, text: &[u8], value: i64) -> Result<(), AllocError> {
        let text = Vec::from_slice(alloc, text)?;
        self.words.push(Word { text, value })?;
        Ok(())
    }

    /// The texts that stand for numbers, in their order.
    pub fn words(&self) -> &[Word] {
        self.words.as_slice()
    }

    /// The number that a text stands for.
    pub fn value_of(&self, text: &[u8]) -> Option<i64> {
        if let Some(pattern) = &self.pattern {
            return Some(i64::from(pattern.matches(text)));
        }
        for word in &self.words {
            if word.text.as_slice() == text {
                return Some(word.value);
            }
        }
        None
    }
}
