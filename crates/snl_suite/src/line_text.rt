//! A line as it is shown: its front.

use arrayvec::ArrayVec;
use memchr::{memchr, memchr_iter, memrchr};

/// How many bytes of a line are shown.
const SHOWN: usize = 256;

/// The front of a line, no more than is shown.
#[derive(Drop)]
pub struct LineText {
    bytes: ArrayVec<u8, SHOWN>,
    is_cut: bool,
    has_end: bool,
}

impl LineText {
    /// Nothing came yet.
    pub(crate) fn new() -> LineText {
        LineText {
            bytes: ArrayVec::new(),
            is_cut: false,
            has_end: false,
        }
    }

    /// Takes in more bytes, up to the first newline that comes.
    pub(crate) fn add(&mut self, text: &[u8]) {
        if self.has_end {
            return;
        }
        match memchr(b'\n', text) {
            Some(at) => {
                self.has_end = true;
                self.add_piece(text.get(..at).unwrap_or(b""));
            }
            None => self.add_piece(text),
        }
    }

    /// Takes in a piece of the line, as far as it is shown.
    fn add_piece(&mut self, piece: &[u8]) {
        for byte in piece {
            if self.bytes.try_push(*byte).is_err() {
                self.is_cut = true;
                return;
            }
        }
    }

    /// Begins with the front of another line, which has not ended.
    fn begin_with(&mut self, other: &LineText) {
        self.add_piece(other.bytes.as_slice());
        self.is_cut = other.is_cut;
    }

    /// What is shown of it, without its newline.
    pub fn shown(&self) -> &[u8] {
        self.bytes.as_slice()
    }

    /// Whether it is longer than what is shown.
    pub fn is_cut(&self) -> bool {
        self.is_cut
    }

    /// Whether it has a newline.
    pub fn has_end(&self) -> bool {
        self.has_end
    }

    /// Whether nothing came of it: there is no such line.
    pub fn is_missing(&self) -> bool {
        self.bytes.is_empty() && !self.has_end
    }
}

/// Where the output is: the number of the line at work, from 1 on, and what came of it.
#[derive(Drop)]
pub(crate) struct LinePlace {
    number: u64,
    front: LineText,
}

impl LinePlace {
    /// At the begin of the first line.
    pub(crate) fn start() -> LinePlace {
        LinePlace {
            number: 1,
            front: LineText::new(),
        }
    }

    /// Goes on behind a text.
    pub(crate) fn pass(&mut self, text: &[u8]) {
        match memrchr(b'\n', text) {
            Some(at) => {
                let count = memchr_iter(b'\n', text).count() as u64;
                self.number = self.number.saturating_add(count);
                self.front = LineText::new();
                self.front
                    .add(text.get(at..).unwrap_or(b"").get(1..).unwrap_or(b""));
            }
            None => self.front.add(text),
        }
    }

    /// The number of the line.
    pub(crate) fn number(&self) -> u64 {
        self.number
    }

    /// The line, as it goes on by a text.
    pub(crate) fn line_with(&self, text: &[u8]) -> LineText {
        let mut line = LineText::new();
        line.begin_with(&self.front);
        line.add(text);
        line
    }
}
