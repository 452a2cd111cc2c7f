//! How far a trace has come, for who waits for it.

/// Counts lines, and takes up the time of the last one that has a time. The bytes come in whatever pieces.
#[derive(Clone, Copy, Debug)]
pub struct Tally {
    lines: u64,
    last: u64,
    /// The number that the digits of the line make that has begun; None before its first digit.
    begun: Option<u64>,
    /// Whether that number may have another digit.
    is_open: bool,
}

impl Tally {
    /// Nothing has come.
    pub fn new() -> Self {
        Tally {
            lines: 0,
            last: 0,
            begun: None,
            is_open: true,
        }
    }

    /// Counts the next bytes.
    pub fn take(&mut self, piece: &[u8]) {
        for byte in piece {
            self.step(*byte);
        }
    }

    /// Counts a byte.
    fn step(&mut self, byte: u8) {
        match byte {
            b'\n' => {
                self.lines = self.lines.saturating_add(1);
                self.last = self.begun.unwrap_or(self.last);
                self.begun = None;
                self.is_open = true;
            }
            b'0'..=b'9' if self.is_open => {
                let digit = (byte - b'0') as u64;
                let begun = self.begun.unwrap_or(0);
                self.begun = Some(begun.saturating_mul(10).saturating_add(digit));
            }
            b' ' | b'\t' if self.begun.is_none() => {}
            _ => self.is_open = false,
        }
    }

    /// How many lines have come with their newline.
    pub fn lines(&self) -> u64 {
        self.lines
    }

    /// The time of the last of these that begins with one, in milliseconds; 0 where none does.
    pub fn last(&self) -> u64 {
        self.last
    }
}
