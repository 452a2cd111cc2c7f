//! The times of a trace, and what looks wrong with them: one jump of days, or times that some other clock counts.

use bstr::ByteSlice;
use core::dec2flt::read_digits;
use snl_output::{push_all, push_counted, push_told};
use std::alloc::AllocError;

/// A jump that is told is longer than a day, in milliseconds.
const DAY: u64 = 86_400_000;

/// And each other step is shorter than an hour.
const HOUR: u64 = 3_600_000;

/// Seconds of Unix, from 2001 to 2033.
const SECONDS: u64 = 1_000_000_000;

/// Milliseconds of Unix, from 2001 to 2033.
const MILLISECONDS: u64 = 1_000_000_000_000;

/// The times of the events of some lines, in milliseconds.
#[derive(Clone, Copy)]
pub(crate) struct Clock {
    /// That of the first event.
    first: Option<u64>,
    /// That of the last.
    last: u64,
    /// The longest step from one event to the next.
    longest: u64,
    /// The second longest.
    second: u64,
    /// The line, from 1, and the time behind the longest.
    line: u64,
    behind: u64,
}

/// The number that the digits at the front of a text make; one beyond 64 bits counts as the greatest there. Most have fewer than 20,
/// and are read eight at once.
fn number_in_front(text: &[u8]) -> u64 {
    let (count, number) = read_digits(text, 0, 0);
    if count < 20 {
        return number;
    }
    let mut number = 0u64;
    for byte in &text[..count] {
        let digit = u64::from(byte.wrapping_sub(b'0'));
        number = number.saturating_mul(10).saturating_add(digit);
    }
    number
}

/// The time at the front of a line; None where it is blank, a comment or begins with no number.
pub(crate) fn time_of(line: &[u8]) -> Option<u64> {
    match line {
        [b'0'..=b'9', ..] => Some(number_in_front(line)),
        [b' ' | b'\t', ..] => match line.fields().next()? {
            field @ [b'0'..=b'9', ..] => Some(number_in_front(field)),
            _ => None,
        },
        _ => None,
    }
}

/// Adds what times look like, with something in front.
fn push_unit(out: &mut Vec<u8>, front: &[u8], unit: &[u8]) -> Result<(), AllocError> {
    push_all(out, &[front, b"times look like "])?;
    push_all(out, &[unit, b" of Unix\n"])
}

impl Clock {
    /// No event came.
    pub(crate) fn new() -> Clock {
        Clock {
            first: None,
            last: 0,
            longest: 0,
            second: 0,
            line: 0,
            behind: 0,
        }
    }

    /// Notes a step that leads to the time of a line.
    fn step(&mut self, line: u64, ms: u64) {
        let step = ms.saturating_sub(self.last);
        if step > self.longest {
            self.second = self.longest;
            self.longest = step;
            self.line = line;
            self.behind = ms;
        } else if step > self.second {
            self.second = step;
        }
    }

    /// Notes the time of the line of this number, where it has one.
    pub(crate) fn note(&mut self, number: u64, line: &[u8]) {
        let Some(ms) = time_of(line) else {
            return;
        };
        if self.first.is_none() {
            self.first = Some(ms);
        } else {
            self.step(number, ms);
        }
        self.last = ms;
    }

    /// Passes lines whose times do not go back, up to one of some time, where no step can be an hour; whether it did. Such steps
    /// change nothing of what is told.
    pub(crate) fn passes(&mut self, ms: u64) -> bool {
        if self.first.is_none() || ms < self.last || ms - self.last >= HOUR {
            return false;
        }
        self.last = ms;
        true
    }

    /// The same, of which no jump is known.
    pub(crate) fn without_jump(self) -> Clock {
        Clock { longest: 0, ..self }
    }

    /// Whether there is one jump of more than a day, and each other step is shorter than an hour.
    fn jumps(&self) -> bool {
        self.longest > DAY && self.second < HOUR
    }

    /// What counts the times, if it looks like another clock: by the first time, and by that behind a jump.
    fn other_clock(&self) -> Option<&'static [u8]> {
        let time = if self.jumps() {
            self.behind
        } else {
            self.first.unwrap_or(0)
        };
        if (SECONDS..2 * SECONDS).contains(&time) {
            return Some(b"seconds");
        }
        if (MILLISECONDS..2 * MILLISECONDS).contains(&time) {
            return Some(b"milliseconds");
        }
        None
    }

    /// Adds what looks wrong, as lines with something in front.
    pub(crate) fn push_text(&self, out: &mut Vec<u8>, front: &[u8]) -> Result<(), AllocError> {
        if self.jumps() {
            out.extend_from_slice(front)?;
            push_counted(out, b"the clock jumps by ", self.longest / DAY, b"day")?;
            push_told(out, b" at line ", self.line, b"\n")?;
        }
        match self.other_clock() {
            Some(unit) => push_unit(out, front, unit),
            None => Ok(()),
        }
    }
}
