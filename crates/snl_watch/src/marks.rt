//! Numbers of the last lines of a run, and where lines like the last ones stood before.
//!
//! A block that came twice ends with lines that stand so many lines before them, too. To look for it among all sizes takes
//! long, so lines are found by a number that is made of the last four: most have no other like it.

ghost use Rattle.std.specs.Prelude.{◌<◌};

/// How many lines are kept: a power of two, above two blocks.
const KEPT: usize = 128;

/// How many places there are for lines, by the number of the last four.
const PLACES: usize = 256;

/// How many of these bits a line takes of a number of 64 bits.
const SHIFT: u32 = 56;

/// Spreads a number over its upper bits: an odd one, 2^64 over the golden ratio.
const SPREAD: u64 = 0x9e37_79b9_7f4a_7c15;

/// How many lines make the number by which lines are found.
pub(crate) const TOGETHER: usize = 4;

/// The numbers of the last lines, and how far before each one like it stands.
#[derive(Drop)]
pub(crate) struct LineMarks {
    /// Of each line, by its place among all lines modulo 128.
    marks: [u64; KEPT],
    /// How many lines before it one stands whose last four have the same place; 0 where that is not among the last.
    steps: [u64; KEPT],
    /// By the number of the last four: how many lines there were when it came last.
    places: [u64; PLACES],
    /// By a size below four: how many of the last lines, one behind the other, have the number of the one so many before them.
    likes: [u64; TOGETHER],
    /// How many lines there were.
    count: u64,
}

/// The number of a line, made of its length and its end.
fn mark_of(text: &[u8]) -> u64 {
    let size = (text.len() as u64).wrapping_mul(SPREAD);
    match text {
        [.., a, b, c, d, e, f, g, h] => size ^ u64::from_be_bytes([*a, *b, *c, *d, *e, *f, *g, *h]),
        _ => size ^ short_mark(text),
    }
}

/// The number that the bytes of a short text make.
fn short_mark(text: &[u8]) -> u64 {
    let mut mark = 0u64;
    for byte in text {
        mark = mark.rotate_left(8) ^ (*byte as u64);
    }
    mark
}

/// Where a line stands among those that are kept, by its place among all lines.
#[inline(always)]
fn kept_at(place: u64) -> usize
    ensures { result < 128 }
{
    (place % KEPT as u64) as usize
}

impl LineMarks {
    /// Of no line.
    pub(crate) fn new() -> Self {
        LineMarks {
            marks: [0; KEPT],
            steps: [0; KEPT],
            places: [0; PLACES],
            likes: [0; TOGETHER],
            count: 0,
        }
    }

    /// The number of the line that has so many behind it.
    #[inline(always)]
    fn mark(&self, behind: usize) -> u64 {
        let before = (behind as u64).wrapping_add(1);
        self.marks[kept_at(self.count.wrapping_sub(before))]
    }

    /// The place of the last four lines.
    #[inline(always)]
    fn place(&self) -> usize
        ensures { result < 256 }
    {
        let first = self.mark(0) ^ self.mark(1).rotate_left(16);
        let second = self.mark(2).rotate_left(32) ^ self.mark(3).rotate_left(48);
        let spread = (first ^ second).wrapping_mul(SPREAD) >> SHIFT;
        (spread % PLACES as u64) as usize
    }

    /// Adds a line.
    pub(crate) fn push(&mut self, text: &[u8]) {
        self.marks[kept_at(self.count)] = mark_of(text);
        self.count = self.count.wrapping_add(1);
        self.count_likes();
        let place = self.place();
        let step = self.count.wrapping_sub(self.places[place]);
        self.steps[kept_at(self.count)] = if step < KEPT as u64 { step } else { 0 };
        self.places[place] = self.count;
    }

    /// Counts the last line among those that have the number of the one so many before them, for each size below four.
    #[inline(always)]
    fn count_likes(&mut self) {
        let last = self.mark(0);
        for size in 1..TOGETHER {
            self.likes[size] = if self.mark(size) == last {
                self.likes[size].wrapping_add(1)
            } else {
                0
            };
        }
    }

    /// Whether the last lines, so many, fewer than four, have the numbers of those before them.
    #[inline(always)]
    pub(crate) fn are_few_like(&self, size: usize) -> bool
        requires { size < 4 }
    {
        self.likes[size] >= size as u64
    }

    /// Whether the last lines, so many, have the numbers of those before them.
    pub(crate) fn are_like(&self, size: usize) -> bool {
        for number in 0..size {
            if self.mark(number) != self.mark(number.saturating_add(size)) {
                return false;
            }
        }
        true
    }

    /// How many lines before the line that has so many behind it one like it stands; 0 where there is none.
    #[inline(always)]
    pub(crate) fn step(&self, behind: usize) -> usize {
        self.steps[kept_at(self.count.wrapping_sub(behind as u64))] as usize
    }
}
