//! The last lines of a run, and whether the last of them repeat but for their times.

ghost use Rattle.std.specs.Prelude.{◌≡◌, ◌≤◌, ◌<◌, ◌-◌, [], ◌∷◌, ◌++◌, drop, length, slice_get, IfOk, IsTrue, Some};
ghost use Rattle.circular_buffer.specs.Buffer.{keep_last};
ghost use Rattle.snl_watch.specs.Folding.{without_time};

use crate::line_ends::{digits_of, text_of};
use crate::marks::{LineMarks, TOGETHER};
use circular_buffer::HeapCircularBuffer;
use std::alloc::{AllocError, Global};
use std::mem;

/// How many lines a block has at most.
const BLOCK: usize = 60;

/// How many lines are kept.
const KEPT: usize = 120;

/// The last lines of a run.
#[derive(Drop)]
pub(crate) struct Recent {
    alloc: Global,
    lines: HeapCircularBuffer<Vec<u8>>,
    /// A number of each without its time, by which most lines differ.
    marks: LineMarks,
    /// Where the time of a line that comes has its end.
    start: usize,
}

/// What stands in a line from a place on.
#[inline(always)]
fn behind(line: &[u8], place: usize) -> &[u8]
    ensures { result.now ≡ drop place line.now }
{
    match line.get(place..) {
        Some(rest) => rest,
        None => b"",
    }
}

impl Recent {
    ghost use Rattle.snl_watch.specs.Recents.{recent_texts};

    /// No line. Fails only where memory ran out.
    pub(crate) fn new(alloc: Global) -> Result<Self, AllocError>
        ensures { IfOk result (λ recent. recent_texts recent ≡ []) }
    {
        let lines = HeapCircularBuffer::with_capacity(alloc, KEPT)?;
        Ok(Recent {
            alloc,
            lines,
            marks: LineMarks::new(),
            start: 0,
        })
    }

    /// Looks where the time of a line that comes has its end. Answers how many bytes it has behind that.
    #[inline(always)]
    pub(crate) fn measure(&mut self, line: &[u8]) -> usize
        ensures start { drop self.new.start line.now ≡ without_time line.now }
        ensures lines { self.new.lines ≡ self.old.lines }
    {
        self.start = digits_of(line);
        line.len() - self.start
    }

    /// Adds the line that came, which is taken, in the place of the oldest where there is no room. What is left of it is empty, and has
    /// the room of the oldest.
    pub(crate) fn push(&mut self, line: &mut Vec<u8>)
        ensures texts { recent_texts self.new ≡ keep_last self.old.lines.capacity
            (recent_texts self.old ++ without_time line.old.items ∷ []) }
        ensures empty { line.new.items ≡ [] }
    {
        self.marks.push(behind(line.as_slice(), self.start));
        let whole = mem::replace(line, Vec::new(self.alloc));
        if let Some(oldest) = self.lines.push_back(whole) {
            *line = oldest;
            line.clear();
        }
    }

    /// Forgets all lines.
    pub(crate) fn clear(&mut self)
        ensures { recent_texts self.new ≡ [] }
    {
        self.lines.clear();
    }

    /// Whether the line that came equals the one that many lines before it, but for its time.
    #[inline(always)]
    pub(crate) fn is_again(&self, size: usize, line: &[u8]) -> bool
        ensures some { IsTrue result → 0 < size }
        ensures within { IsTrue result → size ≤ length (recent_texts self.now) }
        ensures same { IsTrue result → slice_get (recent_texts self.now)
            (length (recent_texts self.now) - size) ≡ Some (drop self.now.start line.now) }
    {
        let count = self.lines.len();
        if size == 0 || size > count {
            return false;
        }
        match self.lines.get(count - size) {
            Some(before) => text_of(before.as_slice()) == behind(line, self.start),
            None => false,
        }
    }

    /// Whether two lines are equal but for their times, by how many come behind them.
    fn are_equal(&self, last: usize, before: usize) -> bool {
        match (self.lines.nth_back(last), self.lines.nth_back(before)) {
            (Some(last), Some(before)) => text_of(last.as_slice()) == text_of(before.as_slice()),
            _ => false,
        }
    }

    /// Whether the last lines, so many, equal those before them.
    fn repeats(&self, size: usize) -> bool {
        if !self.marks.are_like(size) {
            return false;
        }
        for number in 0..size {
            if !self.are_equal(number, number.saturating_add(size)) {
                return false;
            }
        }
        true
    }

    /// The size of the shortest block below four lines that came twice, now; None where there is none.
    fn short_block(&self, most: usize) -> Option<usize> {
        for size in 1..TOGETHER {
            if size <= most && self.marks.are_few_like(size) && self.repeats(size) {
                return Some(size);
            }
        }
        None
    }

    /// The size of the shortest block from four lines on that came twice, now; None where there is none. The last four lines
    /// stand at the end of both, so only sizes are tried at which lines like them stand.
    fn long_block(&self, most: usize) -> Option<usize> {
        let mut size = self.marks.step(0);
        for _step in 0..BLOCK {
            if size > most || size == 0 {
                return None;
            }
            if size >= TOGETHER && self.repeats(size) {
                return Some(size);
            }
            let step = self.marks.step(size);
            if step == 0 {
                return None;
            }
            size = size.saturating_add(step);
        }
        None
    }

    /// How many lines the shortest block has that came twice, now; 0 where there is none.
    pub(crate) fn block(&self) -> usize
        ensures { result ≤ length (recent_texts self.now) }
    {
        let most = BLOCK.min(self.lines.len() / 2);
        let size = self.short_block(most).or_else(|| self.long_block(most));
        size.unwrap_or(0).min(most)
    }
}
