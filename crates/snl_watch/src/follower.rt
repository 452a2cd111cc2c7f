//! A source that tells how far a trace has been given to a run.

ghost use Rattle.std.specs.Prelude.{◌≡◌, ◌≤◌, [], length};

use crate::by_line::ByLine;
use crate::heard::HeardTrace;
use crate::line_ends::{front_line, whole_front};
use crate::progress::Progress;
use snl_output::{Source, SourceFault};
use std::cell::RefCell;

/// Hands on the lines of a source, and tells how many they are. Up to the line at which the program begins it gives one line a
/// call, and hears what that tells. Behind it, it gives as many whole lines as came.
///
/// The room is one of 65,536 bytes.
#[derive(Drop)]
pub struct Follower<'c, R: Source> {
    lines: ByLine<R>,
    heard: HeardTrace,
    progress: &'c RefCell<Progress>,
}

/// How many bytes of a text are given next. What they tell is heard before the program begins.
fn next(text: &[u8], heard: &mut HeardTrace, progress: &RefCell<Progress>) -> usize
    ensures within { result ≤ length text.now }
    ensures some { result ≡ 0 → text.now ≡ [] }
{
    let first = front_line(text);
    let Ok(mut progress) = progress.try_borrow_mut() else {
        return first;
    };
    if progress.has_begun() {
        let most = whole_front(text);
        progress.give(&text[..most]);
        return most;
    }
    if first > 0 {
        heard.note(&text[..first]);
        progress.give(&text[..first]);
        progress.date(heard.zero());
    }
    first
}

impl<'c, R: Source> Follower<'c, R> {
    /// Follows the lines of a source, of which none was given yet.
    pub fn new(lines: ByLine<R>, heard: HeardTrace, progress: &'c RefCell<Progress>) -> Self
        ensures lines { result.lines ≡ lines }
        ensures heard { result.heard ≡ heard }
    {
        Follower {
            lines,
            heard,
            progress,
        }
    }

    /// The lines, and what was heard.
    pub fn into_parts(self) -> (ByLine<R>, HeardTrace)
        ensures lines { result.0 ≡ self.entry.lines }
        ensures heard { result.1 ≡ self.entry.heard }
    {
        let Follower { lines, heard, .. } = self;
        (lines, heard)
    }
}

impl<R: Source> Source for Follower<'_, R> {
    ghost gave = { λ f. f.lines.past.bytes };

    ghost ended = { λ f. f.lines.said };

    ghost broke = { λ f. f.lines.is_broken };

    ghost failures = { λ f. R.failures f.lines.inner };

    fn read(&mut self, room: &mut [u8]) -> Result<usize, SourceFault> {
        self.lines.fill()?;
        let most = next(self.lines.text(), &mut self.heard, self.progress);
        Ok(self.lines.give(most, room))
    }
}
