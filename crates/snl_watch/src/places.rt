//! Where in a line a text stands, and whether that line is an extra one.

ghost use Rattle.std.specs.Prelude.{◌≡◌, ◌≤◌, length, take, true, IsTrue};
ghost use Rattle.snl_watch.specs.Extra as spec;
ghost use Rattle.snl_watch.specs.Folds.{is_in_line};

use crate::line_ends::{ends_line, is_one_line};

/// Where a text stands that was written so far.
#[derive(Clone, Copy)]
pub struct LinePlace {
    /// Whether a line has begun.
    pub within: bool,
    /// Whether that is an extra one.
    pub extra: bool,
}

/// Whether a text is a line, or the front of one, that is no extra one. Most pieces of a run are.
#[inline(always)]
fn is_kept_line(text: &[u8]) -> bool
    ensures { IsTrue result → spec.are_kept spec.start text.now ≡ true }
{
    match text {
        [first, ..] => *first != b'#' && is_one_line(text),
        [] => false,
    }
}

/// Whether a text is an extra line, or the front of one. Most notes are.
#[inline(always)]
pub(crate) fn is_dropped_line(text: &[u8]) -> bool
    ensures dropped { IsTrue result → spec.are_dropped spec.start text.now ≡ true }
    ensures line { IsTrue result → is_in_line text.now ≡ true }
{
    match text {
        [first, ..] => *first == b'#' && is_one_line(text),
        [] => false,
    }
}

impl LinePlace {
    ghost use Rattle.snl_watch.specs.Places.{place_of};

    /// Where nothing was written.
    pub fn start() -> Self
        ensures { place_of result ≡ spec.start }
    {
        LinePlace {
            within: false,
            extra: false,
        }
    }

    /// One byte farther.
    fn moved(self, byte: u8) -> Self
        ensures { place_of result ≡ spec.moved (place_of self) byte }
    {
        if byte == b'\n' {
            return LinePlace::start();
        }
        LinePlace {
            within: true,
            extra: if self.within {
                self.extra
            } else {
                byte == b'#'
            },
        }
    }

    /// Whether a byte that comes here belongs to a line that is no extra one.
    fn keeps(self, byte: u8) -> bool
        ensures { result ≡ spec.is_kept (place_of self) byte }
    {
        if self.within {
            !self.extra
        } else {
            byte != b'#'
        }
    }

    /// Behind more bytes.
    #[inline(always)]
    pub fn after(self, bytes: &[u8]) -> Self
        ensures { place_of result ≡ spec.place_after (place_of self) bytes.now }
    {
        if ends_line(bytes) {
            return LinePlace::start();
        }
        self.after_each(bytes)
    }

    /// The same, byte by byte.
    fn after_each(self, bytes: &[u8]) -> Self
        ensures { place_of result ≡ spec.place_after (place_of self) bytes.now }
    {
        let mut place = self;
        for byte in bytes {
            place = place.moved(*byte);
        }
        place
    }

    /// How many bytes belong to lines that are no extra ones, before the first that does not.
    #[inline(always)]
    pub fn kept_front(self, bytes: &[u8]) -> usize
        ensures within { result ≤ length bytes.now }
        ensures kept { spec.are_kept (place_of self) (take result bytes.now) ≡ true }
    {
        if !self.within && is_kept_line(bytes) {
            return bytes.len();
        }
        self.kept_each(bytes)
    }

    /// The same, byte by byte.
    #[tactic(auto, using(crate::proofs::ExtraLaws::kept_snoc, crate::proofs::ExtraLaws::place_snoc))]
    fn kept_each(self, bytes: &[u8]) -> usize
        ensures within { result ≤ length bytes.now }
        ensures kept { spec.are_kept (place_of self) (take result bytes.now) ≡ true }
    {
        let mut place = self;
        let mut count = 0;
        for byte in bytes {
            if !place.keeps(*byte) {
                return count;
            }
            place = place.moved(*byte);
            count += 1;
        }
        count
    }

    /// Whether all bytes belong to extra lines.
    #[inline(always)]
    pub fn drops_all(self, bytes: &[u8]) -> bool
        ensures { result ≡ spec.are_dropped (place_of self) bytes.now }
    {
        if !self.within && is_dropped_line(bytes) {
            return true;
        }
        self.drops_each(bytes)
    }

    /// The same, byte by byte.
    fn drops_each(self, bytes: &[u8]) -> bool
        ensures { result ≡ spec.are_dropped (place_of self) bytes.now }
    {
        let mut place = self;
        for byte in bytes {
            if place.keeps(*byte) {
                return false;
            }
            place = place.moved(*byte);
        }
        true
    }
}
