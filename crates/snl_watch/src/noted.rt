//! What a note between the lines of a run may be.

ghost use Rattle.std.specs.Prelude.{◌≡◌, true};
ghost use Rattle.snl_watch.specs.Folding as spec;

use crate::places::{LinePlace, is_dropped_line};

/// Whether a text begins as the line of a fold does.
fn begins_fold(text: &[u8]) -> bool
    ensures { result ≡ spec.begins_fold text.now }
{
    if text.get(2).copied().unwrap_or(0) != b't' {
        return false;
    }
    text.starts_with(b"# this line ")
        || (text.starts_with(b"# these ") && text.get(8).copied().unwrap_or(0).is_ascii_digit())
}

/// Whether a line of a text does.
fn has_fold(text: &[u8]) -> bool
    ensures { result ≡ spec.has_fold_from true text.now }
{
    let mut begins = true;
    for number in 0..text.len() {
        if begins && begins_fold(&text[number..]) {
            return true;
        }
        begins = text[number] == b'\n';
    }
    false
}

/// Whether a text is notes: extra lines, none of which reads as the line of a fold. Most are one line, which begins once.
pub(crate) fn are_notes(text: &[u8]) -> bool
    ensures { result ≡ spec.are_notes text.now }
{
    if is_dropped_line(text) {
        return !begins_fold(text);
    }
    LinePlace::start().drops_all(text) && !has_fold(text)
}
