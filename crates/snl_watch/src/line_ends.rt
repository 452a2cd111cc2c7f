//! Where the lines of a text end.

ghost use Rattle.std.specs.Prelude.{◌≡◌, ◌+◌, ◌≤◌, ◌<◌, [], drop, length, take, true, IsTrue};
ghost use Rattle.snl_watch.specs.Folding.{without_time};
ghost use Rattle.snl_watch.specs.Folds.{NoneBetween, ends_line, is_in_line};

use memchr::{memchr, memrchr};

/// How many bytes are looked at for newlines with a count of one byte.
const COUNTED: usize = 128;

/// Whether a text ends with a newline.
#[inline(always)]
pub(crate) fn ends_line(text: &[u8]) -> bool
    ensures { result ≡ ends_line text.now }
{
    match text {
        [.., last] => *last == b'\n',
        [] => false,
    }
}

/// How many bytes are looked at for newlines at once.
const TOGETHER: usize = 16;

/// Whether no newline stands among sixteen bytes from a place on. It looks at all without a branch, which the compiler turns into one
/// look.
#[inline(always)]
fn has_none_at(text: &[u8], place: usize) -> bool
    requires { place + 16 ≤ length text.now }
    ensures { IsTrue result → NoneBetween text.now place (place + 16) }
{
    let mut all = true;
    for step in 0..TOGETHER {
        all &= text[place + step] != b'\n';
    }
    all
}

/// Whether a text of more than sixteen bytes has no newline but at its end. The bytes that are looked at last may have been looked at
/// before.
#[inline(always)]
fn is_one_long_line(text: &[u8]) -> bool
    requires { 16 < length text.now }
    ensures { IsTrue result → is_in_line text.now ≡ true }
{
    let last = text.len() - 1 - TOGETHER;
    let mut place = 0;
    while place < last {
        if !has_none_at(text, place) {
            return false;
        }
        place += TOGETHER;
    }
    has_none_at(text, last)
}

/// Whether a text is one line, or the front of one: it has no newline but at its end. Most texts that are asked for are.
#[inline(always)]
pub(crate) fn is_one_line(text: &[u8]) -> bool
    ensures { IsTrue result → is_in_line text.now ≡ true }
{
    if text.len() > TOGETHER {
        is_one_long_line(text)
    } else {
        line_end(text) == text.len()
    }
}

/// How many bytes the first line of a text has, with its newline; where none ends it, all.
pub(crate) fn first_line(text: &[u8]) -> usize
    ensures within { result ≤ length text.now }
    ensures line { is_in_line (take result text.now) ≡ true }
    ensures some { 0 < length text.now → 0 < result }
{
    if is_one_line(text) {
        return text.len();
    }
    line_end(text)
}

/// The same, by its first newline.
fn line_end(text: &[u8]) -> usize
    ensures within { result ≤ length text.now }
    ensures line { is_in_line (take result text.now) ≡ true }
    ensures some { 0 < length text.now → 0 < result }
{
    match memchr(b'\n', text) {
        Some(at) => at + 1,
        None => text.len(),
    }
}

/// The same of a text that may have many lines.
pub(crate) fn front_line(text: &[u8]) -> usize
    ensures within { result ≤ length text.now }
    ensures some { result ≡ 0 → text.now ≡ [] }
{
    match memchr(b'\n', text) {
        Some(at) => at + 1,
        None => text.len(),
    }
}

/// How many bytes a text has up to the end of its last whole line; where it has none, all.
pub(crate) fn whole_front(text: &[u8]) -> usize
    ensures within { result ≤ length text.now }
    ensures some { result ≡ 0 → text.now ≡ [] }
{
    match memrchr(b'\n', text) {
        Some(at) => at + 1,
        None => text.len(),
    }
}

/// How many newlines a short text has. The count has one byte and is made without a branch, which the compiler turns into a
/// look at sixteen bytes at once.
fn newlines_in(text: &[u8]) -> u8 {
    let mut count = 0u8;
    for byte in text {
        count = count.wrapping_add((*byte == b'\n') as u8);
    }
    count
}

/// How many newlines a text has.
fn newlines(text: &[u8]) -> u64 {
    let mut count = 0u64;
    for short in text.chunks(COUNTED) {
        count = count.wrapping_add(newlines_in(short) as u64);
    }
    count
}

/// How many lines a text has; the last one may have no newline.
pub fn count_lines(text: &[u8]) -> u64 {
    let ended = newlines(text);
    if text.is_empty() || ends_line(text) {
        ended
    } else {
        ended.saturating_add(1)
    }
}

/// A line without its time, the digits that it begins with.
#[inline(always)]
pub(crate) fn text_of(line: &[u8]) -> &[u8]
    ensures { result.now ≡ without_time line.now }
{
    &line[digits_of(line)..]
}

/// How many digits a line begins with.
#[inline(always)]
pub(crate) fn digits_of(line: &[u8]) -> usize
    ensures within { result ≤ length line.now }
    ensures left { drop result line.now ≡ without_time line.now }
{
    let mut count = 0;
    for byte in line {
        if !byte.is_ascii_digit() {
            return count;
        }
        count += 1;
    }
    count
}
