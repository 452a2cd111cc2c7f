//! The line of a `printf`, put together in one go: each part of it is laid over bytes, up to a place from which the next one goes on,
//! where there is room for that. A short text takes the room of a row.

ghost use Rattle.std.specs.Prelude.{◌≡◌, ◌+◌, ◌≤◌, ◌++◌, [], decimal, drop, length, take, IfNone, IfSome, if◌then◌else◌};
ghost use Rattle.std.specs.Fmt.{signed_decimal};
ghost use Rattle.snl_output.specs.Formats.{filled, shown_in};
ghost use Rattle.snl_output.specs.Spelled.{spelled_in};
ghost use Rattle.snl_output.specs.Texts.{short_of, text_in};
ghost use Rattle.snl_meaning.specs.Printing as spec;

use crate::formats::{Format, Part};
use crate::texts::{ROW, Short, Text, place, place_natural};

/// Lays what is behind the front of a text, which is rare.
#[inline(never)]
fn lay_slice(bytes: &mut [u8], at: usize, piece: &[u8]) -> Option<usize>
    requires { at ≤ length bytes.old }
    ensures text { IfSome result (λ end. take end bytes.new ≡ take at bytes.old ++ piece.now) }
    ensures within { IfSome result (λ end. end ≤ length bytes.new) }
    ensures length { length bytes.new ≡ length bytes.old }
{
    if piece.len() > bytes.len() - at {
        return None;
    }
    place(bytes, at, piece);
    Some(at + piece.len())
}

/// Lays a short text.
#[inline(always)]
fn lay_short(bytes: &mut [u8], at: usize, short: Short) -> Option<usize>
    requires { at ≤ length bytes.old }
    ensures text { IfSome result (λ end. take end bytes.new ≡ take at bytes.old ++ short_of short) }
    ensures within { IfSome result (λ end. end ≤ length bytes.new) }
    ensures length { length bytes.new ≡ length bytes.old }
{
    if bytes.len() - at < ROW {
        return None;
    }
    short.lay(bytes, at);
    Some(at + short.len())
}

/// Lays the digits of a natural number.
#[inline(always)]
fn lay_natural(bytes: &mut [u8], at: usize, number: u64) -> Option<usize>
    requires { at ≤ length bytes.old }
    ensures text { IfSome result (λ end. take end bytes.new ≡ take at bytes.old ++ decimal number) }
    ensures within { IfSome result (λ end. end ≤ length bytes.new) }
    ensures length { length bytes.new ≡ length bytes.old }
{
    if bytes.len() - at < ROW {
        return None;
    }
    Some(at + place_natural(bytes, at, number))
}

/// Lays a text, of which mostly nothing is behind its front.
#[inline(always)]
fn lay_text(bytes: &mut [u8], at: usize, text: &Text) -> Option<usize>
    requires { at ≤ length bytes.old }
    ensures text { IfSome result (λ end. take end bytes.new
        ≡ take at bytes.old ++ text_in text.now) }
    ensures within { IfSome result (λ end. end ≤ length bytes.new) }
    ensures length { length bytes.new ≡ length bytes.old }
{
    let end = lay_short(bytes, at, text.front)?;
    if text.more.is_empty() {
        return Some(end);
    }
    lay_slice(bytes, end, text.more.as_slice())
}

/// Lays a number.
#[inline(always)]
fn lay_number(bytes: &mut [u8], at: usize, number: i64) -> Option<usize>
    requires { at ≤ length bytes.old }
    ensures text { IfSome result (λ end. take end bytes.new
        ≡ take at bytes.old ++ signed_decimal number) }
    ensures within { IfSome result (λ end. end ≤ length bytes.new) }
    ensures length { length bytes.new ≡ length bytes.old }
{
    if number >= 0 {
        return lay_natural(bytes, at, number as u64);
    }
    lay_short(bytes, at, Short::below_zero(number))
}

/// Lays the first of some numbers; nothing where there is none.
#[inline(always)]
fn lay_first(bytes: &mut [u8], at: usize, numbers: &[i64]) -> Option<usize>
    requires { at ≤ length bytes.old }
    ensures text { IfSome result (λ end. take end bytes.new
        ≡ take at bytes.old ++ spec.first_shown numbers.now) }
    ensures within { IfSome result (λ end. end ≤ length bytes.new) }
    ensures length { length bytes.new ≡ length bytes.old }
{
    match numbers {
        [first, ..] => lay_number(bytes, at, *first),
        [] => Some(at),
    }
}

/// The numbers that are left behind a part: where the first of them is taken, those behind it.
#[inline(always)]
fn left_behind<'n>(numbers: &'n [i64], takes: bool) -> &'n [i64]
    ensures { result.now ≡ (if takes then drop 1 numbers.now else numbers.now) }
{
    match numbers {
        [_, behind @ ..] => { if takes { behind } else { numbers } }
        [] => numbers,
    }
}

/// Lays what the parts of a format write.
#[inline(always)]
fn lay_parts<'t>(
    bytes: &mut [u8],
    at: usize,
    parts: &'t [Part],
    numbers: &'t [i64],
) -> Option<usize>
    requires { at ≤ length bytes.old }
    ensures text { IfSome result (λ end. take end bytes.new
        ≡ take at bytes.old ++ filled parts.now numbers.now []) }
    ensures within { IfSome result (λ end. end ≤ length bytes.new) }
    ensures length { length bytes.new ≡ length bytes.old }
{
    let mut end = at;
    let mut left = numbers;
    for part in parts {
        let text = lay_text(bytes, end, &part.text)?;
        end = lay_first(bytes, text, left)?;
        left = left_behind(left, part.takes);
    }
    Some(end)
}

/// Lays the digits of a time at the front of the bytes, and a text behind them.
#[inline(always)]
fn lay_timed(bytes: &mut [u8], digits: Short, text: &Text) -> Option<usize>
    ensures text { IfSome result (λ end. take end bytes.new
        ≡ short_of digits ++ text_in text.now) }
    ensures within { IfSome result (λ end. end ≤ length bytes.new) }
    ensures length { length bytes.new ≡ length bytes.old }
{
    let time = lay_short(bytes, 0, digits)?;
    lay_text(bytes, time, text)
}

/// The same from a place on; answers how many bytes it is.
#[inline(always)]
pub(crate) fn lay_timed_at(bytes: &mut [u8], at: usize, digits: Short, text: &Text) -> Option<usize>
    requires { at ≤ length bytes.old }
    ensures text { IfSome result (λ count. take (at + count) bytes.new ≡ take at bytes.old
        ++ (short_of digits ++ text_in text.now)) }
    ensures within { IfSome result (λ count. at + count ≤ length bytes.new) }
    ensures kept { IfNone result (take at bytes.new ≡ take at bytes.old) }
    ensures length { length bytes.new ≡ length bytes.old }
{
    match lay_timed(&mut bytes[at..], digits, text) {
        Some(count) => Some(count),
        None => None,
    }
}

/// Lays all of it at the front of the bytes: the digits of its time, the text behind them, the parts of the format and what is behind
/// these.
#[inline(always)]
pub(crate) fn lay_print<'t>(
    bytes: &mut [u8],
    digits: Short,
    text: &'t Text,
    format: &'t Format,
    numbers: &'t [i64],
) -> Option<usize>
    ensures text { IfSome result (λ end. take end bytes.new ≡ short_of digits
        ++ (text_in text.now ++ shown_in (spelled_in format.now) numbers.now)) }
    ensures within { IfSome result (λ end. end ≤ length bytes.new) }
    ensures length { length bytes.new ≡ length bytes.old }
{
    let front = lay_timed(bytes, digits, text)?;
    let parts = lay_parts(bytes, front, format.parts.as_slice(), numbers)?;
    let end = lay_text(bytes, parts, &format.rest)?;
    Some(end)
}

/// The same from a place on; answers how many bytes it is.
#[inline(always)]
pub(crate) fn lay_print_at<'t>(
    bytes: &mut [u8],
    at: usize,
    digits: Short,
    text: &'t Text,
    format: &'t Format,
    numbers: &'t [i64],
) -> Option<usize>
    requires { at ≤ length bytes.old }
    ensures text { IfSome result (λ count. take (at + count) bytes.new ≡ take at bytes.old
        ++ (short_of digits
        ++ (text_in text.now ++ shown_in (spelled_in format.now) numbers.now))) }
    ensures within { IfSome result (λ count. at + count ≤ length bytes.new) }
    ensures kept { IfNone result (take at bytes.new ≡ take at bytes.old) }
    ensures length { length bytes.new ≡ length bytes.old }
{
    match lay_print(&mut bytes[at..], digits, text, format, numbers) {
        Some(count) => Some(count),
        None => None,
    }
}
