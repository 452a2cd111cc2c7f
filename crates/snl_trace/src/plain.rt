//! Plain lines: a time, `val`, a name and values, or a time and `tick`, with a single space between any two, and a newline.
//! Each is read in one pass over its bytes.

ghost use Rattle.std.specs.Prelude.{◌≡◌, ◌≢◌, ◌<◌, ◌≤◌, ◌++◌, ◌∷◌, true, Some, Ok, IfSome, All, codes, length, take};
ghost use Rattle.std.specs.List.{list_all};
ghost use Rattle.snl_trace.specs.Grammar.{told_of};
ghost use Rattle.snl_trace.specs.Numbers.{spelled_number, time_of, spelled_value};
ghost use Rattle.snl_trace.specs.Plain as spec;
ghost use Rattle.snl_trace.specs.Plain.{Begins, BeginsWithValues, BeginsWithTelling};
ghost use Rattle.snl_trace.specs.Reading.{IsFront, IsRun};
ghost use Rattle.snl_trace.specs.Seen.{told};

use crate::lanes::{LANES, plain_lanes};
use crate::numbers::{below_zero, digits, from_zero, many_digits};
use crate::trace_faults::{LINE_LIMIT, TIME_LIMIT};
use crate::words::{LineValues, Telling, keep};

/// What a plain line says, and what stands behind its newline. The values stand apart.
#[derive(Clone, Copy)]
pub struct Plain<'t> {
    /// The line without its newline.
    pub line: &'t [u8],
    /// The time in milliseconds.
    pub ms: u64,
    /// What it tells at that time.
    pub telling: Telling<'t>,
    /// What stands behind the newline.
    pub rest: &'t [u8],
}

/// Whether a byte is a printable ASCII character other than a space.
#[inline(always)]
fn is_plain(byte: u8) -> bool
    ensures { result ≡ spec.is_plain byte }
{
    matches!(byte, b'!'..=b'~')
}

/// The number that one digit or more spell at the front of a text, the byte behind them, and the text behind that.
#[inline(always)]
fn cut(number: u64, count: usize, most: usize, text: &[u8]) -> Option<(u64, u8, &[u8])>
    requires { IsRun number count most text.now }
    ensures { IfSome result (λ read. Begins (λ field. spelled_number most field ≡ Some read.0)
        read.1 text.now read.2.now) }
{
    if count == 0 {
        return None;
    }
    let (stop, rest) = text[count..].split_first()?;
    Some((number, *stop, rest))
}

/// The number with which a text begins, the byte behind it, and the text behind that.
#[inline(always)]
fn number(text: &[u8], most: usize) -> Option<(u64, u8, &[u8])>
    requires { most ≤ 19 }
    ensures { IfSome result (λ read. Begins (λ field. spelled_number most field ≡ Some read.0)
        read.1 text.now read.2.now) }
{
    let (number, count) = digits(text, most)?;
    cut(number, count, most, text)
}

/// The same, where the number mostly has many digits.
#[inline(always)]
fn long_number(text: &[u8], most: usize) -> Option<(u64, u8, &[u8])>
    requires { most ≤ 19 }
    ensures { IfSome result (λ read. Begins (λ field. spelled_number most field ≡ Some read.0)
        read.1 text.now read.2.now) }
{
    let (number, count) = many_digits(text, most)?;
    cut(number, count, most, text)
}

/// The time that a text begins with, and the text behind the space that ends it.
#[inline(always)]
fn time(text: &[u8]) -> Option<(u64, &[u8])>
    ensures { IfSome result (λ read. Begins (λ field. time_of field ≡ Some read.0) 32
        text.now read.1.now) }
{
    let (ms, stop, rest) = long_number(text, 16)?;
    if stop != b' ' || ms > TIME_LIMIT {
        return None;
    }
    Some((ms, rest))
}

/// The text behind the word `val` and a space.
#[inline(always)]
fn behind_val(text: &[u8]) -> Option<&[u8]>
    ensures { IfSome result (λ rest. text.now ≡ codes "val" ++ 32 ∷ rest.now) }
{
    match text {
        [b'v', b'a', b'l', b' ', rest @ ..] => Some(rest),
        _ => None,
    }
}

/// The text behind the word `tick` and a newline.
#[inline(always)]
fn behind_tick(text: &[u8]) -> Option<&[u8]>
    ensures { IfSome result (λ rest. text.now ≡ codes "tick" ++ 10 ∷ rest.now) }
{
    match text {
        [b't', b'i', b'c', b'k', b'\n', rest @ ..] => Some(rest),
        _ => None,
    }
}

/// How many plain bytes stand at the front of a text of which the first so many are plain. One after another is looked at.
#[inline(always)]
fn more_plain_bytes(text: &[u8], from: usize) -> usize
    requires { IsFront spec.is_plain from text.now }
    ensures { IsFront spec.is_plain result text.now }
{
    let mut count = from;
    while count < text.len() && is_plain(text[count]) {
        count += 1;
    }
    count
}

/// How many plain bytes stand at the front of a text.
#[inline(always)]
fn plain_bytes(text: &[u8]) -> usize
    ensures within { result ≤ length text.now }
    ensures plain { list_all spec.is_plain (take result text.now) ≡ true }
{
    let mut count = 0;
    while text.len() - count >= LANES {
        let more = plain_lanes(&text[count..]);
        count += more;
        if more < LANES {
            return count;
        }
    }
    more_plain_bytes(text, count)
}

/// The name that a text begins with, and the text behind the space that ends it.
#[inline(always)]
fn name(text: &[u8]) -> Option<(&[u8], &[u8])>
    ensures { IfSome result (λ read. Begins (λ field. (field ≡ read.0.now) × (0 < length field)) 32
        text.now read.1.now) }
{
    let (name, left) = text.split_at(plain_bytes(text));
    match left {
        [b' ', rest @ ..] if !name.is_empty() => Some((name, rest)),
        _ => None,
    }
}

/// The value that a text begins with, the byte behind it, and the text behind that.
#[inline(always)]
fn value(text: &[u8]) -> Option<(i64, u8, &[u8])>
    ensures { IfSome result (λ read. Begins (λ field. spelled_value field ≡ Some read.0) read.1
        text.now read.2.now) }
{
    match text {
        [b'-', size @ ..] => negative(size),
        _ => positive(text),
    }
}

/// The same behind a `-`.
#[inline(always)]
fn negative(text: &[u8]) -> Option<(i64, u8, &[u8])>
    ensures { IfSome result (λ read. Begins (λ field. spelled_value (45 ∷ field) ≡ Some read.0)
        read.1 text.now read.2.now) }
{
    let (size, stop, rest) = number(text, 19)?;
    Some((below_zero(size)?, stop, rest))
}

/// The same where no `-` stands.
#[inline(always)]
fn positive(text: &[u8]) -> Option<(i64, u8, &[u8])>
    ensures { IfSome result (λ read. Begins (λ field. spelled_value field ≡ Some read.0) read.1
        text.now read.2.now) }
{
    let (size, stop, rest) = number(text, 19)?;
    Some((from_zero(size)?, stop, rest))
}

/// The text behind the values and the newline that a text begins with. The values take the place of those that stood there.
#[inline(always)]
fn behind_values<'t>(text: &'t [u8], values: &mut LineValues) -> Option<&'t [u8]>
    ensures { IfSome result (λ rest. BeginsWithValues values.new.items text.now rest.now) }
{
    // A single value is popped: that costs less than the call by which `clear` blanks many.
    let _last = values.pop();
    values.clear();
    let mut left = text;
    while let Some((value, stop, rest)) = value(left) {
        keep(values, value);
        match stop {
            b'\n' => return Some(rest),
            b' ' => left = rest,
            _ => return None,
        }
    }
    None
}

/// What a text tells that stands behind a time and a space, and the text behind its newline. The values of a `val` take the
/// place of those that stood there.
#[inline(always)]
fn telling<'t>(text: &'t [u8], values: &mut LineValues) -> Option<(Telling<'t>, &'t [u8])>
    ensures { IfSome result (λ read. BeginsWithTelling (told values.new.items read.0)
        text.now read.1.now) }
{
    if let Some(named) = behind_val(text) {
        let (name, row) = name(named)?;
        let rest = behind_values(row, values)?;
        return Some((Telling::Val(name), rest));
    }
    Some((Telling::Tick, behind_tick(text)?))
}

/// The plain line that a text begins with, where its time is not below that of the last event. The values of a `val` take
/// the place of those that stood there. None says nothing.
#[inline(always)]
pub fn plain_line<'t>(text: &'t [u8], last_ms: u64, values: &mut LineValues) -> Option<Plain<'t>>
    ensures cut { IfSome result (λ plain. text.now ≡ plain.line.now ++ 10 ∷ plain.rest.now) }
    ensures first { IfSome result (λ plain. All (λ byte. byte ≢ 10) plain.line.now) }
    ensures told { IfSome result (λ plain. told_of last_ms plain.line.now
        ≡ Ok (Some (plain.ms, told values.new.items plain.telling))) }
{
    let (ms, left) = time(text)?;
    let (telling, rest) = telling(left, values)?;
    let line = &text[..text.len() - rest.len() - 1];
    if ms < last_ms || line.len() > LINE_LIMIT {
        return None;
    }
    Some(Plain {
        line,
        ms,
        telling,
        rest,
    })
}
