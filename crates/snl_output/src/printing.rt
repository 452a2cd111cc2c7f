//! The line of a `printf`: its format with the numbers in it.

ghost use Rattle.std.specs.Prelude.{◌≡◌, ◌-◌, ◌^◌, ◌<◌, ◌++◌, [], drop, is_err, IfOk, IfSome, if◌then◌else◌};
ghost use Rattle.snl_output.specs.Devices.{counted, Wrote};
ghost use Rattle.snl_output.specs.Formats.{filled};
ghost use Rattle.snl_output.specs.Spelled.{spelled_in};
ghost use Rattle.snl_output.specs.Held.{Adds};
ghost use Rattle.snl_output.specs.Lines.{print_front};
ghost use Rattle.snl_output.specs.Texts.{print_rest, text_in};
ghost use Rattle.snl_meaning.specs.Printing as spec;

use crate::formats::{Format, Part};
use crate::held::{Line, write_whole};
use crate::laying::lay_print;
use crate::sinks::{Sink, SinkFault};
use crate::texts::{Short, Text};

/// How many bytes a line may have, to be put together in one go where the sink holds no lines. Most have fewer.
const LAID: usize = 152;

/// `MS print STATE-SET TEXT`, where the text is that of a format and of the numbers of its conversions in their order. What stands between
/// the time and the text may have been put together before.
#[inline(always)]
pub fn write_print<'t, S: Sink>(
    sink: &mut S,
    ms: u64,
    state_set: &'t [u8],
    front: Option<&'t Text>,
    format: &'t Format,
    numbers: &'t [i64],
) -> Result<(), SinkFault>
    requires front { IfSome front (λ text. text_in text.now ≡ print_rest state_set.now) }
    requires failures { S.failures sink.old < 2 ^ 64 - 1 }
    ensures told { Wrote result
        (spec.printed_line ms state_set.now (spelled_in format.now) numbers.now)
        (S.told sink.old) (S.told sink.new) }
    ensures failures { S.failures sink.new ≡ counted (is_err result) (S.failures sink.old) }
{
    match front {
        Some(text) => {
            if sink.hold_print(ms, text, format, numbers) {
                return Ok(());
            }
            write_laid(sink, ms, state_set, text, format, numbers)
        }
        None => write_long(sink, ms, state_set, format, numbers),
    }
}

/// The same where the sink did not hold it.
#[inline(never)]
fn write_laid<'t, S: Sink>(
    sink: &mut S,
    ms: u64,
    state_set: &'t [u8],
    text: &'t Text,
    format: &'t Format,
    numbers: &'t [i64],
) -> Result<(), SinkFault>
    requires front { text_in text.now ≡ print_rest state_set.now }
    requires failures { S.failures sink.old < 2 ^ 64 - 1 }
    ensures told { Wrote result
        (spec.printed_line ms state_set.now (spelled_in format.now) numbers.now)
        (S.told sink.old) (S.told sink.new) }
    ensures failures { S.failures sink.new ≡ counted (is_err result) (S.failures sink.old) }
{
    let mut bytes = [0; LAID];
    match lay_print(&mut bytes, Short::natural(ms), text, format, numbers) {
        Some(end) => write_whole(&bytes[..end], sink),
        None => write_long(sink, ms, state_set, format, numbers),
    }
}

/// The same part by part, however long it is.
#[inline(never)]
fn write_long<'t, S: Sink>(
    sink: &mut S,
    ms: u64,
    state_set: &'t [u8],
    format: &'t Format,
    numbers: &'t [i64],
) -> Result<(), SinkFault>
    requires { S.failures sink.old < 2 ^ 64 - 1 }
    ensures told { Wrote result
        (spec.printed_line ms state_set.now (spelled_in format.now) numbers.now)
        (S.told sink.old) (S.told sink.new) }
    ensures failures { S.failures sink.new ≡ counted (is_err result) (S.failures sink.old) }
{
    let mut line = Line::new();
    add_front(&mut line, ms, state_set, sink)?;
    add_parts(&mut line, format.parts.as_slice(), numbers, sink)?;
    line.add_text(&format.rest, sink)?;
    line.send(sink)
}

/// The same of a format of which nothing is known: its text is empty.
pub fn write_blank<'t, S: Sink>(sink: &mut S, ms: u64, state_set: &'t [u8]) -> Result<(), SinkFault>
    requires { S.failures sink.old < 2 ^ 64 - 1 }
    ensures told { Wrote result (spec.print_line ms state_set.now []) (S.told sink.old)
        (S.told sink.new) }
    ensures failures { S.failures sink.new ≡ counted (is_err result) (S.failures sink.old) }
{
    let mut line = Line::new();
    add_front(&mut line, ms, state_set, sink)?;
    line.add(b"\n", sink)?;
    line.send(sink)
}

/// What stands in front of the text.
#[inline(always)]
fn add_front<'t, S: Sink>(
    line: &mut Line,
    ms: u64,
    state_set: &'t [u8],
    sink: &mut S,
) -> Result<(), SinkFault>
    requires { S.failures sink.old < 2 ^ 64 - 1 }
    ensures told { Adds result (line.old.held.items ++ print_front ms state_set.now)
        line.new.held.items (S.told sink.old) (S.told sink.new) }
    ensures failures { S.failures sink.new ≡ counted (is_err result) (S.failures sink.old) }
{
    line.add_timed(ms, b" print ", sink)?;
    line.add(state_set, sink)?;
    line.push(b' ', sink)
}

/// What the parts of a format write.
#[inline(always)]
fn add_parts<'t, S: Sink>(
    line: &mut Line,
    parts: &'t [Part],
    numbers: &'t [i64],
    sink: &mut S,
) -> Result<(), SinkFault>
    requires { S.failures sink.old < 2 ^ 64 - 1 }
    ensures told { Adds result (line.old.held.items ++ filled parts.now numbers.now [])
        line.new.held.items (S.told sink.old) (S.told sink.new) }
    ensures failures { S.failures sink.new ≡ counted (is_err result) (S.failures sink.old) }
{
    let mut left = numbers;
    for part in parts {
        line.add_text(&part.text, sink)?;
        left = add_next(line, left, part.takes, sink)?;
    }
    Ok(())
}

/// The first of some numbers, in decimals; nothing where there is none. The answer is those that are left: where it is taken, those
/// behind it.
#[inline(always)]
fn add_next<'n, S: Sink>(
    line: &mut Line,
    numbers: &'n [i64],
    takes: bool,
    sink: &mut S,
) -> Result<&'n [i64], SinkFault>
    requires { S.failures sink.old < 2 ^ 64 - 1 }
    ensures told { Adds result (line.old.held.items ++ spec.first_shown numbers.now)
        line.new.held.items (S.told sink.old) (S.told sink.new) }
    ensures failures { S.failures sink.new ≡ counted (is_err result) (S.failures sink.old) }
    ensures left { IfOk result (λ left. left.now ≡ (if takes then drop 1 numbers.now
        else numbers.now)) }
{
    match numbers {
        [first, behind @ ..] => {
            let digits = Short::number(*first);
            line.add_short(&digits, sink)?;
            Ok(if takes { behind } else { numbers })
        }
        [] => Ok(numbers),
    }
}
