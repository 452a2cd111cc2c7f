//! The lines that a run writes.

ghost use Rattle.std.specs.Prelude.{◌≡◌, ◌-◌, ◌^◌, ◌<◌, ◌∷◌, ◌++◌, [], decimal, is_err, map, IfOk};
ghost use Rattle.std.specs.Fmt.{signed_decimal};
ghost use Rattle.snl_output.specs.Devices.{counted, Wrote};
ghost use Rattle.snl_output.specs.Held.{Adds};
ghost use Rattle.snl_output.specs.Lines.{joined, start_line, go_line, go_rest, exit_line, fault_line, put_front, space};
ghost use Rattle.snl_output.specs.Texts.{print_rest, text_in};

use crate::held::Line;
use crate::pieces::push_all;
use crate::sinks::{Sink, SinkFault};
use crate::texts::{Short, Text};
use itoa::Buffer;
use std::alloc::{AllocError, Global};

/// `MS start PROGRAM`
pub fn write_start<'t, S: Sink>(sink: &mut S, ms: u64, program: &'t [u8]) -> Result<(), SinkFault>
    requires { S.failures sink.old < 2 ^ 64 - 1 }
    ensures told { Wrote result (start_line ms program.now) (S.told sink.old) (S.told sink.new) }
    ensures failures { S.failures sink.new ≡ counted (is_err result) (S.failures sink.old) }
{
    let mut time = Buffer::new();
    write_pieces(
        sink,
        &[time.format(ms).as_bytes(), b" start ", program, b"\n"],
    )
}

/// `MS go STATE-SET FROM TO`
pub fn write_go<'t, S: Sink>(
    sink: &mut S,
    ms: u64,
    state_set: &'t [u8],
    from: &'t [u8],
    to: &'t [u8],
) -> Result<(), SinkFault>
    requires { S.failures sink.old < 2 ^ 64 - 1 }
    ensures told { Wrote result (go_line ms state_set.now from.now to.now) (S.told sink.old)
        (S.told sink.new) }
    ensures failures { S.failures sink.new ≡ counted (is_err result) (S.failures sink.old) }
{
    let mut time = Buffer::new();
    let ms = time.format(ms).as_bytes();
    write_pieces(sink, &[ms, b" go ", state_set, b" ", from, b" ", to, b"\n"])
}

/// What follows the time in the line of a transition, with its newline: ` go STATE-SET FROM TO`. It can be made before the
/// time is known. The only error is that memory ends.
pub fn go_text<'t>(
    alloc: Global,
    state_set: &'t [u8],
    from: &'t [u8],
    to: &'t [u8],
) -> Result<Text, AllocError>
    ensures { IfOk result (λ text. text_in text ≡ go_rest state_set.now from.now to.now) }
{
    let text = join(alloc, &[b" go ", state_set, b" ", from, b" ", to, b"\n"])?;
    Text::of(alloc, text.as_slice())
}

/// What stands between the time and the text of a `printf`: ` print STATE-SET `. The only error is that memory ends.
pub fn print_text<'t>(alloc: Global, state_set: &'t [u8]) -> Result<Text, AllocError>
    ensures { IfOk result (λ text. text_in text ≡ print_rest state_set.now) }
{
    let text = join(alloc, &[b" print ", state_set, b" "])?;
    Text::of(alloc, text.as_slice())
}

/// `MS` and the text that follows it, to the end of the line.
#[inline(always)]
pub fn write_timed<S: Sink>(sink: &mut S, ms: u64, rest: &Text) -> Result<(), SinkFault>
    requires { S.failures sink.old < 2 ^ 64 - 1 }
    ensures told { Wrote result (decimal ms ++ text_in rest.now) (S.told sink.old)
        (S.told sink.new) }
    ensures failures { S.failures sink.new ≡ counted (is_err result) (S.failures sink.old) }
{
    if sink.hold_line(ms, rest) {
        return Ok(());
    }
    write_apart(sink, ms, rest)
}

/// The same where the sink did not hold both at once.
#[inline(never)]
fn write_apart<S: Sink>(sink: &mut S, ms: u64, rest: &Text) -> Result<(), SinkFault>
    requires { S.failures sink.old < 2 ^ 64 - 1 }
    ensures told { Wrote result (decimal ms ++ text_in rest.now) (S.told sink.old)
        (S.told sink.new) }
    ensures failures { S.failures sink.new ≡ counted (is_err result) (S.failures sink.old) }
{
    let mut time = Buffer::new();
    let mut whole = Line::new();
    whole.add(time.format(ms).as_bytes(), sink)?;
    whole.add_text(rest, sink)?;
    whole.send(sink)
}

/// `MS exit PROGRAM`
pub fn write_exit<'t, S: Sink>(sink: &mut S, ms: u64, program: &'t [u8]) -> Result<(), SinkFault>
    requires { S.failures sink.old < 2 ^ 64 - 1 }
    ensures told { Wrote result (exit_line ms program.now) (S.told sink.old) (S.told sink.new) }
    ensures failures { S.failures sink.new ≡ counted (is_err result) (S.failures sink.old) }
{
    let mut time = Buffer::new();
    write_pieces(
        sink,
        &[time.format(ms).as_bytes(), b" exit ", program, b"\n"],
    )
}

/// `MS fault STATE-SET LINE TEXT`
pub fn write_fault<'t, S: Sink>(
    sink: &mut S,
    ms: u64,
    state_set: &'t [u8],
    line: usize,
    text: &'t [u8],
) -> Result<(), SinkFault>
    requires { S.failures sink.old < 2 ^ 64 - 1 }
    ensures told { Wrote result (fault_line ms state_set.now line text.now) (S.told sink.old)
        (S.told sink.new) }
    ensures failures { S.failures sink.new ≡ counted (is_err result) (S.failures sink.old) }
{
    let mut time = Buffer::new();
    let mut number = Buffer::new();
    let ms = time.format(ms).as_bytes();
    let line = number.format(line).as_bytes();
    write_pieces(
        sink,
        &[ms, b" fault ", state_set, b" ", line, b" ", text, b"\n"],
    )
}

/// The front of a line of `pvPut`: `MS put CHANNEL`. The values follow.
pub fn add_put<'t, S: Sink>(
    line: &mut Line,
    ms: u64,
    channel: &'t [u8],
    sink: &mut S,
) -> Result<(), SinkFault>
    requires { S.failures sink.old < 2 ^ 64 - 1 }
    ensures told { Adds result (line.old.held.items ++ put_front ms channel.now)
        line.new.held.items (S.told sink.old) (S.told sink.new) }
    ensures failures { S.failures sink.new ≡ counted (is_err result) (S.failures sink.old) }
{
    line.add_timed(ms, b" put ", sink)?;
    line.add(channel, sink)
}

/// A blank and a number.
pub fn add_number<S: Sink>(line: &mut Line, number: i64, sink: &mut S) -> Result<(), SinkFault>
    requires { S.failures sink.old < 2 ^ 64 - 1 }
    ensures told { Adds result
        (line.old.held.items ++ joined (space ∷ signed_decimal number ∷ []))
        line.new.held.items (S.told sink.old) (S.told sink.new) }
    ensures failures { S.failures sink.new ≡ counted (is_err result) (S.failures sink.old) }
{
    line.push(b' ', sink)?;
    let digits = Short::number(number);
    line.add_short(&digits, sink)
}

/// Hands a line to a sink that is made of pieces.
fn write_pieces<S: Sink>(sink: &mut S, pieces: &[&[u8]]) -> Result<(), SinkFault>
    requires { S.failures sink.old < 2 ^ 64 - 1 }
    ensures told { Wrote result (joined (map (λ piece. piece.now) pieces.now)) (S.told sink.old)
        (S.told sink.new) }
    ensures failures { S.failures sink.new ≡ counted (is_err result) (S.failures sink.old) }
{
    let mut line = Line::new();
    line.add_all(pieces, sink)?;
    line.send(sink)
}

/// Texts, one behind the other. The only error is that memory ends.
fn join(alloc: Global, pieces: &[&[u8]]) -> Result<Vec<u8>, AllocError>
    ensures { IfOk result (λ text. text.items ≡ joined (map (λ piece. piece.now) pieces.now)) }
{
    let mut text = Vec::new(alloc);
    push_all(&mut text, pieces)?;
    Ok(text)
}
