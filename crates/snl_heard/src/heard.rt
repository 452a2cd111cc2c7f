//! What a requirement hears of a line that a program writes, as lines of a trace.

ghost use Rattle.std.specs.Prelude.{◌≡◌, ◌∷◌, [], IfOk, map};
ghost use Rattle.snl_heard.specs.Heard as spec;
ghost use Rattle.snl_outline.specs.Names.{seen};

use crate::words::{behind, word};
use itoa::Buffer;
use snl_outline::SetOutline;
use snl_output::push_all;
use std::alloc::{AllocError, Global};

/// `MS val put:CHANNEL V ..`: a put, as an event. The only error is that memory ends.
fn put_event<'t>(alloc: Global, time: &'t [u8], rest: &'t [u8]) -> Result<Vec<u8>, AllocError>
    ensures { IfOk result (λ text. text.items ≡ spec.put_event time.now rest.now) }
{
    let mut text = Vec::new(alloc);
    push_all(&mut text, &[time, b" val put:", rest])?;
    Ok(text)
}

/// `MS val state:SET N`: a state set is in its state of that number. The only error is that memory ends.
fn state_event<'t>(
    alloc: Global,
    time: &'t [u8],
    set: &'t [u8],
    number: usize,
) -> Result<Vec<u8>, AllocError>
    ensures { IfOk result (λ text. text.items ≡ spec.state_event time.now set.now number) }
{
    let mut digits = Buffer::new();
    let number = digits.format(number).as_bytes();
    let mut text = Vec::new(alloc);
    push_all(&mut text, &[time, b" val state:", set, b" ", number])?;
    Ok(text)
}

/// A row of one line. The only error is that memory ends.
fn alone(alloc: Global, line: Vec<u8>) -> Result<Vec<Vec<u8>>, AllocError>
    ensures { IfOk result (λ lines. map (λ one. one.items) lines.items ≡ line.items ∷ []) }
{
    let mut lines = Vec::new(alloc);
    lines.push(line)?;
    Ok(lines)
}

/// The number of the state of a name in a state set, if it has one.
fn state_named(names: &SetOutline, state: &[u8]) -> Option<usize>
    ensures { result ≡ spec.number_of state.now (seen names.now).states }
{
    for (number, one) in names.states.as_slice().iter().enumerate() {
        if one.name.as_slice() == state {
            return Some(number);
        }
    }
    None
}

/// The event of a transition into the state of a name; none where the state set has no such state. The only error is that memory ends.
fn entered_in(
    alloc: Global,
    names: &SetOutline,
    time: &[u8],
    state: &[u8],
) -> Result<Vec<Vec<u8>>, AllocError>
    ensures { IfOk result (λ lines. map (λ line. line.items) lines.items
        ≡ spec.entered_in time.now (seen names.now)
        (spec.number_of state.now (seen names.now).states)) }
{
    match state_named(names, state) {
        Some(number) => {
            let event = state_event(alloc, time, names.name.as_slice(), number)?;
            alone(alloc, event)
        }
        None => Ok(Vec::new(alloc)),
    }
}

/// The same, with the state set by its name. The only error is that memory ends.
fn entered(
    alloc: Global,
    sets: &[SetOutline],
    time: &[u8],
    named: &[u8],
    state: &[u8],
) -> Result<Vec<Vec<u8>>, AllocError>
    ensures { IfOk result (λ lines. map (λ line. line.items) lines.items
        ≡ spec.entered (map seen sets.now) time.now named.now state.now) }
{
    for names in sets {
        if names.name.as_slice() == named {
            return entered_in(alloc, names, time, state);
        }
    }
    Ok(Vec::new(alloc))
}

/// At the start each state set is in its first state. The only error is that memory ends.
fn begun(alloc: Global, sets: &[SetOutline], time: &[u8]) -> Result<Vec<Vec<u8>>, AllocError>
    ensures { IfOk result (λ lines. map (λ line. line.items) lines.items
        ≡ spec.begun (map seen sets.now) time.now) }
{
    let mut lines = Vec::new(alloc);
    for names in sets {
        lines.push(state_event(alloc, time, names.name.as_slice(), 0)?)?;
    }
    Ok(lines)
}

/// What is heard of a line that a program wrote, as lines of a trace at its time: of a put `MS val put:CHANNEL V ..`, of a transition
/// `MS val state:SET N` with the number of the state, and of the start the same of the first state of each state set. Of other lines
/// nothing is heard. The only error is that memory ends.
pub fn heard_of(alloc: Global, sets: &[SetOutline], line: &[u8]) -> Result<Vec<Vec<u8>>, AllocError>
    ensures { IfOk result (λ lines. map (λ line. line.items) lines.items
        ≡ spec.heard_of (map seen sets.now) line.now) }
{
    let time = word(line);
    let kind = word(behind(line));
    let rest = behind(behind(line));
    if kind == b"put".as_slice() {
        let event = put_event(alloc, time, rest)?;
        return alone(alloc, event);
    }
    if kind == b"go".as_slice() {
        return entered(alloc, sets, time, word(rest), word(behind(behind(rest))));
    }
    if kind == b"start".as_slice() {
        return begun(alloc, sets, time);
    }
    Ok(Vec::new(alloc))
}
