//! What is told of the puts of two runs, channel by channel: how many there were, and what was put last.

use crate::filters::Filter;
use crate::sides::Side;
use crate::words::is_left_out;
use itoa::Buffer;
use snl_output::{push_all, push_told};
use std::alloc::AllocError;

/// The puts of two runs to a channel: how many there were, and the values of the last one.
#[derive(Clone, Copy)]
struct Puts<'s> {
    channel: &'s [u8],
    old: (u64, &'s [i64]),
    new: (u64, &'s [i64]),
}

/// The puts of a side to a channel of a name.
fn puts_to<'s>(side: &'s Side, channel: &[u8]) -> (u64, &'s [i64]) {
    match side.machine.channel(channel) {
        Some(number) => side.page.scene.sums.puts_to(number),
        None => (0, &[]),
    }
}

/// The puts to the channel of a number of a side, by its name; None where it has no such channel.
fn puts_of<'s>(of: &'s Side, number: usize, old: &'s Side, new: &'s Side) -> Option<Puts<'s>> {
    let channel = of.machine.channel_name(number)?;
    Some(Puts {
        channel,
        old: puts_to(old, channel),
        new: puts_to(new, channel),
    })
}

/// Adds the values of a last put, or that there was none.
fn push_values(out: &mut Vec<u8>, front: &[u8], put: (u64, &[i64])) -> Result<(), AllocError> {
    out.extend_from_slice(front)?;
    if put.0 == 0 {
        return out.extend_from_slice(b" none");
    }
    for value in put.1 {
        let mut digits = Buffer::new();
        push_all(out, &[b" ", digits.format(*value).as_bytes()])?;
    }
    Ok(())
}

/// Whether the last puts of both to a channel say the same.
fn end_alike(puts: Puts) -> bool {
    (puts.old.0 == 0) == (puts.new.0 == 0) && puts.old.1 == puts.new.1
}

/// Adds how many puts to a channel there were, if there were not as many.
fn push_counts(out: &mut Vec<u8>, puts: Puts) -> Result<(), AllocError> {
    if puts.old.0 == puts.new.0 {
        return Ok(());
    }
    push_all(out, &[b"puts to ", puts.channel])?;
    push_told(out, b": old ", puts.old.0, b"")?;
    push_told(out, b", new ", puts.new.0, b"\n")
}

/// Adds what was put last to a channel by each, if that is not the same. Answers whether it is.
fn push_last(out: &mut Vec<u8>, puts: Puts) -> Result<bool, AllocError> {
    if end_alike(puts) {
        return Ok(true);
    }
    push_all(out, &[b"the last put to ", puts.channel])?;
    push_values(out, b": old", puts.old)?;
    push_values(out, b", new", puts.new)?;
    out.extend_from_slice(b"\n")?;
    Ok(false)
}

/// Adds what is told of the channels of the old program, but for those that are left out. Answers whether what was put last is the same.
fn push_old(out: &mut Vec<u8>, filter: Filter, old: &Side, new: &Side) -> Result<bool, AllocError> {
    let mut are_alike = true;
    for number in 0..usize::MAX {
        let Some(puts) = puts_of(old, number, old, new) else {
            return Ok(are_alike);
        };
        if !is_left_out(filter, puts.channel) {
            push_counts(out, puts)?;
            are_alike &= push_last(out, puts)?;
        }
    }
    Ok(are_alike)
}

/// The same of the channels that the new program alone has.
fn push_new(out: &mut Vec<u8>, filter: Filter, old: &Side, new: &Side) -> Result<bool, AllocError> {
    let mut are_alike = true;
    for number in 0..usize::MAX {
        let Some(puts) = puts_of(new, number, old, new) else {
            return Ok(are_alike);
        };
        if old.machine.channel(puts.channel).is_none() && !is_left_out(filter, puts.channel) {
            push_counts(out, puts)?;
            are_alike &= push_last(out, puts)?;
        }
    }
    Ok(are_alike)
}

/// Whether a run put anything.
fn has_put(side: &Side) -> bool {
    side.page.scene.sums.puts() > 0
}

/// Adds what is told of each channel that is not left out: how many puts there were, where there were not as many, and what was put last,
/// where that is not the same; that it is the same for each, where it is.
pub(crate) fn push_puts(
    out: &mut Vec<u8>,
    filter: Filter,
    old: &Side,
    new: &Side,
) -> Result<(), AllocError> {
    let is_old_alike = push_old(out, filter, old, new)?;
    let is_new_alike = push_new(out, filter, old, new)?;
    if is_old_alike && is_new_alike && (has_put(old) || has_put(new)) {
        out.extend_from_slice(b"the last put to each channel is the same\n")?;
    }
    Ok(())
}
