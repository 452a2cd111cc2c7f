//! What a program knows of its channels at a moment: their values, queues, and the last puts.

use crate::names::{Legend, LinkNames};
use crate::values::{push_count, push_numbers};
use snl_meaning::Tied;
use snl_moments::{At, ChannelHeard, PutHeard, RunHistory};
use snl_output::{push_all, push_told};
use snl_vm::{Queue, Store};
use std::alloc::{AllocError, Global};

/// Adds a variable, or its element.
pub(crate) fn push_link(out: &mut Vec<u8>, link: &LinkNames) -> Result<(), AllocError> {
    out.extend_from_slice(link.variable.as_slice())?;
    match link.element {
        Some(element) => push_count(out, b"[", element, b"]"),
        None => Ok(()),
    }
}

/// Adds when something came, and by which line of the trace.
fn push_since(out: &mut Vec<u8>, at: Option<At>) -> Result<(), AllocError> {
    let Some(at) = at else {
        return Ok(());
    };
    push_told(out, b" since ", at.ms, b" (line ")?;
    push_told(out, b"", at.line, b")")
}

/// The first link of a channel.
fn tie_of(legend: &Legend, channel: usize) -> Option<Tied> {
    for tie in &legend.ties {
        if tie.channel == Some(channel) {
            return Some(*tie);
        }
    }
    None
}

/// The words of the buffer of a link.
fn buffer_of(store: &Store, tie: Tied) -> &[i64] {
    let end = tie.from.saturating_add(tie.count);
    store.buffers.as_slice().get(tie.from..end).unwrap_or(&[])
}

/// Adds the values of a channel.
fn push_values(
    out: &mut Vec<u8>,
    legend: &Legend,
    store: &Store,
    channel: usize,
    heard: &ChannelHeard,
) -> Result<(), AllocError> {
    match tie_of(legend, channel) {
        Some(tie) if store.valued.get(channel) == Some(&true) => {
            out.extend_from_slice(b" =")?;
            push_numbers(out, buffer_of(store, tie))?;
            push_since(out, heard.valued)
        }
        _ => out.extend_from_slice(b" has no value"),
    }
}

/// Adds whether a channel is up.
fn push_up(
    out: &mut Vec<u8>,
    store: &Store,
    channel: usize,
    heard: &ChannelHeard,
) -> Result<(), AllocError> {
    if store.ups.get(channel) == Some(&true) {
        return out.extend_from_slice(b", up\n");
    }
    if heard.switched.is_none() {
        return out.extend_from_slice(b", never up\n");
    }
    out.extend_from_slice(b", down")?;
    push_since(out, heard.switched)?;
    out.extend_from_slice(b"\n")
}

/// Adds the channels.
pub(crate) fn push_channels(
    out: &mut Vec<u8>,
    legend: &Legend,
    store: &Store,
    heard: &RunHistory,
) -> Result<(), AllocError> {
    for (number, name) in legend.channels.iter().enumerate() {
        if let Some(heard) = heard.channels.get(number) {
            push_all(out, &[b"channel ", name.as_slice()])?;
            push_values(out, legend, store, number, heard)?;
            push_up(out, store, number, heard)?;
        }
    }
    Ok(())
}

/// Adds the items of a queue.
fn push_items(alloc: Global, out: &mut Vec<u8>, queue: &Queue) -> Result<(), AllocError> {
    let mut words = Vec::new(alloc);
    queue.write(&mut words)?;
    let (Some(held), items) = (words.first(), words.as_slice().get(1..).unwrap_or(&[])) else {
        return Ok(());
    };
    push_count(out, b" ", usize::try_from(*held).unwrap_or(0), b" of ")?;
    push_count(out, b"", queue.size(), b"")?;
    if !items.is_empty() {
        out.extend_from_slice(b":")?;
        push_numbers(out, items)?;
    }
    out.extend_from_slice(b"\n")
}

/// Adds the queue of a link, where it has one.
fn push_queue(
    alloc: Global,
    out: &mut Vec<u8>,
    link: &LinkNames,
    queue: &Queue,
) -> Result<(), AllocError> {
    if link.queue == 0 {
        return Ok(());
    }
    out.extend_from_slice(b"queue ")?;
    push_link(out, link)?;
    push_items(alloc, out, queue)
}

/// Adds the queues, the oldest item first.
pub(crate) fn push_queues(
    alloc: Global,
    out: &mut Vec<u8>,
    legend: &Legend,
    store: &Store,
) -> Result<(), AllocError> {
    for (link, queue) in legend.links.iter().zip(store.queues.iter()) {
        push_queue(alloc, out, link, queue)?;
    }
    Ok(())
}

/// Whether a link of a channel waits for the answer to a put.
fn is_waiting(legend: &Legend, store: &Store, channel: usize) -> bool {
    for (tie, waits) in legend.ties.iter().zip(store.waiting.iter()) {
        if *waits && tie.channel == Some(channel) {
            return true;
        }
    }
    false
}

/// Adds the last put to a channel, and whether it is not answered yet.
fn push_put(
    out: &mut Vec<u8>,
    name: &[u8],
    put: &PutHeard,
    is_waiting: bool,
) -> Result<(), AllocError> {
    push_all(out, &[b"put ", name])?;
    push_numbers(out, put.values.as_slice())?;
    push_told(out, b" at ", put.ms, b"")?;
    out.extend_from_slice(if is_waiting {
        b", not answered yet\n"
    } else {
        b"\n"
    })
}

/// Adds the last put to each channel that there was one to.
pub(crate) fn push_puts(
    out: &mut Vec<u8>,
    legend: &Legend,
    store: &Store,
    heard: &RunHistory,
) -> Result<(), AllocError> {
    for (number, name) in legend.channels.iter().enumerate() {
        let Some(heard) = heard.channels.get(number) else {
            return Ok(());
        };
        if heard.puts > 0 {
            let is_waiting = is_waiting(legend, store, number);
            push_put(out, name.as_slice(), &heard.put, is_waiting)?;
        }
    }
    Ok(())
}
