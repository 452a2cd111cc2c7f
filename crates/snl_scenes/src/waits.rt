//! What a program waits for that has not begun.

use crate::channels::push_link;
use crate::names::{Legend, LinkNames};
use crate::values::push_count;
use snl_meaning::Tied;
use snl_output::push_all;
use snl_vm::Store;
use std::alloc::AllocError;

/// Whether the channel of a link is up, and whether it has a value where that counts.
fn state_of(link: &LinkNames, tie: Tied, store: &Store) -> (bool, bool) {
    match tie.channel {
        Some(channel) => (
            store.ups.get(channel) == Some(&true),
            !link.is_monitored || store.valued.get(channel) == Some(&true),
        ),
        None => (true, true),
    }
}

/// Adds that a link waits for something.
fn push_awaited(out: &mut Vec<u8>, link: &LinkNames, what: &[u8]) -> Result<(), AllocError> {
    push_all(out, &[b"waits for ", link.channel.as_slice(), what, b" ("])?;
    push_link(out, link)?;
    push_count(out, b", line ", link.line, b")\n")
}

/// Adds what a program waits for, as `snl waits` tells it.
pub(crate) fn push_waits(
    out: &mut Vec<u8>,
    legend: &Legend,
    store: &Store,
) -> Result<(), AllocError> {
    if !legend.waits {
        return Ok(());
    }
    for (link, tie) in legend.links.iter().zip(legend.ties.iter()) {
        let (is_up, has_value) = state_of(link, *tie, store);
        if !is_up {
            push_awaited(out, link, b" to be up")?;
        }
        if !has_value {
            push_awaited(out, link, b" to have a value")?;
        }
    }
    Ok(())
}
