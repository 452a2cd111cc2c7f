//! What a program waits for before it starts.

ghost use Rattle.std.specs.Prelude.{◌≡◌, [], ◌∷◌, ◌++◌, ◌||◌, not, if◌then◌else◌, IfOk, OnOk};
ghost use Rattle.snl_machine.specs.MachineOf.{task_held, world_held};
ghost use Rattle.snl_schedule.specs.Instant.{is_so};
ghost use Rattle.snl_views.specs.Awaits.{awaited_at, awaited_from, awaited_in};

use snl_machine::{Machine, Tied};
use std::alloc::{AllocError, Global};

/// Something that a program waits for before it starts (Compiling SNL Programs, "Options": `-c`). Links have the numbers from 0
/// on, in the order of the `assign` definitions.
#[derive(Clone, Copy, Debug, PartialEq, Eq)]
pub enum Awaited {
    /// The channel of a link is not connected.
    ToBeUp(usize),
    /// The channel of a link that is monitored never had a value.
    ToBeValued(usize),
}

/// Whether a channel is connected; a link without one waits for nothing.
fn is_up(machine: &Machine, channel: Option<usize>) -> bool
    ensures { result ≡ is_so (world_held machine.now).ups channel }
{
    match channel {
        Some(channel) => machine.is_up(channel),
        None => true,
    }
}

/// Whether a channel was ever valued; a link without one waits for nothing.
fn is_valued(machine: &Machine, channel: Option<usize>) -> bool
    ensures { result ≡ is_so (world_held machine.now).valued channel }
{
    match channel {
        Some(channel) => machine.is_valued(channel),
        None => true,
    }
}

/// Adds something, unless it is there.
fn push_unless(list: &mut Vec<Awaited>, is_there: bool, awaited: Awaited) -> Result<(), AllocError>
    ensures { OnOk result (list.new.items
        ≡ list.old.items ++ (if is_there then [] else awaited ∷ [])) }
{
    if !is_there {
        list.push(awaited)?;
    }
    Ok(())
}

/// Whether the channel of a link is valued, or needs no value.
fn has_value(machine: &Machine, link: Tied) -> bool
    ensures { result ≡ (is_so (world_held machine.now).valued link.channel
        || not link.is_monitored) }
{
    is_valued(machine, link.channel) || !link.is_monitored
}

/// Adds what a link of this number waits for.
fn push_awaited(
    machine: &Machine,
    number: usize,
    link: Tied,
    list: &mut Vec<Awaited>,
) -> Result<(), AllocError>
    ensures { OnOk result (list.new.items
        ≡ list.old.items ++ awaited_at (world_held machine.now) number link) }
{
    let is_up = is_up(machine, link.channel);
    let has_value = has_value(machine, link);
    push_unless(list, is_up, Awaited::ToBeUp(number))?;
    push_unless(list, has_value, Awaited::ToBeValued(number))
}

/// What the links of a machine's program wait for.
fn all_awaited(alloc: Global, machine: &Machine) -> Result<Vec<Awaited>, AllocError>
    ensures { IfOk result (λ list. list.items ≡ awaited_from (world_held machine.now) 0
        (task_held machine.now).program.links) }
{
    let mut list = Vec::new(alloc);
    for number in 0..machine.link_count() {
        match machine.link(number) {
            Some(link) => push_awaited(machine, number, link, &mut list)?,
            None => return Ok(list),
        }
    }
    Ok(list)
}

/// What a machine's program waits for, if it waits at all. Fails only where memory ran out.
pub(crate) fn awaited_of(
    alloc: Global,
    machine: &Machine,
    waits: bool,
) -> Result<Vec<Awaited>, AllocError>
    ensures { IfOk result (λ list. list.items
        ≡ awaited_in waits (task_held machine.now).program.links (world_held machine.now)) }
{
    if waits {
        all_awaited(alloc, machine)
    } else {
        Ok(Vec::new(alloc))
    }
}
