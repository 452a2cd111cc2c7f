//! Values and connections that come from channels.

ghost use Rattle.std.specs.Prelude.{◌≡◌, map, take, true};
ghost use Rattle.std.specs.List.{list_all};
ghost use Rattle.snl_vm.specs.Views.{world_of};
ghost use Rattle.snl_schedule.specs.Arrivals as spec;
ghost use Rattle.snl_schedule.specs.Linked.{done_at, done_over, is_fit_at};
ghost use Rattle.snl_schedule.specs.Loaded.{loaded, program_of};

use crate::plans::{Plan, ProgramContext};
use snl_meaning::Tied;
use snl_vm::{Store, fill, notice};

/// Whether a link is tied to a channel.
fn is_of(link: Tied, channel: usize) -> bool
    ensures { result ≡ spec.is_of channel link }
{
    match link.channel {
        None => false,
        Some(of) => of == channel,
    }
}

/// Of some values those that a link keeps.
fn kept(link: Tied, values: &[i64]) -> &[i64]
    ensures { result.now ≡ take link.count values.now }
{
    values.get(..link.count).unwrap_or(values)
}

/// Values of a channel, at a link of this number.
fn receive_link(channel: usize, values: &[i64], number: usize, link: Tied, store: &mut Store)
    ensures { world_of store.new
        ≡ spec.received_link channel values.now number link (world_of store.old) }
{
    if is_of(link, channel) {
        fill(&mut store.buffers, link.from, kept(link, values));
        notice(number, link, store);
    }
}

/// The same at a number; nothing where there is no such link.
fn receive_at(
    channel: usize,
    values: &[i64],
    number: usize,
    program: &ProgramContext,
    store: &mut Store,
)
    ensures { world_of store.new ≡ done_at (program_of (loaded program.now))
        (spec.received_link channel values.now) number (world_of store.old) }
{
    if let Some(link) = program.plan.links.get(number) {
        receive_link(channel, values, number, *link, store);
    }
}

/// The same at some numbers, one after another.
fn receive_over(
    row: &[usize],
    channel: usize,
    values: &[i64],
    program: &ProgramContext,
    store: &mut Store,
)
    ensures { world_of store.new ≡ done_over (program_of (loaded program.now))
        (spec.received_link channel values.now) row.now (world_of store.old) }
{
    for number in row {
        receive_at(channel, values, *number, program, store);
    }
}

/// Puts values into the buffer of each link of a channel, marks the monitored ones and sets their event flags.
fn receive_all(channel: usize, values: &[i64], program: &ProgramContext, store: &mut Store)
    ensures { world_of store.new ≡ spec.received_from channel values.now 0
        (program_of (loaded program.now)).links (world_of store.old) }
{
    receive_over(
        program.plan.links_of(channel),
        channel,
        values,
        program,
        store,
    );
}

/// A channel has values: each of its links takes as many as it has elements. Missing ones leave what was there.
pub fn receive(channel: usize, values: &[i64], program: &ProgramContext, store: &mut Store)
    ensures { world_of store.new ≡ spec.received (program_of (loaded program.now)) channel
        values.now (world_of store.old) }
{
    if let Some(valued) = store.valued.get_mut(channel) {
        *valued = true;
    }
    receive_all(channel, values, program, store);
}

/// A channel is connected, or is not any more. Nothing else changes: values that came stay, and a program that has started
/// goes on.
pub fn connect(channel: usize, now: bool, store: &mut Store)
    ensures { world_of store.new ≡ spec.connected channel now (world_of store.old) }
{
    if let Some(up) = store.ups.get_mut(channel) {
        *up = now;
    }
}

/// The puts of a channel were answered, at a link of this number: it does not wait any more.
fn answer_link(channel: usize, number: usize, link: Tied, store: &mut Store)
    ensures { world_of store.new ≡ spec.answered_link channel number link (world_of store.old) }
{
    if is_of(link, channel) {
        store.set_waiting(number, false);
    }
}

/// The same at a number; nothing where there is no such link.
fn answer_at(channel: usize, number: usize, program: &ProgramContext, store: &mut Store)
    ensures { world_of store.new ≡ done_at (program_of (loaded program.now))
        (spec.answered_link channel) number (world_of store.old) }
{
    if let Some(link) = program.plan.links.get(number) {
        answer_link(channel, number, *link, store);
    }
}

/// The same at some numbers, one after another.
fn answer_over(row: &[usize], channel: usize, program: &ProgramContext, store: &mut Store)
    ensures { world_of store.new ≡ done_over (program_of (loaded program.now))
        (spec.answered_link channel) row.now (world_of store.old) }
{
    for number in row {
        answer_at(channel, *number, program, store);
    }
}

/// The puts of a channel were answered: none of its links waits any more.
pub fn answer(channel: usize, program: &ProgramContext, store: &mut Store)
    ensures { world_of store.new ≡ spec.answered (program_of (loaded program.now)) channel
        (world_of store.old) }
{
    answer_over(program.plan.links_of(channel), channel, program, store);
}

/// Whether the values that a link takes fit its variable.
fn fit_link(link: Tied, values: &[i64]) -> bool
    ensures { result ≡ spec.is_link_fit values.now link }
{
    kept(link, values)
        .iter()
        .all(|value| link.least <= *value && *value <= link.greatest)
}

/// The same of the link of a number, if there is one.
fn fit_at(number: usize, values: &[i64], links: &[Tied]) -> bool
    ensures { result ≡ is_fit_at links.now values.now number }
{
    match links.get(number) {
        Some(link) => fit_link(*link, values),
        None => true,
    }
}

/// The same of the links of some numbers.
fn fit_over(row: &[usize], values: &[i64], links: &[Tied]) -> bool
    ensures { result ≡ list_all (is_fit_at links.now values.now) row.now }
{
    row.iter().all(|number| fit_at(*number, values, links))
}

/// Whether of some values each link of a channel can take those that it has elements for.
#[tactic(auto, using(crate::proofs::Rows::over_fits))]
pub fn fit_links(channel: usize, values: &[i64], plan: &Plan) -> bool
    ensures { result ≡ spec.are_fit channel values.now plan.now.links.items }
{
    fit_over(plan.links_of(channel), values, plan.links.as_slice())
}
