//! `read_line`: what a line of a trace tells.

ghost use Rattle.std.specs.Prelude.{◌≡◌};
ghost use Rattle.snl_machine.specs.Lookup.{channel_of, fits_of};
ghost use Rattle.snl_trace.specs.Fields.{fields};
ghost use Rattle.snl_trace.specs.Grammar as grammar;
ghost use Rattle.snl_trace.specs.Grammar.{told_of, read_of, if_fits, up_at, down_at, done_at};
ghost use Rattle.snl_trace.specs.Seen.{seen, time_seen, told_seen, event_heard, event_seen, event_at_time, HasRoom};

use crate::fields::{is_ascii_text, is_silent, trimmed};
use crate::lines::without_return;
use crate::numbers::time;
use crate::trace_faults::{LINE_LIMIT, TraceFault};
use crate::words::{LineValues, Telling, heard};
use snl_machine::{Event, Machine};

/// What a line tells a machine.
#[derive(Clone, Copy)]
pub enum Heard {
    /// A channel is connected.
    Up(usize),
    /// A channel is not connected any more.
    Down(usize),
    /// A channel has values: the event with them stands apart, in room that serves all lines.
    Values,
    /// Time has passed.
    Tick,
    /// The puts to a channel were answered.
    Done(usize),
    /// Something about a channel that the program does not use.
    Other,
}

/// What a line of a trace, without its newline, tells: a time in milliseconds and an event; None for a
/// comment and a blank line; else what is wrong with it.
///
/// `last_ms` is the time of the last event. Of the values of a line the first 1,024 are kept.
pub fn read_line(
    line: &[u8],
    machine: &Machine,
    last_ms: u64,
) -> Result<Option<(u64, Event)>, TraceFault>
    ensures { result ≡ read_of (channel_of machine.now) (fits_of machine.now) last_ms line.now }
{
    let mut room = Event::Tick;
    match read_event(line, machine, last_ms, &mut room)? {
        None => Ok(None),
        Some((ms, heard)) => Ok(Some((ms, event_of(heard, room)))),
    }
}

/// The event that was heard, where the one with values stands apart.
fn event_of(heard: Heard, room: Event) -> Event
    ensures { result ≡ event_heard room heard }
{
    match heard {
        Heard::Up(channel) => Event::Up(channel),
        Heard::Down(channel) => Event::Down(channel),
        Heard::Values => room,
        Heard::Tick => Event::Tick,
        Heard::Done(channel) => Event::Done(channel),
        Heard::Other => Event::Other,
    }
}

/// Reads a line as `read_line` does, and puts the values of a `val` in the place of those that stood in `room`. So no line
/// makes room for values anew.
pub fn read_event(
    line: &[u8],
    machine: &Machine,
    last_ms: u64,
    room: &mut Event,
) -> Result<Option<(u64, Heard)>, TraceFault>
    ensures { seen (event_seen room.new) result
        ≡ read_of (channel_of machine.now) (fits_of machine.now) last_ms line.now }
{
    make_room(room);
    match room {
        Event::Val(channel, values) => match told(line, last_ms, values)? {
            None => Ok(None),
            Some((ms, Telling::Val(name))) => match machine.channel(name) {
                Some(number) => {
                    *channel = number;
                    fitting(ms, room, machine)
                }
                None => Ok(Some((ms, Heard::Other))),
            },
            Some((ms, Telling::Up(name))) => Ok(Some((ms, up(name, machine)))),
            Some((ms, Telling::Down(name))) => Ok(Some((ms, down(name, machine)))),
            Some((ms, Telling::Done(name))) => Ok(Some((ms, done(name, machine)))),
            Some((ms, Telling::Tick)) => Ok(Some((ms, Heard::Tick))),
        },
        _ => unreachable!(),
    }
}

/// Makes an event one with room for values, if it is none.
fn make_room(room: &mut Event)
    ensures { HasRoom room.new }
{
    match room {
        Event::Val(_, _) => {}
        _ => *room = Event::Val(0, LineValues::new()),
    }
}

/// What a line tells, before a machine is asked. The values of a `val` take the place of those that
/// stood in `values`.
#[tactic(auto, unfolding(crate::specs::Grammar::told_of, crate::specs::Grammar::spoken))]
pub fn told<'a>(
    line: &'a [u8],
    last_ms: u64,
    values: &mut LineValues,
) -> Result<Option<(u64, Telling<'a>)>, TraceFault>
    ensures { seen (told_seen values.new.items) result ≡ told_of last_ms line.now }
{
    if line.len() > LINE_LIMIT {
        return Err(TraceFault::LineTooLong);
    }
    let line = without_return(line);
    if is_silent(line) {
        return Ok(None);
    }
    if !is_ascii_text(line) {
        return Err(TraceFault::NotAscii);
    }
    let (ms, rest) = timed(line, last_ms)?;
    Ok(Some((ms, heard(rest, values)?)))
}

/// The time of a line, and the text behind it.
fn timed(line: &[u8], last_ms: u64) -> Result<(u64, &[u8]), TraceFault>
    ensures { seen time_seen result ≡ grammar.timed last_ms (fields line.now) }
{
    match time(trimmed(line)) {
        None => Err(TraceFault::BadTime),
        Some((ms, rest)) => {
            if ms < last_ms {
                return Err(TraceFault::BackInTime);
            }
            Ok((ms, rest))
        }
    }
}

/// What is heard of a channel that is up.
fn up(name: &[u8], machine: &Machine) -> Heard
    ensures { (room : Event) → event_heard room result ≡ up_at (channel_of machine.now name.now) }
{
    match machine.channel(name) {
        Some(channel) => Heard::Up(channel),
        None => Heard::Other,
    }
}

/// What is heard of a channel that is not up any more.
fn down(name: &[u8], machine: &Machine) -> Heard
    ensures { (room : Event) → event_heard room result ≡ down_at (channel_of machine.now name.now) }
{
    match machine.channel(name) {
        Some(channel) => Heard::Down(channel),
        None => Heard::Other,
    }
}

/// What is heard of a channel whose puts were answered.
fn done(name: &[u8], machine: &Machine) -> Heard
    ensures { (room : Event) → event_heard room result ≡ done_at (channel_of machine.now name.now) }
{
    match machine.channel(name) {
        Some(channel) => Heard::Done(channel),
        None => Heard::Other,
    }
}

/// The time of an event with values that fits a machine.
fn fitting(ms: u64, room: &Event, machine: &Machine) -> Result<Option<(u64, Heard)>, TraceFault>
    ensures { seen (event_seen room.now) result
        ≡ event_at_time ms (if_fits (fits_of machine.now room.now) room.now) }
{
    if machine.fits(room) {
        Ok(Some((ms, Heard::Values)))
    } else {
        Err(TraceFault::OutOfRange)
    }
}
