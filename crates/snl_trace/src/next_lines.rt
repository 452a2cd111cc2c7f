//! The next line of a text, and the event that it tells where it is a plain one.

ghost use Rattle.std.specs.Prelude.{◌≡◌, ◌≢◌, ◌++◌, ◌∷◌, true, Some, Ok, IfSome, IfNone, All};
ghost use Rattle.snl_machine.specs.Lookup.{channel_of, fits_of};
ghost use Rattle.snl_machine.specs.MachineOf.{world_held};
ghost use Rattle.snl_trace.specs.Grammar.{read_of};
ghost use Rattle.snl_trace.specs.Seen.{event_heard};

use crate::lines::first_line;
use crate::plain::{Plain, plain_line};
use crate::reader::Heard;
use crate::words::Telling;
use snl_machine::{Event, Machine};

/// The line that a text begins with, without its newline.
#[derive(Clone, Copy)]
pub struct NextLine<'t> {
    /// Its bytes.
    pub line: &'t [u8],
    /// The time of its event, in milliseconds, and what was heard, where that is known: an event with values stands in the
    /// room for it.
    pub heard: Option<(u64, Heard)>,
    /// The text behind the newline.
    pub rest: &'t [u8],
}

/// The line that a text begins with; None where no newline stands in it. A plain line is read where this is asked for by
/// `reads` and `room` has values: those of the line take their place.
#[inline(always)]
pub fn next_line<'t>(
    text: &'t [u8],
    reads: bool,
    machine: &Machine,
    room: &mut Event,
) -> Option<NextLine<'t>>
    ensures cut { IfSome result (λ next. text.now ≡ next.line.now ++ 10 ∷ next.rest.now) }
    ensures first { IfSome result (λ next. All (λ byte. byte ≢ 10) next.line.now) }
    ensures none { IfNone result (All (λ byte. byte ≢ 10) text.now) }
    ensures asked { IfSome result (λ next. IfSome next.heard (λ _. reads ≡ true)) }
    ensures read { IfSome result (λ next. IfSome next.heard (λ at.
        Ok (Some (at.0, event_heard room.new at.1))
        ≡ read_of (channel_of machine.now) (fits_of machine.now) (world_held machine.now).time
        next.line.now)) }
{
    if reads {
        if let Some(next) = read_plain(text, machine, room) {
            return Some(next);
        }
    }
    let (line, rest) = first_line(text)?;
    Some(NextLine {
        line,
        heard: None,
        rest,
    })
}

/// The plain line that a text begins with, and its event in `room`, where it has values. None says nothing.
#[inline(always)]
fn read_plain<'t>(text: &'t [u8], machine: &Machine, room: &mut Event) -> Option<NextLine<'t>>
    ensures cut { IfSome result (λ next. text.now ≡ next.line.now ++ 10 ∷ next.rest.now) }
    ensures first { IfSome result (λ next. All (λ byte. byte ≢ 10) next.line.now) }
    ensures read { IfSome result (λ next. IfSome next.heard (λ at.
        Ok (Some (at.0, event_heard room.new at.1))
        ≡ read_of (channel_of machine.now) (fits_of machine.now) (world_held machine.now).time
        next.line.now)) }
{
    match room {
        Event::Val(channel, values) => {
            let plain = plain_line(text, machine.time(), values)?;
            match plain.telling {
                Telling::Val(name) => {
                    *channel = channel_named(name, *channel, machine)?;
                    if !machine.fits(room) {
                        return None;
                    }
                    Some(heard_in(&plain, Heard::Values))
                }
                Telling::Tick => Some(heard_in(&plain, Heard::Tick)),
                _ => None,
            }
        }
        _ => None,
    }
}

/// A plain line, of which this was heard.
#[inline(always)]
fn heard_in<'t>(plain: &Plain<'t>, heard: Heard) -> NextLine<'t>
    ensures line { result.line ≡ plain.now.line }
    ensures heard { result.heard ≡ Some (plain.now.ms, heard) }
    ensures rest { result.rest ≡ plain.now.rest }
{
    NextLine {
        line: plain.line,
        heard: Some((plain.ms, heard)),
        rest: plain.rest,
    }
}

/// The number of the channel of a name. It is often the channel that was heard of last, or the one after it: so a scan
/// writes its channels.
#[inline(always)]
fn channel_named(name: &[u8], last: usize, machine: &Machine) -> Option<usize>
    ensures { result ≡ channel_of machine.now name.now }
{
    if machine.is_channel(last, name) {
        return Some(last);
    }
    let next = last.saturating_add(1);
    if machine.is_channel(next, name) {
        return Some(next);
    }
    machine.channel(name)
}
