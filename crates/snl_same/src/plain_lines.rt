//! The next line of a text, and what it tells both programs, where it is a plain one: it is read once for both.

ghost use Rattle.std.specs.Prelude.{◌≡◌, ◌≢◌, ◌++◌, ◌∷◌, Some, IfSome, IfNone, All, option_map};
ghost use Rattle.snl_machine.specs.Lookup.{channel_of};
ghost use Rattle.snl_same.specs.Hearing.{Tells, with_number};

use snl_machine::{Event, Machine};
use snl_trace::{Plain, Telling, first_line, plain_line};

/// The numbers of a channel: that of the old program, and that of the new one.
#[derive(Clone, Copy)]
pub(crate) struct Numbers {
    pub(crate) old: usize,
    pub(crate) new: usize,
}

/// What a plain line tells both programs.
#[derive(Clone, Copy)]
pub(crate) struct Known {
    /// The time of its event, in milliseconds.
    pub(crate) ms: u64,
    /// The channel that has values, which stand apart; None where time has passed.
    pub(crate) channel: Option<Numbers>,
}

impl Known {
    /// The number of the channel for the old program.
    #[inline(always)]
    pub(crate) fn old_number(self) -> Option<usize>
        ensures { result ≡ option_map (λ numbers. numbers.old) self.channel }
    {
        match self.channel {
            None => None,
            Some(numbers) => Some(numbers.old),
        }
    }

    /// The number of the channel for the new program.
    #[inline(always)]
    pub(crate) fn new_number(self) -> Option<usize>
        ensures { result ≡ option_map (λ numbers. numbers.new) self.channel }
    {
        match self.channel {
            None => None,
            Some(numbers) => Some(numbers.new),
        }
    }
}

/// The line that a text begins with, without its newline.
#[derive(Clone, Copy)]
pub(crate) struct Next<'t> {
    /// Its bytes.
    pub(crate) line: &'t [u8],
    /// What it tells, where that is known.
    pub(crate) known: Option<Known>,
    /// The text behind the newline.
    pub(crate) rest: &'t [u8],
}

/// Puts the number of a channel into an event with values.
#[inline(always)]
pub(crate) fn set_number(event: &mut Event, number: usize)
    ensures { event.new ≡ with_number number event.old }
{
    match event {
        Event::Val(channel, _) => *channel = number,
        Event::Up(_) | Event::Down(_) | Event::Done(_) | Event::Tick | Event::Other => {}
    }
}

/// The number of the channel of a name. It is often the one that was heard of last, or the one behind it.
#[inline(always)]
fn number_of(name: &[u8], last: usize, machine: &Machine) -> Option<usize>
    ensures { result ≡ channel_of machine.now name.now }
{
    if machine.is_channel(last, name) {
        return Some(last);
    }
    let next = last.saturating_add(1);
    if machine.is_channel(next, name) {
        return Some(next);
    }
    machine.channel(name)
}

/// A plain line, which tells this.
#[inline(always)]
fn heard<'t>(plain: &Plain<'t>, channel: Option<Numbers>) -> Next<'t>
    ensures line { result.line ≡ plain.now.line }
    ensures known { result.known ≡ Some (record { ms = plain.now.ms; channel = channel }) }
    ensures rest { result.rest ≡ plain.now.rest }
{
    Next {
        line: plain.line,
        known: Some(Known {
            ms: plain.ms,
            channel,
        }),
        rest: plain.rest,
    }
}

/// The plain line that a text begins with, where both machines stand at one time and take it. Its values stand in the room then.
/// None says nothing.
#[inline(always)]
fn plain_next<'t>(
    text: &'t [u8],
    old: &Machine,
    new: &Machine,
    room: &mut Event,
) -> Option<Next<'t>>
    ensures cut { IfSome result (λ next. text.now ≡ next.line.now ++ 10 ∷ next.rest.now) }
    ensures first { IfSome result (λ next. All (λ byte. byte ≢ 10) next.line.now) }
    ensures old { IfSome result (λ next. IfSome next.known (λ known. Tells room.new known.ms
        (option_map (λ numbers. numbers.old) known.channel) old.now next.line.now)) }
    ensures new { IfSome result (λ next. IfSome next.known (λ known. Tells room.new known.ms
        (option_map (λ numbers. numbers.new) known.channel) new.now next.line.now)) }
{
    if old.time() != new.time() {
        return None;
    }
    match room {
        Event::Val(channel, values) => {
            let plain = plain_line(text, old.time(), values)?;
            match plain.telling {
                Telling::Val(name) => {
                    let old_number = number_of(name, *channel, old)?;
                    let new_number = number_of(name, *channel, new)?;
                    *channel = new_number;
                    if !new.fits(room) {
                        return None;
                    }
                    set_number(room, old_number);
                    if !old.fits(room) {
                        return None;
                    }
                    let numbers = Numbers {
                        old: old_number,
                        new: new_number,
                    };
                    Some(heard(&plain, Some(numbers)))
                }
                Telling::Tick => Some(heard(&plain, None)),
                _ => None,
            }
        }
        _ => None,
    }
}

/// The line that a text begins with; None where no newline stands in it. A plain line is read where this is asked for by `reads`
/// and the room has values: those of the line take their place.
#[inline(always)]
pub(crate) fn next_line<'t>(
    text: &'t [u8],
    reads: bool,
    old: &Machine,
    new: &Machine,
    room: &mut Event,
) -> Option<Next<'t>>
    ensures cut { IfSome result (λ next. text.now ≡ next.line.now ++ 10 ∷ next.rest.now) }
    ensures first { IfSome result (λ next. All (λ byte. byte ≢ 10) next.line.now) }
    ensures none { IfNone result (All (λ byte. byte ≢ 10) text.now) }
    ensures old { IfSome result (λ next. IfSome next.known (λ known. Tells room.new known.ms
        (option_map (λ numbers. numbers.old) known.channel) old.now next.line.now)) }
    ensures new { IfSome result (λ next. IfSome next.known (λ known. Tells room.new known.ms
        (option_map (λ numbers. numbers.new) known.channel) new.now next.line.now)) }
{
    if reads {
        if let Some(next) = plain_next(text, old, new, room) {
            return Some(next);
        }
    }
    let (line, rest) = first_line(text)?;
    Some(Next {
        line,
        known: None,
        rest,
    })
}
