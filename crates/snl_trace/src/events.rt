//! Room for the events of all lines.

ghost use Rattle.std.specs.Prelude.{◌≡◌};
ghost use Rattle.snl_schedule.specs.declared.events.Event.TheVariants as event;
ghost use Rattle.snl_trace.specs.Seen.{channel_in, event_heard, with_channel};

use crate::reader::Heard;
use crate::words::LineValues;
use snl_machine::Event;

/// Room for the events of all lines. Each event takes as much room as one with 1,024 values, so one of each sort stands ready, and
/// no line makes one anew.
#[derive(Drop)]
pub struct Events {
    /// What was read last of a line with values.
    pub values: Event,
    up: Event,
    down: Event,
    done: Event,
    tick: Event,
    other: Event,
    ghost up_is: { up ≡ event.Up (channel_in up) },
    ghost down_is: { down ≡ event.Down (channel_in down) },
    ghost done_is: { done ≡ event.Done (channel_in done) },
    ghost tick_is: { tick ≡ event.Tick },
    ghost other_is: { other ≡ event.Other },
}

/// Puts the number of another channel into an event that has one.
#[inline(always)]
fn set_channel(event: &mut Event, number: usize)
    ensures { event.new ≡ with_channel number event.old }
{
    match event {
        Event::Up(channel) => *channel = number,
        Event::Down(channel) => *channel = number,
        Event::Done(channel) => *channel = number,
        Event::Val(_, _) | Event::Tick | Event::Other => {}
    }
}

impl Events {
    /// Room for values, of which none were read yet.
    pub fn new() -> Self {
        Events {
            values: Event::Val(0, LineValues::new()),
            up: Event::Up(0),
            down: Event::Down(0),
            done: Event::Done(0),
            tick: Event::Tick,
            other: Event::Other,
        }
    }

    /// The event that was heard, in the room of its sort.
    #[inline(always)]
    pub fn ready(&mut self, heard: Heard) -> &Event
        ensures { result.now ≡ event_heard self.old.values heard }
    {
        match heard {
            Heard::Values => &self.values,
            Heard::Tick => &self.tick,
            Heard::Other => &self.other,
            Heard::Up(channel) => {
                set_channel(&mut self.up, channel);
                &self.up
            }
            Heard::Down(channel) => {
                set_channel(&mut self.down, channel);
                &self.down
            }
            Heard::Done(channel) => {
                set_channel(&mut self.done, channel);
                &self.done
            }
        }
    }
}
