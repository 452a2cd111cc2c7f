//! What is heard of a run beside its world: which lines of the trace brought what, the last puts, and the last transitions.

ghost use Rattle.std.specs.Prelude.{◌≡◌};

use snl_machine::Event;
use snl_output::{Put, Sink, SinkFault, Went};
use std::alloc::{AllocError, Global};

/// A line of the trace: its number, from 1 on, and its time in milliseconds.
#[derive(Clone, Copy, Debug, PartialEq, Eq)]
pub struct At {
    /// Its number.
    pub line: u64,
    /// Its time.
    pub ms: u64,
}

/// The last put to a channel.
#[derive(Clone, Debug, Drop)]
pub struct PutHeard {
    /// When, in milliseconds.
    pub ms: u64,
    /// The number of the state set that put.
    pub set: usize,
    /// The number of the link.
    pub link: usize,
    /// What was put.
    pub values: Vec<i64>,
}

/// What is heard of a channel.
#[derive(Clone, Debug, Drop)]
pub struct ChannelHeard {
    /// The line that brought its values last.
    pub valued: Option<At>,
    /// The line that said last that it is up, or down.
    pub switched: Option<At>,
    /// How many puts to it there were.
    pub puts: u64,
    /// The last of them, where there was one.
    pub put: PutHeard,
}

/// What is heard of a run.
#[derive(Clone, Debug, Drop)]
pub struct RunHistory {
    /// By state set, the state that it left last, and when.
    pub left: Vec<Option<(usize, u64)>>,
    /// By channel.
    pub channels: Vec<ChannelHeard>,
    /// The line of the trace that was at work last.
    pub last: Option<At>,
}

/// Hears a run. It takes all lines, and keeps none.
#[derive(Drop)]
pub(crate) struct Ear {
    /// What was heard so far.
    pub(crate) heard: RunHistory,
    /// A state of a state set into which transitions are looked for.
    pub(crate) goal: Option<(usize, usize)>,
    /// Whether one led there.
    pub(crate) is_hit: bool,
    /// Whether memory was refused, so that something is missing.
    pub(crate) ran_out: bool,
}

impl Ear {
    /// Nothing was heard yet of a program with so many state sets and channels. The only error is that memory ends.
    pub(crate) fn new(alloc: Global, sets: usize, channels: usize) -> Result<Ear, AllocError> {
        let none: Option<(usize, u64)> = None;
        Ok(Ear {
            heard: RunHistory {
                left: vec![in alloc; none; sets]?,
                channels: unheard(alloc, channels)?,
                last: None,
            },
            goal: None,
            is_hit: false,
            ran_out: false,
        })
    }

    /// Notes what a line of the trace brings.
    pub(crate) fn note(&mut self, at: At, event: &Event) {
        self.heard.last = Some(at);
        match event {
            Event::Val(channel, _) => self.note_value(at, *channel),
            Event::Up(channel) | Event::Down(channel) => self.note_switch(at, *channel),
            Event::Done(_) | Event::Tick | Event::Other => {}
        }
    }

    /// Notes that a line brought values of a channel.
    fn note_value(&mut self, at: At, channel: usize) {
        if let Some(channel) = self.heard.channels.get_mut(channel) {
            channel.valued = Some(at);
        }
    }

    /// Notes that a line said that a channel is up or down.
    fn note_switch(&mut self, at: At, channel: usize) {
        if let Some(channel) = self.heard.channels.get_mut(channel) {
            channel.switched = Some(at);
        }
    }

    /// Notes a put with its values.
    fn keep(&mut self, put: Put, values: &[i64]) -> Result<(), AllocError> {
        let Some(channel) = self.heard.channels.get_mut(put.channel) else {
            return Ok(());
        };
        channel.puts = channel.puts.saturating_add(1);
        let last = &mut channel.put;
        last.ms = put.ms;
        last.set = put.set;
        last.link = put.link;
        last.values.clear();
        last.values.extend_from_slice(values)
    }
}

/// Nothing was heard yet of so many channels.
fn unheard(alloc: Global, channels: usize) -> Result<Vec<ChannelHeard>, AllocError> {
    let mut all = Vec::with_capacity(alloc, channels)?;
    for _channel in 0..channels {
        all.push(ChannelHeard {
            valued: None,
            switched: None,
            puts: 0,
            put: PutHeard {
                ms: 0,
                set: 0,
                link: 0,
                values: Vec::new(alloc),
            },
        })?;
    }
    Ok(all)
}

impl Sink for Ear {
    ghost use Rattle.std.specs.Prelude.{None};

    ghost told = { λ _. None };

    ghost failures = { λ _. 0 };

    fn write(&mut self, piece: &[u8]) -> Result<usize, SinkFault> {
        Ok(piece.len())
    }

    fn went(&mut self, transition: Went) {
        if let Some(left) = self.heard.left.get_mut(transition.set) {
            *left = Some((transition.from, transition.ms));
        }
        if let (Some((set, state)), Some(to)) = (self.goal, transition.to) {
            if transition.set == set && to == state {
                self.is_hit = true;
            }
        }
    }

    fn put(&mut self, put: Put, values: &[i64]) {
        if self.keep(put, values).is_err() {
            self.ran_out = true;
        }
    }
}
