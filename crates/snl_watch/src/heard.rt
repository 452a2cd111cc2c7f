//! What a trace tells, line by line, while it goes to a run: its events, and the names that the program does not have.

use crate::lines::{ChannelEvent, ms_of, word_of};
use crate::zero::Zero;
use bstr::ByteSlice;
use indexmap::{IndexMap, IndexSet};
use std::alloc::{AllocError, Global};

/// How many names are kept that are no channels of the program.
const NAMES_KEPT: usize = 1_000;

/// How many bytes a name has at most that is kept.
const NAME_KEPT: usize = 256;

/// In how many lines a name stands, and in which first, from 1.
#[derive(Clone, Copy, Debug, PartialEq, Eq)]
pub struct NameCount {
    /// How many lines have the name.
    pub lines: u64,
    /// The first of them, from 1.
    pub first: u64,
}

/// The events of some lines: how many there are, and the line of the last, from 1; 0 where there is none.
#[derive(Clone, Copy, Debug, PartialEq, Eq)]
pub struct EventCount {
    /// How many there are.
    pub count: u64,
    /// The line of the last, from 1; 0 where there is none.
    pub last: u64,
}

/// A channel of the program: whether it is up, and since when it is down again, in milliseconds, where it was up before.
#[derive(Clone, Copy)]
struct Channel {
    is_up: bool,
    down_since: Option<u64>,
}

/// A channel that the last line names, by its number, with what was known of it before.
#[derive(Clone, Copy)]
struct Renamed {
    number: usize,
    before: Channel,
}

/// What was heard of a trace. Its size does not grow with the trace: of names that are no channels of the program 1,000 are
/// kept, of at most 256 bytes each.
#[derive(Drop)]
pub struct HeardTrace {
    alloc: Global,
    /// The names of the program's channels, by their numbers.
    channels: IndexSet<Vec<u8>>,
    /// By channel.
    states: Vec<Channel>,
    lines: u64,
    events: EventCount,
    /// Those without the last line.
    before: EventCount,
    others: IndexMap<Vec<u8>, NameCount>,
    /// How many lines have a name that is not kept.
    unkept: u64,
    /// The channel that the last line names, if it names one.
    last: Option<Renamed>,
    /// The date of 0 ms.
    zero: Zero,
    /// Whether memory was refused while the lines passed.
    ran_out: bool,
}

impl HeardTrace {
    /// Nothing was heard yet, of a program with channels of these names. Fails only where memory ran out.
    pub fn new(alloc: Global, channels: IndexSet<Vec<u8>>) -> Result<Self, AllocError> {
        let none = Channel {
            is_up: false,
            down_since: None,
        };
        let nothing = EventCount { count: 0, last: 0 };
        Ok(HeardTrace {
            alloc,
            states: vec![in alloc; none; channels.len()]?,
            channels,
            lines: 0,
            events: nothing,
            before: nothing,
            others: IndexMap::new(alloc),
            unkept: 0,
            last: None,
            zero: Zero::new(),
            ran_out: false,
        })
    }

    /// Hears a line, with or without its newline.
    pub fn note(&mut self, line: &[u8]) {
        self.lines = self.lines.saturating_add(1);
        self.before = self.events;
        self.last = None;
        if line.first() == Some(&b'#') {
            self.zero.note(line, false);
            return;
        }
        let mut fields = line.fields();
        let Some(time) = fields.next() else {
            return;
        };
        self.zero.note(line, true);
        self.events = EventCount {
            count: self.events.count.saturating_add(1),
            last: self.lines,
        };
        let (Some(word), Some(name)) = (fields.next(), fields.next()) else {
            return;
        };
        if let Some(told) = word_of(word) {
            self.note_name(told, ms_of(time), name);
        }
    }

    /// Hears what a line tells of a name.
    fn note_name(&mut self, told: ChannelEvent, ms: u64, name: &[u8]) {
        match self.channels.get_index_of(name) {
            Some(number) => self.note_channel(told, ms, number),
            None => self.note_other(name),
        }
    }

    /// Hears what a line tells of a channel of the program.
    fn note_channel(&mut self, told: ChannelEvent, ms: u64, number: usize) {
        if let Some(channel) = self.states.get_mut(number) {
            self.last = Some(Renamed {
                number,
                before: *channel,
            });
            match told {
                ChannelEvent::Up => {
                    channel.is_up = true;
                    channel.down_since = None;
                }
                ChannelEvent::Down if channel.is_up => {
                    channel.is_up = false;
                    channel.down_since = Some(ms);
                }
                ChannelEvent::Down | ChannelEvent::Else => {}
            }
        }
    }

    /// Hears a name that is no channel of the program.
    fn note_other(&mut self, name: &[u8]) {
        if let Some(named) = self.others.get_mut(name) {
            named.lines = named.lines.saturating_add(1);
            return;
        }
        if self.others.len() == NAMES_KEPT || name.len() > NAME_KEPT {
            self.unkept = self.unkept.saturating_add(1);
            return;
        }
        if self.keep(name).is_err() {
            self.ran_out = true;
        }
    }

    /// Forgets what the last line told of events and of channels, since it is bad: such a line is no event. A name in it that is no
    /// channel of the program stays.
    pub fn forget_last(&mut self) {
        self.events = self.before;
        if let Some(named) = self.last {
            if let Some(channel) = self.states.get_mut(named.number) {
                *channel = named.before;
            }
        }
    }

    /// Keeps a name that was heard for the first time.
    fn keep(&mut self, name: &[u8]) -> Result<(), AllocError> {
        let name = Vec::from_slice(self.alloc, name)?;
        let named = NameCount {
            lines: 1,
            first: self.lines,
        };
        self.others.insert(name, named)?;
        Ok(())
    }

    /// The date of 0 ms, as far as the lines tell it.
    pub fn zero(&self) -> Zero {
        self.zero
    }

    /// How many lines were heard, and so the number of the last one.
    pub fn lines(&self) -> u64 {
        self.lines
    }

    /// The events of all lines. A line that is no comment and not blank counts as one, whether or not it is a good one, unless it
    /// was forgotten.
    pub fn events(&self) -> EventCount {
        self.events
    }

    /// Since when a channel is down that was up before, in milliseconds, by its number; None where it is up, was never up, or
    /// is not there.
    pub fn down_since(&self, channel: usize) -> Option<u64> {
        match self.states.get(channel) {
            Some(state) => state.down_since,
            None => None,
        }
    }

    /// The names that are no channels of the program, in the order in which they came.
    pub fn others(&self) -> &IndexMap<Vec<u8>, NameCount> {
        &self.others
    }

    /// How many lines have further such names, which are not kept.
    pub fn unkept(&self) -> u64 {
        self.unkept
    }

    /// Whether memory ran out while the lines passed, so that a name is missing.
    pub fn ran_out(&self) -> bool {
        self.ran_out
    }
}
