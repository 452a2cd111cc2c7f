//! What is known of the channels of logs.

use crate::channel::{Begun, Channel};
use crate::counts::Left;
use crate::roles::{ProgramChannel, Role};
use indexmap::IndexMap;
use snl_logs::{Scale, Values};
use snl_units::{ChannelUnits, Unit};
use std::alloc::{AllocError, Global};

/// What stands behind the name of a channel, of its alarm.
const ALARM: &[u8] = b".SEVR";

/// The channels of logs, by their names, in the order in which they come.
#[derive(Drop)]
pub struct Channels {
    by_name: IndexMap<Vec<u8>, Channel>,
    /// Whether the alarms of all channels are told.
    tells_alarms: bool,
    /// Whether the clock is told, as a channel.
    tells_clock: bool,
    /// Whether the trace is made for a program: what is not one of its channels is left out.
    is_for_program: bool,
}

/// The name of a record, of a channel that tells something of it.
fn record_of(name: &[u8]) -> &[u8] {
    match name.iter().rposition(|byte| *byte == b'.') {
        Some(place) => &name[..place],
        None => name,
    }
}

impl Channels {
    /// None. Of those that come the alarms are told where that is asked for.
    pub fn new(alloc: Global, tells_alarms: bool) -> Channels {
        Channels {
            by_name: IndexMap::new(alloc),
            tells_alarms,
            tells_clock: false,
            is_for_program: false,
        }
    }

    /// Whether the clock is told, as a channel.
    pub fn tells_clock(&self) -> bool {
        self.tells_clock
    }

    /// What a channel is to the program that is not among its own.
    fn new_role(&self) -> Role {
        if self.is_for_program {
            Role::Foreign
        } else {
            Role::Any
        }
    }

    /// The trace is made for a program with these channels. Those that are not monitored are connected when the trace begins, unless a
    /// log says otherwise. Where alarms are told, they are told by those that the program has.
    pub fn set_program(
        &mut self,
        alloc: Global,
        program: &[ProgramChannel],
    ) -> Result<(), AllocError> {
        self.is_for_program = true;
        for one in program {
            if let Some(channel) = self.channel(alloc, one.name.as_slice())? {
                channel.role = one.role();
                channel.is_up = channel.role == Role::Put;
            }
        }
        if self.tells_alarms {
            self.tell_alarms(alloc, program)?;
        }
        Ok(())
    }

    /// Tells the alarms that a program has channels of.
    fn tell_alarms(&mut self, alloc: Global, program: &[ProgramChannel]) -> Result<(), AllocError> {
        for one in program {
            if one.name.as_slice().ends_with(ALARM) {
                self.tell(alloc, one.name.as_slice(), &Unit::Severity)?;
            }
        }
        Ok(())
    }

    /// Notes that a value of a channel was written.
    pub fn note_written(&mut self, name: &[u8]) {
        if !self.is_for_program {
            return;
        }
        if let Some(channel) = self.by_name.get_mut(name) {
            channel.is_written = true;
        }
    }

    /// Notes that values of a channel were left out, and why.
    pub fn note_left(&mut self, name: &[u8], left: Left, values: &Values) {
        let Some(channel) = self.by_name.get_mut(name) else {
            return;
        };
        match left {
            Left::Foreign => channel.foreign = channel.foreign.saturating_add(1),
            Left::Misfit if channel.misfit.is_none() => {
                channel.misfit = values.as_slice().first().copied();
            }
            _ => {}
        }
    }

    /// How many channels a program begins with a value of that have none.
    pub fn lacking(&self) -> usize {
        self.by_name
            .values()
            .filter(|channel| channel.lacks_value())
            .count()
    }

    /// The place of a channel, which is added where it is new.
    fn place_of(&mut self, alloc: Global, name: &[u8]) -> Result<Option<usize>, AllocError> {
        if let Some(place) = self.by_name.get_index_of(name) {
            return Ok(Some(place));
        }
        let name = Vec::from_slice(alloc, name)?;
        let mut channel = Channel::new(alloc, self.new_role());
        channel.tells_alarm = self.tells_alarms && !self.is_for_program;
        self.by_name.insert(name, channel)?;
        Ok(self.by_name.len().checked_sub(1))
    }

    /// The channel of a name, which is added where it is new.
    pub fn channel(
        &mut self,
        alloc: Global,
        name: &[u8],
    ) -> Result<Option<&mut Channel>, AllocError> {
        match self.place_of(alloc, name)? {
            Some(place) => Ok(self.by_name.get_index_mut(place)),
            None => Ok(None),
        }
    }

    /// The values of a channel are multiplied by a power of ten.
    pub fn set_scale(&mut self, alloc: Global, name: &[u8], power: i64) -> Result<(), AllocError> {
        if let Some(channel) = self.channel(alloc, name)? {
            channel.units.scale = Scale::of_power(power);
        }
        Ok(())
    }

    /// Notes what a file of units says of a channel, or of a record.
    pub fn set_units(&mut self, alloc: Global, units: &ChannelUnits) -> Result<(), AllocError> {
        let name = units.name.as_slice();
        match &units.unit {
            Unit::Severity | Unit::Time => self.tell(alloc, name, &units.unit),
            unit => match self.channel(alloc, name)? {
                Some(channel) => channel.set_unit(alloc, unit),
                None => Ok(()),
            },
        }
    }

    /// Tells the alarm or the time of a record by a channel of this name.
    fn tell(&mut self, alloc: Global, name: &[u8], unit: &Unit) -> Result<(), AllocError> {
        if name == b"CLOCK".as_slice() {
            self.tells_clock = true;
            return Ok(());
        }
        if let Some(channel) = self.channel(alloc, record_of(name))? {
            match unit {
                Unit::Time => channel.tells_time = true,
                _ => channel.tells_alarm = true,
            }
        }
        Ok(())
    }

    /// A text of a channel stands for a number.
    pub fn set_word(
        &mut self,
        alloc: Global,
        name: &[u8],
        text: &[u8],
        value: i64,
    ) -> Result<(), AllocError> {
        match self.channel(alloc, name)? {
            Some(channel) => channel.units.add(alloc, text, value),
            None => Ok(()),
        }
    }

    /// A channel is connected and has a value when the trace begins, unless a log says otherwise of the time before.
    pub fn give(&mut self, alloc: Global, name: &[u8], value: i64) -> Result<(), AllocError> {
        match self.channel(alloc, name)? {
            Some(channel) => channel.give(alloc, value),
            None => Ok(()),
        }
    }

    /// How many there are.
    pub fn len(&self) -> usize {
        self.by_name.len()
    }

    /// The channel at a place, as it is when the trace begins; the value that it has stands in `values` then.
    pub fn begun(
        &mut self,
        alloc: Global,
        place: usize,
        values: &mut Values,
    ) -> Result<Option<Begun>, AllocError> {
        let name = match self.by_name.get_index(place) {
            Some((name, _)) => Vec::from_slice(alloc, name.as_slice())?,
            None => return Ok(None),
        };
        match self.by_name.get_index_mut(place) {
            Some(channel) => Ok(Some(channel.begun(name, values)?)),
            None => Ok(None),
        }
    }

    /// The channels by their names, in the order in which they came.
    pub fn by_name(&self) -> &IndexMap<Vec<u8>, Channel> {
        &self.by_name
    }
}
