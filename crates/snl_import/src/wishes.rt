//! What a call asks of the trace that is made of logs.

use crate::channels::Channels;
use crate::roles::WishedProgram;
use snl_units::ChannelUnits;
use std::alloc::{AllocError, Global};

/// A number of a channel.
#[derive(Drop)]
pub struct ChannelNumber {
    /// The channel's name.
    pub name: Vec<u8>,
    /// The number.
    pub number: i64,
}

/// A text of a channel, and the number that it stands for.
#[derive(Drop)]
pub struct ChannelText {
    /// The channel's name.
    pub name: Vec<u8>,
    /// The text.
    pub text: Vec<u8>,
    /// The number.
    pub number: i64,
}

/// What a call asks of the trace that is made of logs. Times are nanoseconds of the logs.
#[derive(Drop)]
pub struct Wishes {
    /// The name and the version of what makes the trace.
    pub maker: Vec<u8>,
    /// The program that the trace is made for, where there is one.
    pub program: Option<WishedProgram>,
    /// What a file of units says of channels; what follows counts more.
    pub units: Vec<ChannelUnits>,
    /// The powers of ten that values of channels are multiplied by.
    pub scales: Vec<ChannelNumber>,
    /// The texts that stand for numbers.
    pub texts: Vec<ChannelText>,
    /// The values that channels have when the trace begins, if no log says otherwise.
    pub values: Vec<ChannelNumber>,
    /// Whether alarms are written, as channels `NAME.SEVR`.
    pub tells_alarms: bool,
    /// How long before the first change the trace begins at most.
    pub lead: u64,
    /// The time at which it begins, whatever the logs say.
    pub from: Option<u64>,
    /// The time behind which nothing is read.
    pub to: Option<u64>,
}

/// Notes what a file of units says.
fn set_units(
    alloc: Global,
    channels: &mut Channels,
    units: &[ChannelUnits],
) -> Result<(), AllocError> {
    for one in units {
        channels.set_units(alloc, one)?;
    }
    Ok(())
}

/// Notes the powers of ten.
fn set_scales(
    alloc: Global,
    channels: &mut Channels,
    scales: &[ChannelNumber],
) -> Result<(), AllocError> {
    for scale in scales {
        channels.set_scale(alloc, scale.name.as_slice(), scale.number)?;
    }
    Ok(())
}

/// Notes the texts that stand for numbers.
fn set_texts(
    alloc: Global,
    channels: &mut Channels,
    texts: &[ChannelText],
) -> Result<(), AllocError> {
    for text in texts {
        channels.set_word(
            alloc,
            text.name.as_slice(),
            text.text.as_slice(),
            text.number,
        )?;
    }
    Ok(())
}

/// Notes the values that channels have when the trace begins.
fn give_values(
    alloc: Global,
    channels: &mut Channels,
    values: &[ChannelNumber],
) -> Result<(), AllocError> {
    for value in values {
        channels.give(alloc, value.name.as_slice(), value.number)?;
    }
    Ok(())
}

/// The channels of which a call says something.
pub fn channels_of(alloc: Global, wishes: &Wishes) -> Result<Channels, AllocError> {
    let mut channels = Channels::new(alloc, wishes.tells_alarms);
    if let Some(program) = &wishes.program {
        channels.set_program(alloc, program.channels.as_slice())?;
    }
    set_units(alloc, &mut channels, wishes.units.as_slice())?;
    set_scales(alloc, &mut channels, wishes.scales.as_slice())?;
    set_texts(alloc, &mut channels, wishes.texts.as_slice())?;
    give_values(alloc, &mut channels, wishes.values.as_slice())?;
    Ok(channels)
}
