//! What the whole numbers of a trace stand for, as comments: lines of a file of units.

use crate::channel::Channel;
use crate::channels::Channels;
use crate::preface::Preface;
use itoa::Buffer;
use snl_logs::{Pattern, Scale, Word};
use snl_units::{ChannelUnits, Unit, push_quoted};
use std::alloc::{AllocError, Global};

/// Adds a text and its number.
fn push_word(line: &mut Vec<u8>, word: &Word) -> Result<(), AllocError> {
    let mut digits = Buffer::new();
    push_quoted(line, word.text.as_slice())?;
    line.push(b':')?;
    line.extend_from_slice(digits.format(word.value).as_bytes())
}

/// Texts and their numbers, as `On:1,Off:0`.
fn words_text(alloc: Global, words: &[Word]) -> Result<Vec<u8>, AllocError> {
    let mut line = Vec::new(alloc);
    for word in words {
        if !line.is_empty() {
            line.push(b',')?;
        }
        push_word(&mut line, word)?;
    }
    Ok(line)
}

/// A pattern, with a star between its pieces.
fn pattern_text(alloc: Global, pattern: &Pattern) -> Result<Vec<u8>, AllocError> {
    let mut line = Vec::new(alloc);
    for (place, piece) in pattern.pieces().iter().enumerate() {
        if place > 0 {
            line.push(b'*')?;
        }
        push_quoted(&mut line, piece.as_slice())?;
    }
    Ok(line)
}

/// Adds ten to the power of an exponent.
fn push_power(line: &mut Vec<u8>, exponent: u64) -> Result<(), AllocError> {
    line.push(b'1')?;
    for _ in 0..exponent {
        line.push(b'0')?;
    }
    Ok(())
}

/// Adds a number.
fn push_number(line: &mut Vec<u8>, number: u64) -> Result<(), AllocError> {
    let mut digits = Buffer::new();
    line.extend_from_slice(digits.format(number).as_bytes())
}

/// A scale: `K`, or `1/N`.
fn scale_text(alloc: Global, scale: Scale) -> Result<Vec<u8>, AllocError> {
    let mut line = Vec::new(alloc);
    if scale.power < 0 {
        line.extend_from_slice(b"1/")?;
    }
    if scale.is_power() {
        push_power(&mut line, scale.power.unsigned_abs().min(99))?;
    } else if scale.bottom == 1 {
        push_number(&mut line, scale.top)?;
    } else {
        line.extend_from_slice(b"1/")?;
        push_number(&mut line, scale.bottom)?;
    }
    Ok(line)
}

/// Adds what the values of a channel stand for.
fn add_channel(
    alloc: Global,
    preface: &mut Preface,
    name: &[u8],
    channel: &Channel,
) -> Result<(), AllocError> {
    let units = &channel.units;
    if units.scale != Scale::of_power(0) {
        let scale = scale_text(alloc, units.scale)?;
        preface.add(&[b"scale", name, scale.as_slice()])?;
    }
    if !units.words().is_empty() {
        let words = words_text(alloc, units.words())?;
        preface.add(&[b"enum", name, words.as_slice()])?;
    }
    match &units.pattern {
        Some(pattern) => {
            let text = pattern_text(alloc, pattern)?;
            preface.add(&[b"text", name, text.as_slice()])
        }
        None => Ok(()),
    }
}

/// Adds what the values of channels stand for.
pub fn add_channels(
    alloc: Global,
    preface: &mut Preface,
    channels: &Channels,
) -> Result<(), AllocError> {
    for (name, channel) in channels.by_name().iter() {
        add_channel(alloc, preface, name.as_slice(), channel)?;
    }
    Ok(())
}

/// Adds which channels tell something of others.
pub fn add_told(preface: &mut Preface, units: &[ChannelUnits]) -> Result<(), AllocError> {
    for one in units {
        match one.unit {
            Unit::Severity => preface.add(&[b"severity", one.name.as_slice()])?,
            Unit::Time => preface.add(&[b"time", one.name.as_slice()])?,
            _ => {}
        }
    }
    Ok(())
}
