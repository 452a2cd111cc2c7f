//! What a user is told of the channels of the program that a trace is made for: what they lack, and what logs have beside them.

use crate::channel::Channel;
use crate::channels::Channels;
use crate::shown::{push_all, push_number, push_shown};
use itoa::Buffer;
use std::alloc::AllocError;

/// How many channels that the program does not have are told by their names.
const MOST: usize = 5;

/// Adds a line on a number that the variables of a channel cannot hold.
fn push_misfit(text: &mut Vec<u8>, name: &[u8], misfit: i64) -> Result<(), AllocError> {
    let mut digits = Buffer::new();
    push_shown(text, name)?;
    push_all(text, &[b": no variable of the program can hold "])?;
    push_all(text, &[digits.format(misfit).as_bytes(), b"\n"])
}

/// Adds the word of the call, or the line of a file of units, that gives a channel a value.
fn push_giver(text: &mut Vec<u8>, name: &[u8]) -> Result<(), AllocError> {
    if name == b"CLOCK".as_slice() || name.ends_with(b".TIME") {
        push_all(text, &[b"the line 'time "])?;
        push_shown(text, name)?;
        push_all(text, &[b"' of --units"])
    } else if name.ends_with(b".SEVR") {
        push_all(text, &[b"--severity"])
    } else {
        push_all(text, &[b"--value '"])?;
        push_shown(text, name)?;
        push_all(text, &[b"=N'"])
    }
}

/// Adds a line on a channel that has no value.
fn push_lack(text: &mut Vec<u8>, name: &[u8]) -> Result<(), AllocError> {
    push_shown(text, name)?;
    push_all(text, &[b": no value; "])?;
    push_giver(text, name)?;
    push_all(text, &[b" gives it one\n"])
}

/// Adds what there is to tell of a channel of the program: what its variables cannot hold, and that it has no value, where nothing was
/// told that gives it one.
pub fn push_own(text: &mut Vec<u8>, name: &[u8], channel: &Channel) -> Result<(), AllocError> {
    if let Some(misfit) = channel.misfit {
        push_misfit(text, name, misfit)?;
    }
    if channel.lacks_value() && channel.unread.is_none() && channel.unknown.is_none() {
        push_lack(text, name)
    } else {
        Ok(())
    }
}

/// Adds a line on a channel that the program does not have.
fn push_other(text: &mut Vec<u8>, name: &[u8], foreign: u64) -> Result<(), AllocError> {
    push_shown(text, name)?;
    push_all(text, &[b": no channel of the program; values: "])?;
    push_number(text, foreign)?;
    push_all(text, &[b"\n"])
}

/// Adds a line on how many channels more the program does not have.
fn push_others(text: &mut Vec<u8>, others: u64) -> Result<(), AllocError> {
    push_all(text, &[b"no channel of the program: "])?;
    push_number(text, others)?;
    push_all(text, &[b" more\n"])
}

/// Adds the first channels that the program does not have, and how many more there are.
pub fn push_foreign(text: &mut Vec<u8>, channels: &Channels) -> Result<(), AllocError> {
    let mut count = 0usize;
    for (name, channel) in channels.by_name().iter() {
        if channel.foreign > 0 {
            if count < MOST {
                push_other(text, name.as_slice(), channel.foreign)?;
            }
            count = count.saturating_add(1);
        }
    }
    match count.saturating_sub(MOST) {
        0 => Ok(()),
        others => push_others(text, others as u64),
    }
}
