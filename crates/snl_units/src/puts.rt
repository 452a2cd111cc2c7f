//! A line by which a program puts, with values that a person gives.

use crate::faults::PutFault;
use crate::units::ChannelUnits;
use crate::values::{are_of, text_number, value_of};
use itoa::Buffer;
use std::alloc::{AllocError, Global};

/// Adds a number.
fn push_number(line: &mut String, number: i64) -> Result<(), AllocError> {
    let mut digits = Buffer::new();
    line.push_str(digits.format(number))
}

/// Adds values with a blank between them, each as the number of a trace. A blank too many stays.
fn push_values<'t>(
    units: &[ChannelUnits],
    name: &str,
    values: &'t str,
    line: &mut String,
) -> Result<(), PutFault<'t>> {
    for word in values.split(' ') {
        line.push_str(" ")?;
        if !word.is_empty() {
            match value_of(units, name.as_bytes(), word.as_bytes()) {
                Ok(number) => push_number(line, number)?,
                Err(fault) => return Err(PutFault::Value(word, fault)),
            }
        }
    }
    Ok(())
}

/// Adds what is put: a text with its blanks, where it stands for a number, or values.
fn push_put<'t>(
    units: &[ChannelUnits],
    name: &str,
    values: &'t str,
    line: &mut String,
) -> Result<(), PutFault<'t>> {
    match text_number(units, name.as_bytes(), values.as_bytes()) {
        Some(number) => {
            line.push_str(" ")?;
            push_number(line, number)?;
            Ok(())
        }
        None => push_values(units, name, values, line),
    }
}

/// The channel and the values of `put CHANNEL VALUE ..`.
fn put_of(line: &str) -> Option<(&str, &str)> {
    line.strip_prefix("put ")?.split_once(' ')
}

/// A line that a run may write, with the values of a put as a trace has them: those that a person gives stand in the units of its
/// channel. Any other line, and one with a time in front, as a run has it, stays as it is. Fails with the first value that is none, or
/// where memory ran out.
pub fn line_in_units<'t>(
    alloc: Global,
    units: &[ChannelUnits],
    line: &'t str,
) -> Result<String, PutFault<'t>> {
    match put_of(line) {
        Some((name, values)) if are_of(units, name.as_bytes()) => {
            let mut text = String::from_str(alloc, "put ")?;
            text.push_str(name)?;
            push_put(units, name, values, &mut text)?;
            Ok(text)
        }
        _ => Ok(String::from_str(alloc, line)?),
    }
}
