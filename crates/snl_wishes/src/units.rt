//! The words of a search in the units of a call.

use snc::Status;
use snl_alphabet::WishedValues;
use snl_args::ChannelValues;
use snl_units::{ChannelUnits, PutFault, ValueFault, line_in_units, value_of};
use std::alloc::AllocError;

/// Tells that a value of a word is none of its channel.
fn told_value(
    rt: &HostRuntime,
    option: &str,
    word: &str,
    value: &str,
    fault: ValueFault,
) -> Status {
    let _ = eprintln!(rt; "error: '--{option} {word}': '{value}' {fault}");
    Status::Usage
}

/// Tells that a value of a channel is none.
fn told_named(
    rt: &HostRuntime,
    option: &str,
    given: &ChannelValues,
    value: &str,
    fault: ValueFault,
) -> Result<Status, AllocError> {
    let word = format!(in rt.alloc(); "{}={value}", given.name)?;
    Ok(told_value(rt, option, word.as_str(), value, fault))
}

/// The values of a channel, as whole numbers of a trace. Where one is none, the user is told.
fn values_in(
    rt: &HostRuntime,
    units: &[ChannelUnits],
    option: &str,
    given: &ChannelValues,
) -> Result<Vec<i64>, Status> {
    let mut values = Vec::new(rt.alloc());
    for value in &given.values {
        match value_of(units, given.name.as_bytes(), value.as_bytes()) {
            Ok(number) => values.push(number)?,
            Err(fault) => return Err(told_named(rt, option, given, value.as_str(), fault)?),
        }
    }
    Ok(values)
}

/// The values that a word of a call gives channels, as whole numbers of a trace. Where one is none, the user is told.
pub fn wished_values(
    rt: &HostRuntime,
    units: &[ChannelUnits],
    option: &str,
    given: &[ChannelValues],
) -> Result<Vec<WishedValues>, Status> {
    let mut all = Vec::new(rt.alloc());
    for one in given {
        let wished = WishedValues {
            name: String::from_str(rt.alloc(), one.name.as_str())?,
            values: values_in(rt, units, option, one)?,
        };
        all.push(wished)?;
    }
    Ok(all)
}

/// A line that must not come, with the values of a put as a trace has them. Where one is none, the user is told.
fn line_of(rt: &HostRuntime, units: &[ChannelUnits], word: &str) -> Result<String, Status> {
    match line_in_units(rt.alloc(), units, word) {
        Ok(line) => Ok(line),
        Err(PutFault::Memory) => Err(Status::Memory),
        Err(PutFault::Value(value, fault)) => Err(told_value(rt, "never", word, value, fault)),
    }
}

/// The lines that must not come, with the values of puts as a trace has them. Where one is none, the user is told.
pub fn wished_lines(
    rt: &HostRuntime,
    units: &[ChannelUnits],
    words: &[String],
) -> Result<Vec<String>, Status> {
    let mut all = Vec::new(rt.alloc());
    for word in words {
        let line = line_of(rt, units, word.as_str())?;
        all.push(line)?;
    }
    Ok(all)
}
