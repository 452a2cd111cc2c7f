//! The CSV of an archiver: `SECONDS,VALUE,SEVERITY,STATUS,NANOSECONDS`, a line a sample, and `TIME,VALUE`.

use crate::fields::{first_field, last_field, unquoted};
use crate::samples::{LogLine, Sample, SampleValue, Severity, Stamp};
use crate::stamps::time_of;
use crate::texts::{spelled, trimmed_end, trimmed_start};

/// The severity of a number, as an archiver has it.
pub fn severity_of_number(number: u64) -> Severity {
    match number {
        0 => Severity::None,
        1 => Severity::Minor,
        2 => Severity::Major,
        _ => Severity::Invalid,
    }
}

/// A time in seconds and nanoseconds, as nanoseconds.
pub fn nanoseconds(seconds: u64, nanos: u64) -> Option<u64> {
    seconds.checked_mul(1_000_000_000)?.checked_add(nanos)
}

/// The sample of a line of five fields. The value may have commas of its own.
fn long_line<'l>(name: &'l [u8], line: &'l [u8]) -> Option<Sample<'l>> {
    let (seconds, behind) = first_field(line, b',')?;
    let (behind, nanos) = last_field(behind, b',')?;
    let (behind, _status) = last_field(behind, b',')?;
    let (value, severity) = last_field(behind, b',')?;
    let time = nanoseconds(spelled(seconds)?, spelled(nanos)?)?;
    let severity = severity_of_number(spelled(severity)?);
    Some(Sample {
        name,
        stamp: Stamp::At(time),
        said: SampleValue::Value(unquoted(value), severity),
    })
}

/// The sample of a line of two fields, whose time is a date or seconds with a point.
fn short_line<'l>(name: &'l [u8], line: &'l [u8]) -> Option<Sample<'l>> {
    let (time, value) = first_field(line, b',')?;
    Some(Sample {
        name,
        stamp: Stamp::At(time_of(unquoted(time))?),
        said: SampleValue::Value(unquoted(value), Severity::None),
    })
}

/// What a line says of the channel that the file is of.
pub fn archive_line<'l>(name: &'l [u8], line: &'l [u8]) -> LogLine<'l> {
    let line = trimmed_end(trimmed_start(line));
    if line.is_empty() {
        return LogLine::Silent;
    }
    match long_line(name, line).or_else(|| short_line(name, line)) {
        Some(sample) => LogLine::Sample(sample),
        None => LogLine::Unknown,
    }
}
