//! The JSON of an archiver, an object a line: a number keeps its digits.

use crate::archive::{nanoseconds, severity_of_number};
use crate::samples::{LogLine, Sample, SampleValue, Severity, Stamp};
use crate::texts::{spelled, trimmed_end, trimmed_start};
use memchr::memmem;

/// The key of a time.
const SECONDS: &[u8] = b"\"secs\"";

/// What stands behind a key and its colon.
fn behind_key<'l>(line: &'l [u8], key: &[u8]) -> Option<&'l [u8]> {
    let place = memmem::find(line, key)?;
    let behind = trimmed_start(line.get(place..)?.get(key.len()..)?);
    match behind {
        [b':', value @ ..] => Some(trimmed_start(value)),
        _ => None,
    }
}

/// A value up to the first byte of some, which is not in it.
fn up_to<'l>(text: &'l [u8], ends: &[u8]) -> Option<&'l [u8]> {
    let place = text.iter().position(|byte| ends.contains(byte))?;
    text.get(..place)
}

/// The value of a key: a number or a word, or the text of a string.
fn member<'l>(line: &'l [u8], key: &[u8]) -> Option<&'l [u8]> {
    match behind_key(line, key)? {
        [b'"', text @ ..] => up_to(text, b"\""),
        text => Some(trimmed_end(up_to(text, b",}")?)),
    }
}

/// The whole number of a key.
fn whole(line: &[u8], key: &[u8]) -> Option<u64> {
    spelled(member(line, key)?)
}

/// What is said of a channel whose value is this: an array stands in brackets.
fn said_in(line: &[u8], severity: Severity) -> Option<SampleValue> {
    match behind_key(line, b"\"val\"")? {
        [b'[', items @ ..] => Some(SampleValue::Items(up_to(items, b"]")?, severity)),
        _ => Some(SampleValue::Value(member(line, b"\"val\"")?, severity)),
    }
}

/// The sample of a line.
fn sample_in<'l>(name: &'l [u8], line: &'l [u8]) -> Option<Sample<'l>> {
    let seconds = whole(line, SECONDS)?;
    let nanos = whole(line, b"\"nanos\"").unwrap_or(0);
    let severity = match whole(line, b"\"severity\"") {
        Some(number) => severity_of_number(number),
        None => Severity::None,
    };
    Some(Sample {
        name,
        stamp: Stamp::At(nanoseconds(seconds, nanos)?),
        said: said_in(line, severity)?,
    })
}

/// When the channel of a sample was lost before it, as an archiver tells of the first sample behind that: `"cnxlostepsecs": "SECONDS"`. 0 is
/// no time.
pub fn json_loss<'l>(name: &'l [u8], line: &'l [u8]) -> Option<Sample<'l>> {
    match whole(line, b"\"cnxlostepsecs\"")? {
        0 => None,
        seconds => Some(Sample {
            name,
            stamp: Stamp::At(nanoseconds(seconds, 0)?),
            said: SampleValue::Lost,
        }),
    }
}

/// The name that a line gives the channel of those that follow, as `"meta": { "name": "NAME" }`.
pub fn name_in(line: &[u8]) -> Option<&[u8]> {
    member(line, b"\"name\"")
}

/// Whether a line has a sample.
fn has_sample(line: &[u8]) -> bool {
    memmem::find(line, SECONDS).is_some()
}

/// Whether a line has more than one sample.
fn has_more(line: &[u8]) -> bool {
    memmem::find(line, SECONDS) != memmem::rfind(line, SECONDS)
}

/// What a line says of the channel that was named last. More than one sample in a line are not understood.
pub fn json_line<'l>(name: &'l [u8], line: &'l [u8]) -> LogLine<'l> {
    if !has_sample(line) {
        return LogLine::Silent;
    }
    match sample_in(name, line) {
        Some(sample) if !has_more(line) => LogLine::Sample(sample),
        _ => LogLine::Unknown,
    }
}
