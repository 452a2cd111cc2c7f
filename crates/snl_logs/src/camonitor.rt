//! The lines of `camonitor`.

use crate::samples::{LogLine, Sample, SampleValue, Stamp};
use crate::severities::before_alarm;
use crate::stamps::{time_at, time_in_brackets};
use crate::texts::{trimmed_end, trimmed_start, word_of};

/// What `camonitor` writes for a time that a channel does not have.
const UNDEFINED: &[u8] = b"<undefined>";

/// The time behind a name, and the text behind it. Of two the one in brackets counts, which is that of the client.
fn stamp_of(text: &[u8]) -> (Stamp, &[u8]) {
    let (first, behind) = first_stamp(text);
    match time_in_brackets(trimmed_start(behind)) {
        Some((time, rest)) => (Stamp::At(time), rest),
        None => (first, behind),
    }
}

/// The first time behind a name, if it is not in brackets, and the text behind it.
fn first_stamp(text: &[u8]) -> (Stamp, &[u8]) {
    if let Some(rest) = text.strip_prefix(UNDEFINED) {
        return (Stamp::Untold, rest);
    }
    match time_at(text) {
        Some((time, rest)) => (Stamp::At(time), rest),
        None => (Stamp::Untold, text),
    }
}

/// What is said behind the time: that the channel is not connected, a value, or what is not understood.
fn said_of(text: &[u8]) -> Option<SampleValue> {
    match text.strip_prefix(b"*** ") {
        Some(notice) => match trimmed_end(notice) {
            b"disconnected" => Some(SampleValue::Lost),
            b"Not connected (PV not found)" => Some(SampleValue::Lost),
            _ => None,
        },
        None => {
            let (value, severity) = before_alarm(text);
            Some(SampleValue::Value(value, severity))
        }
    }
}

/// What a line of `camonitor` says: a name, a time in one of its forms, and a value with its alarm, or `*** disconnected`.
pub fn camonitor_line(line: &[u8]) -> LogLine {
    let (name, behind) = word_of(line);
    if name.is_empty() {
        return if trimmed_start(line).is_empty() {
            LogLine::Silent
        } else {
            LogLine::Unknown
        };
    }
    let (stamp, rest) = stamp_of(trimmed_start(behind));
    match said_of(behind_space(rest)) {
        Some(said) => LogLine::Sample(Sample { name, stamp, said }),
        None => LogLine::Unknown,
    }
}

/// A text without the one space that it begins with.
fn behind_space(text: &[u8]) -> &[u8] {
    match text {
        [b' ', behind @ ..] => behind,
        _ => text,
    }
}
