//! The alarm that ends a line.

use crate::samples::Severity;
use crate::texts::{is_blank, last_word_of, trimmed_end};

/// The severity that a word names, of an alarm.
fn severity_of(word: &[u8]) -> Option<Severity> {
    match word {
        b"MINOR" => Some(Severity::Minor),
        b"MAJOR" => Some(Severity::Major),
        b"INVALID" => Some(Severity::Invalid),
        _ => None,
    }
}

/// The severity that a word names, or that there is no alarm.
pub fn severity_named(word: &[u8]) -> Option<Severity> {
    match word {
        b"NONE" | b"OK" | b"NO_ALARM" => Some(Severity::None),
        b"UNDEFINED" => Some(Severity::Invalid),
        _ => severity_of(word),
    }
}

/// Whether two blanks end a text: `camonitor` writes them where there is no alarm.
fn ends_blank(text: &[u8]) -> bool {
    match text {
        [.., before, last] => is_blank(*before) && is_blank(*last),
        _ => false,
    }
}

/// What stands before the alarm that ends a text, as `HIGH MINOR`, and how severe it is.
pub fn before_alarm(text: &[u8]) -> (&[u8], Severity) {
    let bare = trimmed_end(text);
    if ends_blank(text) {
        return (bare, Severity::None);
    }
    let (front, word) = last_word_of(bare);
    let (value, status) = last_word_of(trimmed_end(front));
    match severity_of(word) {
        Some(severity) if !status.is_empty() => (trimmed_end(value), severity),
        _ => (bare, Severity::None),
    }
}
