//! What the fields of a line of a trace say, as far as a listener asks, and its number.

/// The number of a line as one of 64 bits, at most the greatest.
pub fn line_number(number: u128) -> u64 {
    u64::try_from(number).unwrap_or(u64::MAX)
}

/// What a line tells of its channel.
#[derive(Clone, Copy, Debug, PartialEq, Eq)]
pub(crate) enum ChannelEvent {
    Up,
    Down,
    /// Values, or answers to puts.
    Else,
}

/// What the word of a line tells of the channel behind it; None where none stands there.
pub(crate) fn word_of(field: &[u8]) -> Option<ChannelEvent> {
    match field {
        b"up" => Some(ChannelEvent::Up),
        b"down" => Some(ChannelEvent::Down),
        b"val" | b"done" => Some(ChannelEvent::Else),
        _ => None,
    }
}

/// The number that digits at the front of a text spell; one beyond 64 bits counts as the greatest there.
pub(crate) fn ms_of(text: &[u8]) -> u64 {
    let mut ms = 0u64;
    for byte in text {
        if !byte.is_ascii_digit() {
            return ms;
        }
        ms = ms.saturating_mul(10).saturating_add((*byte - b'0') as u64);
    }
    ms
}
