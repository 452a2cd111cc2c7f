//! The words of a line of the output: `MS put CHANNEL V ..`.

ghost use Rattle.std.specs.Prelude.{◌≡◌, bytes_eq};
ghost use Rattle.snl_heard.specs.Words.{time_of};
ghost use Rattle.snl_same.specs.Words as spec;

use crate::filters::Filter;
use snl_heard::{behind, word};

/// Whether two lines have the same time.
pub(crate) fn has_time_of(line: &[u8], other: &[u8]) -> bool
    ensures { result ≡ bytes_eq (time_of line.now) (time_of other.now) }
{
    word(line) == word(other)
}

/// The channel of a put.
pub(crate) fn channel_of(line: &[u8]) -> &[u8]
    ensures { result.now ≡ spec.channel_of line.now }
{
    word(behind(behind(line)))
}

/// Whether a line is a put.
pub(crate) fn is_put(line: &[u8]) -> bool
    ensures { result ≡ spec.is_put line.now }
{
    word(behind(line)) == b"put".as_slice()
}

/// Whether a channel is left out.
pub(crate) fn is_left_out(filter: Filter, channel: &[u8]) -> bool
    ensures { result ≡ spec.is_left_out filter.entry channel.now }
{
    filter.but.iter().any(|name| name.as_bytes() == channel)
}

/// Whether a line counts.
pub(crate) fn counts(filter: Filter, line: &[u8]) -> bool
    ensures { result ≡ spec.counts filter.entry line.now }
{
    if is_put(line) {
        !is_left_out(filter, channel_of(line))
    } else {
        !filter.puts_only
    }
}
