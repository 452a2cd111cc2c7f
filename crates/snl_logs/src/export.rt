//! The export of one channel by Phoebus or CS-Studio: `TIME VALUE SEVERITY STATUS`, with tabs between.

use crate::fields::{first_field, unquoted};
use crate::samples::{LogLine, Sample, SampleValue, Severity, Stamp};
use crate::severities::severity_named;
use crate::stamps::time_of;
use crate::texts::{trimmed_end, trimmed_start};

/// The channel that a heading names, as `# Channel: NAME`.
pub fn channel_in(line: &[u8]) -> Option<&[u8]> {
    let name = line.strip_prefix(b"# Channel:")?;
    Some(trimmed_end(trimmed_start(name)))
}

/// A field and what stands behind it; the last one may have no mark behind it.
fn next_field(text: &[u8]) -> (&[u8], &[u8]) {
    match first_field(text, b'\t') {
        Some(cut) => cut,
        None => (text, b""),
    }
}

/// The sample of a line.
fn sample_in<'l>(name: &'l [u8], line: &'l [u8]) -> Option<Sample<'l>> {
    let (time, behind) = next_field(line);
    let (value, behind) = next_field(behind);
    let (severity, status) = next_field(behind);
    let said = if unquoted(status) == b"Disconnected".as_slice() {
        SampleValue::Lost
    } else {
        let severity = severity_named(unquoted(severity)).unwrap_or(Severity::None);
        SampleValue::Value(unquoted(value), severity)
    };
    Some(Sample {
        name,
        stamp: Stamp::At(time_of(unquoted(time))?),
        said,
    })
}

/// What a line says of the channel that was named last.
pub fn export_line<'l>(name: &'l [u8], line: &'l [u8]) -> LogLine<'l> {
    let bare = trimmed_end(line);
    if bare.is_empty() || bare.first() == Some(&b'#') || bare.starts_with(b"Time") {
        return LogLine::Silent;
    }
    match sample_in(name, line) {
        Some(sample) => LogLine::Sample(sample),
        None => LogLine::Unknown,
    }
}
