//! The bad line of a trace: it is no event, and how it can be mended.

use bstr::ByteSlice;
use snl_output::push_all;
use snl_trace::{End, TraceFault};
use snl_watch::HeardTrace;
use std::alloc::AllocError;

/// The longest field that is told.
const TOLD: usize = 40;

/// What stands in front of each note.
const FRONT: &[u8] = b"snl: note: ";

/// What was heard of a trace whose run ended so, without the bad line that ended it.
pub(crate) fn without_bad_line(heard: HeardTrace, end: End) -> HeardTrace {
    let mut heard = heard;
    if let End::TraceFault(_, _) = end {
        heard.forget_last();
    }
    heard
}

/// Whether a field is a number with a point or an exponent, as `7.2` and `1e3`.
fn is_decimal(field: &[u8]) -> bool {
    let digits = field.strip_prefix(b"-").unwrap_or(field);
    let mut marks = 0u32;
    for byte in digits {
        match byte {
            b'0'..=b'9' => {}
            b'.' | b'e' | b'E' => marks = marks.saturating_add(1),
            b'-' | b'+' if marks > 0 => {}
            _ => return false,
        }
    }
    marks > 0 && digits.iter().any(|byte| byte.is_ascii_digit()) && field.len() <= TOLD
}

/// Whether a field begins with a date, as `2026-03-02` and `2026-03-02T21:00:00`.
fn is_date(field: &[u8]) -> bool {
    match field {
        [a, b, c, d, b'-', e, f, b'-', g, h, ..] => {
            [*a, *b, *c, *d, *e, *f, *g, *h]
                .iter()
                .all(|byte| byte.is_ascii_digit())
                && field.len() <= TOLD
                && field.iter().all(|byte| byte.is_ascii_graphic())
        }
        _ => false,
    }
}

/// Adds how a bad time can be mended.
fn push_time(out: &mut Vec<u8>, line: &[u8]) -> Result<(), AllocError> {
    let Some(field) = line.fields().next() else {
        return Ok(());
    };
    if is_date(field) {
        return push_all(
            out,
            &[
                FRONT,
                field,
                b" is a date: a time is a whole number of milliseconds\n",
            ],
        );
    }
    if is_decimal(field) {
        return push_all(
            out,
            &[FRONT, field, b" is no whole number of milliseconds\n"],
        );
    }
    Ok(())
}

/// Adds how a bad value can be mended.
fn push_value(out: &mut Vec<u8>, line: &[u8]) -> Result<(), AllocError> {
    for field in line.fields().skip(3) {
        if is_decimal(field) {
            return push_all(out, &[FRONT, field, b" is no whole number: scale it\n"]);
        }
    }
    Ok(())
}

/// Adds how a trace can be mended that is no ASCII text from its begin.
fn push_begin(out: &mut Vec<u8>, line: &[u8]) -> Result<(), AllocError> {
    match line {
        [0xEF, 0xBB, 0xBF, ..] => push_all(
            out,
            &[
                FRONT,
                b"the trace begins with a byte order mark: take its three bytes away\n",
            ],
        ),
        [0xFF, 0xFE, ..] | [0xFE, 0xFF, ..] => {
            push_all(
                out,
                &[FRONT, b"the trace is UTF-16: write it as ASCII text\n"],
            )
        }
        _ => Ok(()),
    }
}

/// Adds a line that says how the line of this number can be mended, where that is known.
pub(crate) fn push_note(
    out: &mut Vec<u8>,
    fault: TraceFault,
    number: u64,
    line: &[u8],
) -> Result<(), AllocError> {
    match fault {
        TraceFault::BadTime => push_time(out, line),
        TraceFault::BadValue => push_value(out, line),
        TraceFault::NotAscii if number == 1 => push_begin(out, line),
        _ => Ok(()),
    }
}
