//! A difference between an output and the wanted one, as text.

use crate::comparer::Difference;
use crate::line_text::LineText;
use crate::visible::push_visible;
use itoa::Buffer;
use std::alloc::{AllocError, Global};

/// Adds a line as it is shown: `nothing` where there is none; two points where it is cut; and that it has no newline, where it is like
/// the other one but for that. The only error is that memory ends.
fn push_shown(out: &mut Vec<u8>, line: &LineText, other: &LineText) -> Result<(), AllocError> {
    if line.is_missing() {
        return out.extend_from_slice(b"nothing");
    }
    push_visible(out, line.shown())?;
    if line.is_cut() {
        out.extend_from_slice(b"..")
    } else if !line.has_end() && line.shown() == other.shown() {
        out.extend_from_slice(b" (and no newline)")
    } else {
        Ok(())
    }
}

/// Adds a line as it is shown, behind what it is called. The only error is that memory ends.
fn push_line(
    out: &mut Vec<u8>,
    called: &[u8],
    line: &LineText,
    other: &LineText,
) -> Result<(), AllocError> {
    out.extend_from_slice(called)?;
    push_shown(out, line, other)?;
    Ok(out.push(b'\n')?)
}

/// Adds the line of the trace that was at work. The only error is that memory ends.
fn push_trace_line(out: &mut Vec<u8>, difference: &Difference) -> Result<(), AllocError> {
    if difference.came.is_missing() || difference.trace_line == 0 {
        return out.extend_from_slice(b"at the end of the trace:\n");
    }
    out.extend_from_slice(b"at line ")?;
    out.extend_from_slice(Buffer::new().format(difference.trace_line).as_bytes())?;
    out.extend_from_slice(b" of the trace:\n")
}

/// Adds which line of the wanted output a difference is in, by the name of its file. The only error is that memory ends.
fn push_place(out: &mut Vec<u8>, file: &[u8], line: u64) -> Result<(), AllocError> {
    out.extend_from_slice(b"  line ")?;
    out.extend_from_slice(Buffer::new().format(line).as_bytes())?;
    out.extend_from_slice(b" of ")?;
    push_visible(out, file)?;
    out.extend_from_slice(b" differs, ")
}

/// Adds a difference as three lines. The only error is that memory ends.
fn push_difference(
    out: &mut Vec<u8>,
    file: &[u8],
    difference: &Difference,
) -> Result<(), AllocError> {
    push_place(out, file, difference.line)?;
    push_trace_line(out, difference)?;
    push_line(out, b"  wanted: ", &difference.wanted, &difference.came)?;
    push_line(out, b"  came: ", &difference.came, &difference.wanted)
}

/// A difference as three lines: which line of the wanted output it is, by the name of its file, with the line of the trace that was at
/// work; that line as it is wanted; and as it came. The only error is that memory ends.
pub fn difference_text(
    alloc: Global,
    file: &[u8],
    difference: &Difference,
) -> Result<Vec<u8>, AllocError> {
    let mut out = Vec::new(alloc);
    push_difference(&mut out, file, difference)?;
    Ok(out)
}
