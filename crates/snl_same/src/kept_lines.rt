//! What of a text is compared, as a list of lines.

ghost use Rattle.std.specs.Prelude.{◌≡◌, ◌++◌, ◌∷◌, [], IfOk, OnOk, map, if◌then◌else◌};
ghost use Rattle.snl_output.specs.TraceLines.{whole_lines};
ghost use Rattle.snl_same.specs.Kept as spec;

use crate::filters::Filter;
use crate::words::{channel_of, counts, has_time_of};
use snl_trace::first_line;
use std::alloc::{AllocError, Global};

/// Adds a line, if it is to be added. The only error is that memory ends.
fn push_if<'t>(kept: &mut Vec<&'t [u8]>, line: &'t [u8], is_kept: bool) -> Result<(), AllocError>
    ensures { OnOk result (map (λ l. l.now) kept.new.items ≡ map (λ l. l.now) kept.old.items
        ++ (if is_kept then line.now ∷ [] else [])) }
{
    if is_kept {
        kept.push(line)?;
    }
    Ok(())
}

/// The lines of a text that end in a newline. The only error is that memory ends.
fn lines_in<'t>(alloc: Global, text: &'t [u8]) -> Result<Vec<&'t [u8]>, AllocError>
    ensures { IfOk result (λ lines. map (λ line. line.now) lines.items ≡ whole_lines text.now) }
{
    let mut lines = Vec::new(alloc);
    let mut left = text;
    while let Some((line, rest)) = first_line(left) {
        lines.push(line)?;
        left = rest;
    }
    Ok(lines)
}

/// The lines that count. The only error is that memory ends.
fn counting<'t>(
    alloc: Global,
    filter: Filter,
    lines: &[&'t [u8]],
) -> Result<Vec<&'t [u8]>, AllocError>
    ensures { IfOk result (λ kept. map (λ line. line.now) kept.items
        ≡ spec.counting filter.entry (map (λ line. line.now) lines.now)) }
{
    let mut kept = Vec::new(alloc);
    for line in lines {
        push_if(&mut kept, line, counts(filter, line))?;
    }
    Ok(kept)
}

/// Whether the channel of a put is put to again at the same time.
fn is_put_again(line: &[u8], lines: &[&[u8]]) -> bool
    ensures { result ≡ spec.is_put_again line.now (map (λ next. next.now) lines.now) }
{
    for next in lines {
        if !has_time_of(line, next) {
            return false;
        }
        if channel_of(line) == channel_of(next) {
            return true;
        }
    }
    false
}

/// Of puts the last one to each channel at each time. The only error is that memory ends.
fn last_puts<'t>(alloc: Global, lines: &[&'t [u8]]) -> Result<Vec<&'t [u8]>, AllocError>
    ensures { IfOk result (λ kept. map (λ line. line.now) kept.items
        ≡ spec.last_puts (map (λ line. line.now) lines.now)) }
{
    let mut kept = Vec::new(alloc);
    for (place, line) in lines.iter().enumerate() {
        push_if(&mut kept, line, !is_put_again(line, &lines[place + 1..]))?;
    }
    Ok(kept)
}

/// What is compared of a text. The only error is that memory ends.
pub(crate) fn kept<'t>(
    alloc: Global,
    filter: Filter,
    text: &'t [u8],
) -> Result<Vec<&'t [u8]>, AllocError>
    ensures { IfOk result (λ kept. map (λ line. line.now) kept.items
        ≡ spec.kept filter.entry text.now) }
{
    let lines = lines_in(alloc, text)?;
    let counted = counting(alloc, filter, lines.as_slice())?;
    if filter.puts_only {
        last_puts(alloc, counted.as_slice())
    } else {
        Ok(counted)
    }
}
