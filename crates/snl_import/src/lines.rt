//! One line of a trace, if it can be one.

ghost use Rattle.std.specs.Prelude.{◌≡◌, ◌≤◌, ◌^◌, IfOk, length, take, true};
ghost use Rattle.std.specs.Bool.{OnTrue};
ghost use Rattle.snl_trace.specs.Grammar.{Up, Down, Val};
ghost use Rattle.snl_written.specs.Events.{IsEventLine};
ghost use Rattle.snl_written.specs.Written as written;
ghost use Rattle.snl_logs.specs.Held.{numbers_of};
ghost use Rattle.snl_import.specs.Trace.{told_by};

use crate::happenings::Happening;
use snl_logs::Values;
use snl_written::{is_name, write_down, write_up, write_values};
use std::alloc::AllocError;

/// The most bytes of a name that a line speaks of.
const NAME_LIMIT: usize = 32_000;

/// The most bytes of a line, with its newline.
const LINE_LIMIT: usize = 32_769;

/// Whether a line can speak of a name.
fn is_short_name(name: &[u8]) -> bool
    ensures good { OnTrue result (written.is_name name.now ≡ true) }
    ensures short { OnTrue result (length name.now ≤ 32000) }
{
    name.len() <= NAME_LIMIT && is_name(name)
}

/// Whether a name can be up: then the line of it stands in `line`.
fn up_line(line: &mut Vec<u8>, ms: u64, name: &[u8]) -> Result<bool, AllocError>
    requires { ms ≤ 10 ^ 15 }
    ensures { IfOk result (λ fits. OnTrue fits (IsEventLine line.new.items ms (Up name.now))) }
{
    line.clear();
    if !is_short_name(name) {
        return Ok(false);
    }
    write_up(line, ms, name)?;
    Ok(true)
}

/// Whether a name can be down: then the line of it stands in `line`.
fn down_line(line: &mut Vec<u8>, ms: u64, name: &[u8]) -> Result<bool, AllocError>
    requires { ms ≤ 10 ^ 15 }
    ensures { IfOk result (λ fits. OnTrue fits (IsEventLine line.new.items ms (Down name.now))) }
{
    line.clear();
    if !is_short_name(name) {
        return Ok(false);
    }
    write_down(line, ms, name)?;
    Ok(true)
}

/// Whether a name can have values: then the line of them stands in `line`.
fn values_line(
    line: &mut Vec<u8>,
    ms: u64,
    name: &[u8],
    values: &Values,
) -> Result<bool, AllocError>
    requires { ms ≤ 10 ^ 15 }
    ensures { IfOk result (λ fits. OnTrue fits
        (IsEventLine line.new.items ms (Val name.now (take 1024 (numbers_of values.now))))) }
{
    line.clear();
    let values = values.as_slice();
    if values.is_empty() || !is_name(name) {
        return Ok(false);
    }
    write_values(line, ms, name, values)?;
    Ok(line.len() <= LINE_LIMIT)
}

/// Whether a trace can tell what happens to a channel at a time: then the line of it stands in `line`. It cannot where the name or the
/// line is too long, or the name has a byte that none in a trace has, or there is no value.
pub fn event_line(
    line: &mut Vec<u8>,
    ms: u64,
    name: &[u8],
    happening: Happening,
) -> Result<bool, AllocError>
    requires { ms ≤ 10 ^ 15 }
    ensures { IfOk result (λ fits. OnTrue fits
        (IsEventLine line.new.items ms (told_by name.now happening.entry))) }
{
    match happening {
        Happening::Up => up_line(line, ms, name),
        Happening::Down => down_line(line, ms, name),
        Happening::Values(values) => values_line(line, ms, name, values),
    }
}
