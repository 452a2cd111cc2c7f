//! One line of a trace: a time, a word and what follows it, with a space between.

ghost use Rattle.std.specs.Prelude.{◌≡◌, ◌∷◌, ◌++◌, [], codes, decimal, map, OnOk};
ghost use Rattle.std.specs.Fmt.{signed_decimal};
ghost use Rattle.std.specs.List.{flat_map};
ghost use Rattle.snl_written.specs.Written as spec;

use itoa::Buffer;
use std::alloc::AllocError;

/// Whether all bytes are printable ASCII, and none is a space.
fn are_name_bytes(name: &[u8]) -> bool
    ensures { result ≡ spec.are_name_bytes name.now }
{
    name.iter().all(|byte| 33 <= *byte && *byte <= 126)
}

/// Whether a trace can have this name: it has a byte, and all are printable ASCII other than the space.
pub fn is_name(name: &[u8]) -> bool
    ensures { result ≡ spec.is_name name.now }
{
    !name.is_empty() && are_name_bytes(name)
}

/// Adds a space and a word.
fn push_word(out: &mut Vec<u8>, word: &[u8]) -> Result<(), AllocError>
    ensures { OnOk result (out.new.items ≡ out.old.items ++ spec.spaced word.now) }
{
    out.push(b' ')?;
    out.extend_from_slice(word)
}

/// Adds words, each behind a space.
fn push_words(out: &mut Vec<u8>, words: &[&[u8]]) -> Result<(), AllocError>
    ensures { OnOk result (out.new.items
        ≡ out.old.items ++ flat_map spec.spaced (map (λ word. word.now) words.now)) }
{
    for word in words {
        push_word(out, word)?;
    }
    Ok(())
}

/// Adds a value behind a space.
fn push_value(out: &mut Vec<u8>, value: i64) -> Result<(), AllocError>
    ensures { OnOk result (out.new.items ≡ out.old.items ++ spec.spaced (signed_decimal value)) }
{
    let mut digits = Buffer::new();
    push_word(out, digits.format(value).as_bytes())
}

/// Adds values, each behind a space.
fn push_values(out: &mut Vec<u8>, values: &[i64]) -> Result<(), AllocError>
    ensures { OnOk result (out.new.items
        ≡ out.old.items ++ flat_map spec.spaced (map signed_decimal values.now)) }
{
    for value in values {
        push_value(out, *value)?;
    }
    Ok(())
}

/// Adds a time, in milliseconds.
fn push_time(out: &mut Vec<u8>, ms: u64) -> Result<(), AllocError>
    ensures { OnOk result (out.new.items ≡ out.old.items ++ decimal ms) }
{
    let mut digits = Buffer::new();
    out.extend_from_slice(digits.format(ms).as_bytes())
}

/// A time and words, as a line.
fn push_line(out: &mut Vec<u8>, ms: u64, words: &[&[u8]]) -> Result<(), AllocError>
    ensures { OnOk result (out.new.items
        ≡ out.old.items ++ spec.line_with ms (map (λ word. word.now) words.now)) }
{
    push_time(out, ms)?;
    push_words(out, words)?;
    out.push(b'\n')?;
    Ok(())
}

/// Adds the line `MS up NAME`: a channel is connected. The time is in milliseconds. The only error is that memory ends; what was
/// added then is the front of the line.
pub fn write_up<'t>(out: &mut Vec<u8>, ms: u64, name: &'t [u8]) -> Result<(), AllocError>
    ensures { OnOk result (out.new.items ≡ out.old.items ++ spec.up_line ms name.now) }
{
    push_line(out, ms, &[b"up", name])
}

/// Adds the line `MS down NAME`: a channel is not connected any more. The time is in milliseconds. The only error is that memory
/// ends; what was added then is the front of the line.
pub fn write_down<'t>(out: &mut Vec<u8>, ms: u64, name: &'t [u8]) -> Result<(), AllocError>
    ensures { OnOk result (out.new.items ≡ out.old.items ++ spec.down_line ms name.now) }
{
    push_line(out, ms, &[b"down", name])
}

/// Adds the line `MS done NAME`: the puts to a channel were answered. The time is in milliseconds. The only error is that memory
/// ends; what was added then is the front of the line.
pub fn write_done<'t>(out: &mut Vec<u8>, ms: u64, name: &'t [u8]) -> Result<(), AllocError>
    ensures { OnOk result (out.new.items ≡ out.old.items ++ spec.done_line ms name.now) }
{
    push_line(out, ms, &[b"done", name])
}

/// Adds the line `MS tick`: time has passed. The time is in milliseconds. The only error is that memory ends; what was added then
/// is the front of the line.
pub fn write_tick(out: &mut Vec<u8>, ms: u64) -> Result<(), AllocError>
    ensures { OnOk result (out.new.items ≡ out.old.items ++ spec.tick_line ms) }
{
    push_line(out, ms, &[b"tick"])
}

/// Adds the line `MS val NAME VALUE ..`: a channel has these values. The time is in milliseconds. The only error is that memory
/// ends; what was added then is the front of the line.
pub fn write_values<'t>(
    out: &mut Vec<u8>,
    ms: u64,
    name: &'t [u8],
    values: &[i64],
) -> Result<(), AllocError>
    ensures { OnOk result (out.new.items
        ≡ out.old.items ++ spec.values_line ms name.now values.now) }
{
    push_time(out, ms)?;
    push_words(out, &[b"val", name])?;
    push_values(out, values)?;
    out.push(b'\n')?;
    Ok(())
}
