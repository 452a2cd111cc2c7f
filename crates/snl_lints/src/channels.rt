//! The names of channels: their macros, and whether a line of a trace can tell them.

ghost use Rattle.std.specs.Prelude.{◌≡◌, ◌+◌, ◌<◌, ◌≤◌, false, length, slice_index, IfOk, IfSome, None, is_some};
ghost use Rattle.std.specs.List.{list_all};
ghost use Rattle.snl_channels.specs.Macros.{replaced};
ghost use Rattle.snl_channels.specs.MacroTables.{found_in, value_in};
ghost use Rattle.snl_lints.specs.Channels as spec;

use snl_channels::MacroTable;
use std::alloc::{AllocError, Global};

/// Where what stands since an open `{` begins, behind the byte at a place.
#[tactic(auto, using(crate::proofs::ChannelLaws::range_more, crate::proofs::ChannelLaws::empty_range))]
fn opened_after(name: &[u8], opened: Option<usize>, at: usize) -> Option<usize>
    requires inside { at < length name.now }
    requires behind { IfSome opened (λ from. from ≤ at) }
    ensures kept { spec.kept_at name.now (at + 1) result
        ≡ spec.kept_after (spec.kept_at name.now at opened) (slice_index name.now at) }
    ensures behind { IfSome result (λ from. from ≤ at + 1) }
{
    match opened {
        None => { if name[at] == b'{' { Some(at + 1) } else { None } }
        Some(from) => { if name[at] == b'}' { None } else { Some(from) } }
    }
}

/// Whether the byte at a place ends the name of a macro that has no definition.
fn ends_undefined(name: &[u8], opened: Option<usize>, at: usize, macros: &MacroTable) -> bool
    requires inside { at < length name.now }
    requires behind { IfSome opened (λ from. from ≤ at) }
    ensures { result ≡ spec.ends_undefined (λ q. is_some (found_in macros.now q))
        (spec.kept_at name.now at opened) (slice_index name.now at) }
{
    match opened {
        Some(from) => name[at] == b'}' && !macros.is_defined(&name[from..at]),
        None => false,
    }
}

/// Whether some macro in a name has no definition: from each `{` up to the next `}` stands the name of one.
#[tactic(auto, using(crate::proofs::ChannelLaws::undefined_step, crate::proofs::ChannelLaws::undefined_found))]
pub fn has_undefined(name: &[u8], macros: &MacroTable) -> bool
    ensures { result ≡ spec.has_undefined (λ q. is_some (found_in macros.now q)) None name.now }
{
    let mut opened: Option<usize> = None;
    for at in 0..name.len() {
        if ends_undefined(name, opened, at, macros) {
            return true;
        }
        opened = opened_after(name, opened, at);
    }
    false
}

/// Whether a `{` is open behind one more byte.
fn opens_after(opened: bool, byte: u8) -> bool
    ensures { result ≡ spec.opens_after opened byte }
{
    if opened { byte != b'}' } else { byte == b'{' }
}

/// Whether a `{` in a name has no `}` behind it.
pub fn is_open(name: &[u8]) -> bool
    ensures { result ≡ spec.is_open false name.now }
{
    let mut opened = false;
    for byte in name {
        opened = opens_after(opened, *byte);
    }
    opened
}

/// Whether a byte can stand in a field of a line.
fn is_mark(byte: u8) -> bool
    ensures { result ≡ spec.is_mark byte }
{
    33 <= byte && byte <= 126
}

/// Whether all bytes of a name can.
fn is_all_marks(name: &[u8]) -> bool
    ensures { result ≡ list_all spec.is_mark name.now }
{
    name.iter().all(|byte| is_mark(*byte))
}

/// Whether no line of a trace can name a channel.
fn is_unspoken(name: &[u8]) -> bool
    ensures { result ≡ spec.is_unspoken name.now }
{
    !(is_all_marks(name) && name.len() <= 32_763)
}

/// Whether no line of a trace can name a channel, by its name before macros. The only error is that memory ends.
pub fn is_unspoken_after(
    alloc: Global,
    name: &[u8],
    macros: &MacroTable,
) -> Result<bool, AllocError>
    ensures { IfOk result (λ found. found
        ≡ spec.is_unspoken (replaced (value_in macros.now) None name.now)) }
{
    let after = macros.replaced(alloc, name)?;
    Ok(is_unspoken(after.as_slice()))
}
