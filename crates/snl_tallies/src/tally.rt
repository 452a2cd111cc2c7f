//! A count with its name, and the lines of a file that tell it.

ghost use Rattle.std.specs.Prelude.{◌≡◌, ◌++◌, OnOk};
ghost use Rattle.snl_tallies.specs.Counts as spec;

use itoa::Buffer;
use std::alloc::AllocError;

/// How often something was counted.
#[derive(Drop)]
pub struct Tally {
    /// What was counted.
    pub name: Vec<u8>,
    /// How often.
    pub count: u64,
}

/// Adds the line of a count: its name, a blank, and the number.
fn push_line(out: &mut Vec<u8>, name: &[u8], count: u64) -> Result<(), AllocError>
    ensures { OnOk result (out.new.items ≡ out.old.items ++ spec.line_of name.now count) }
{
    let mut digits = Buffer::new();
    out.extend_from_slice(name)?;
    out.extend_from_slice(b" ")?;
    out.extend_from_slice(digits.format(count).as_bytes())?;
    out.extend_from_slice(b"\n")
}

/// Adds a line for each count: its name, a blank, and the number. The only error is that memory ends; what was added up to then
/// stands.
pub fn push_tallies(out: &mut Vec<u8>, tallies: &[Tally]) -> Result<(), AllocError>
    ensures { OnOk result (out.new.items ≡ out.old.items
        ++ spec.text_of (spec.names_of tallies.now) (spec.counts_of tallies.now)) }
{
    for tally in tallies {
        push_line(out, tally.name.as_slice(), tally.count)?;
    }
    Ok(())
}
