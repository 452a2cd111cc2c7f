//! What a file of counts says, read back.

ghost use Rattle.std.specs.Prelude.{◌≡◌, ◌⊎◌, [], IfErr, IfOk};
ghost use Rattle.snl_tallies.specs.Counts.{IsFileOf, IsNoFileOf, names_of};
ghost use Rattle.snl_tallies.specs.declared.faults.ReadFault.TheVariants.{Memory};

use crate::faults::ReadFault;
use crate::heads::Head;
use crate::lines::{Counted, first_count};
use crate::tally::Tally;
use std::alloc::Global;

/// What is wrong with the line of a number, behind which a text goes on.
fn fault_at(line: u64, text: &[u8]) -> ReadFault {
    if text.contains(&b'\n') {
        ReadFault::Line(line)
    } else {
        ReadFault::Cut(line)
    }
}

/// The counts that the lines behind the first one tell, whose names are those of some counts.
fn counts_in(alloc: Global, tallies: &[Tally], text: &[u8]) -> Result<Vec<u64>, ReadFault>
    ensures ok { IfOk result (λ counts. IsFileOf [] (names_of tallies.now) counts.items text.now) }
    ensures err { IfErr result (λ e. (e ≡ Memory) ⊎ IsNoFileOf [] (names_of tallies.now) text.now) }
{
    let mut counts = Vec::new(alloc);
    let mut rest = text;
    let mut line = 2u64;
    for tally in tallies {
        match first_count(rest, tally.name.as_slice()) {
            Some(
                Counted {
                    count,
                    rest: behind,
                },
            ) => {
                match counts.push(count) {
                    Ok(()) => rest = behind,
                    Err(_) => return Err(ReadFault::Memory),
                }
            }
            None => return Err(fault_at(line, rest)),
        }
        line = line.saturating_add(1);
    }
    if rest.is_empty() {
        Ok(counts)
    } else {
        Err(ReadFault::Line(line))
    }
}

/// The counts that a file has, whose first line has to be this one, and whose lines have to have the names of these counts.
///
/// Each other file is refused, whatever is wrong with it. Else the only error is that memory ends.
pub fn read_counts(
    alloc: Global,
    head: &Head,
    tallies: &[Tally],
    text: &[u8],
) -> Result<Vec<u64>, ReadFault>
    ensures ok { IfOk result (λ counts. IsFileOf head.now.line.items (names_of tallies.now)
        counts.items text.now) }
    ensures err { IfErr result (λ e. (e ≡ Memory)
        ⊎ IsNoFileOf head.now.line.items (names_of tallies.now) text.now) }
{
    match text.strip_prefix(head.line()) {
        Some(behind) => counts_in(alloc, tallies, behind),
        None => Err(head.fault_of(text)),
    }
}
