//! The channels of a program, by number.

ghost use Rattle.std.specs.Prelude.{◌≡◌, map, IfOk, OnOk};
ghost use Rattle.snl_channels.specs.LinkViews.{link_view};
ghost use Rattle.snl_load.specs.Names.{noted_all, position_of};
ghost use Rattle.snl_load.specs.Places as spec;
ghost use Rattle.snl_load.specs.Sets.{names_in};

use indexmap::IndexSet;
use snl_channels::Link;
use std::alloc::{AllocError, Global};

/// Gives the name of a channel the next number, if it has none yet. An empty name is that of no channel.
fn note(alloc: Global, name: &[u8], names: &mut IndexSet<Vec<u8>>) -> Result<(), AllocError>
    ensures { OnOk result (names_in names.new ≡ noted_all (names_in names.old)
        (spec.named name.now)) }
{
    if name.is_empty() {
        return Ok(());
    }
    let kept = Vec::from_slice(alloc, name)?;
    names.insert(kept)?;
    Ok(())
}

/// The names of the channels of some links, each once, in the order in which links first name them. A channel's place is
/// its number. The only error is that memory ends.
pub fn channels_of(alloc: Global, links: &[Link]) -> Result<IndexSet<Vec<u8>>, AllocError>
    ensures { IfOk result (λ names. names_in names
        ≡ spec.channels (map link_view links.now)) }
{
    let mut names = IndexSet::new(alloc);
    for link in links {
        note(alloc, link.name.as_slice(), &mut names)?;
    }
    Ok(names)
}

/// The number of the channel of a name; None where no link has such a channel.
pub fn channel_number(names: &IndexSet<Vec<u8>>, name: &[u8]) -> Option<usize>
    ensures { result ≡ position_of (names_in names.now) name.now }
{
    names.get_index_of(name)
}
