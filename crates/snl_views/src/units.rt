//! What the numbers of a program's links stand for.

use snl_links::Link;
use snl_units::ChannelUnits;
use std::alloc::{AllocError, Global};

/// What the numbers of links stand for, in the order of these.
pub(crate) fn units_of<'u>(
    alloc: Global,
    links: &[Link],
    units: &'u [ChannelUnits],
) -> Result<Vec<Option<&'u ChannelUnits>>, AllocError> {
    let mut of_links = Vec::new(alloc);
    for link in links {
        let name = link.name.as_slice();
        of_links.push(units.iter().find(|one| one.name.as_slice() == name))?;
    }
    Ok(of_links)
}
