//! The channels that a program puts to.

use crate::coverage::PutChart;
use indexmap::IndexSet;
use snl_legends::{Variable, variable_of};
use snl_links::Link;
use snl_output::push_told;
use snl_text::{Kind, Token};
use std::alloc::{AllocError, Global};

/// The offsets of the names behind `pvPut`, among the tokens of a source. The only error is that memory ends.
pub(crate) fn put_names(alloc: Global, tokens: &[Token]) -> Result<Vec<usize>, AllocError> {
    let mut names = Vec::new(alloc);
    let mut is_put = false;
    for token in tokens {
        match token.kind {
            Kind::Name if is_put => {
                names.push(token.pos.offset as usize)?;
                is_put = false;
            }
            Kind::Name => is_put = token.text == b"pvPut".as_slice(),
            Kind::OpenParenthesis => {}
            _ => is_put = false,
        }
    }
    Ok(names)
}

/// A variable as a text, with its element where that is told.
fn text_of(alloc: Global, variable: &Variable) -> Result<Vec<u8>, AllocError> {
    let mut text = Vec::from_slice(alloc, variable.name)?;
    if let Some(element) = variable.element {
        push_told(&mut text, b"[", element as u64, b"]")?;
    }
    Ok(text)
}

/// The channel of a link, which has a number, with its variable. The only error is that memory ends.
fn put_chart(
    alloc: Global,
    source: &[u8],
    links: &[Link],
    link: &Link,
    number: usize,
) -> Result<PutChart, AllocError> {
    let variable = variable_of(source, links, link);
    let channel = Vec::from_slice(alloc, link.name.as_slice())?;
    let text = text_of(alloc, &variable)?;
    Ok(PutChart {
        number,
        channel,
        variable: text,
        line: variable.line,
    })
}

/// Numbers the channel of a link, which has a name. Answers the number where a variable is declared at one of these offsets, and the
/// channel comes first.
fn put_number<'l>(
    declared: &IndexSet<usize>,
    link: &'l Link,
    channels: &mut IndexSet<&'l [u8]>,
    seen: &mut IndexSet<usize>,
) -> Result<Option<usize>, AllocError> {
    let (number, _) = channels.insert_full(link.name.as_slice())?;
    if declared.contains(&(link.variable.offset as usize)) && seen.insert(number)? {
        Ok(Some(number))
    } else {
        Ok(None)
    }
}

/// The links of the channels that are put to, each with the number of its channel.
fn put_links<'l>(
    alloc: Global,
    declared: &IndexSet<usize>,
    links: &'l [Link],
) -> Result<Vec<(&'l Link, usize)>, AllocError> {
    let mut channels = IndexSet::new(alloc);
    let mut seen = IndexSet::new(alloc);
    let mut found = Vec::new(alloc);
    for link in links {
        if !link.name.is_empty() {
            if let Some(number) = put_number(declared, link, &mut channels, &mut seen)? {
                found.push((link, number))?;
            }
        }
    }
    Ok(found)
}

/// The channels of variables that are declared at these offsets of a source, each once, by its first link. The only error is
/// that memory ends.
pub(crate) fn put_charts(
    alloc: Global,
    source: &[u8],
    links: &[Link],
    declared: &IndexSet<usize>,
) -> Result<Vec<PutChart>, AllocError> {
    let found = put_links(alloc, declared, links)?;
    let mut puts = Vec::new(alloc);
    for (link, number) in &found {
        puts.push(put_chart(alloc, source, links, link, *number)?)?;
    }
    Ok(puts)
}

/// No puts yet to channels, up to the last of these.
pub(crate) fn no_puts(alloc: Global, puts: &[PutChart]) -> Result<Vec<u64>, AllocError> {
    let mut count = 0usize;
    for put in puts {
        count = count.max(put.number.saturating_add(1));
    }
    vec![in alloc; 0u64; count]
}
