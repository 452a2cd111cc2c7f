//! Links with the names of their channels as spelled.

ghost use Rattle.std.specs.Prelude.{◌≡◌, ◌++◌, map, IfOk, OnOk};
ghost use Rattle.std.specs.List.{flat_map};
ghost use Rattle.snl_syntax.specs.view.Shown.{shown};
ghost use Rattle.snl_syntax.specs.view.Definitions.{channels_view};
ghost use Rattle.snl_syntax.specs.view.Programs.{program_view};
ghost use Rattle.snl_channels.specs.Links as spec;
ghost use Rattle.snl_channels.specs.LinkViews.{said_view};

use crate::facts::Facts;
use crate::said::{Said, push_said};
use snl_resolve::{Extent, Part};
use snl_syntax::{ChannelNames, Channels, Program};
use snl_text::{Pos, Token};
use std::alloc::{AllocError, Global};

/// A declared name, with the place of its declaration.
#[derive(Clone, Copy)]
pub struct Named<'a> {
    /// As it is spelled.
    pub name: &'a [u8],
    /// Where it is declared.
    pub place: Pos,
}

/// The event flag of an element, and the items of its queue or 0.
#[derive(Clone, Copy)]
pub struct Synced<'a> {
    /// The event flag, if there is one.
    pub flag: Option<Named<'a>>,
    /// The items of the queue; 0 where there is none.
    pub queue: u64,
}

/// A link of so many elements of a variable, from the first on.
#[derive(Clone, Copy)]
pub struct Tie<'a> {
    /// The variable of the link.
    pub variable: Named<'a>,
    /// The number of its first element.
    pub first: usize,
    /// How many elements it has.
    pub count: usize,
    /// With its quotes; None where no channel is written.
    pub channel: Option<Token<'a>>,
    /// Whether a `monitor` names it.
    pub monitored: bool,
    /// Its event flag, if there is one.
    pub flag: Option<Named<'a>>,
    /// 0 where there is none.
    pub queue: u64,
}

/// A link of so many elements of a variable, from the first on.
fn tie_of<'s, 'a>(
    facts: &'s Facts<'s, 'a>,
    name: Token<'a>,
    part: Part,
    first: usize,
    count: usize,
    channel: Option<Token<'a>>,
) -> Tie<'a>
    ensures { result ≡ spec.tie facts.now name.entry part first count channel.entry }
{
    let place = part.variable;
    let synced = facts.synced_as(place.offset as usize, first);
    Tie {
        variable: Named {
            name: name.text,
            place,
        },
        first,
        count,
        channel,
        monitored: facts.is_monitored(place.offset as usize, first),
        flag: synced.flag,
        queue: synced.queue,
    }
}

/// Adds the link of all that a place names.
fn push_tie<'s, 'a>(
    facts: &'s Facts<'s, 'a>,
    name: Token<'a>,
    part: Part,
    channel: Option<Token<'a>>,
    ties: &mut Vec<Tie<'a>>,
) -> Result<(), AllocError>
    ensures { OnOk result (ties.new.items ≡ ties.old.items
        ++ spec.tie_of_part facts.now name.entry part channel.entry) }
{
    let (first, count) = match part.extent {
        Extent::Whole(count) | Extent::Front(count) => (0, count as usize),
        Extent::Element(element) => (element as usize, 1),
    };
    ties.push(tie_of(facts, name, part, first, count, channel))?;
    Ok(())
}

/// Adds a link of one element for each of some channels, from element 0 on.
fn push_list<'s, 'a>(
    facts: &'s Facts<'s, 'a>,
    name: Token<'a>,
    part: Part,
    channels: &[Token<'a>],
    ties: &mut Vec<Tie<'a>>,
) -> Result<(), AllocError>
    ensures { OnOk result (ties.new.items ≡ ties.old.items
        ++ spec.ties_from facts.now name.entry part 0 channels.now) }
{
    for (element, channel) in channels.iter().enumerate() {
        ties.push(tie_of(facts, name, part, element, 1, Some(*channel)))?;
    }
    Ok(())
}

/// Adds the links of an `assign` (SNL Reference, "Assign").
fn push_assigned<'s, 'a>(
    channels: &'s Option<Channels<'a>>,
    facts: &'s Facts<'s, 'a>,
    name: Token<'a>,
    part: Part,
    ties: &mut Vec<Tie<'a>>,
) -> Result<(), AllocError>
    ensures { OnOk result (ties.new.items ≡ ties.old.items
        ++ spec.ties_by_channels facts.now name.entry part
        (shown channels_view channels.now)) }
{
    match channels {
        None => push_tie(facts, name, part, None, ties),
        Some(channels) => match &channels.names {
            ChannelNames::One(channel) => push_tie(facts, name, part, Some(*channel), ties),
            ChannelNames::List(names) => push_list(facts, name, part, names.as_slice(), ties),
        },
    }
}

/// Adds the links that follow from what one definition says.
fn push_ties<'s, 'a>(
    facts: &'s Facts<'s, 'a>,
    said: &'s Said<'s, 'a>,
    ties: &mut Vec<Tie<'a>>,
) -> Result<(), AllocError>
    ensures { OnOk result (ties.new.items ≡ ties.old.items
        ++ spec.ties_by facts.now (said_view said.now)) }
{
    match said {
        Said::Assigned {
            name,
            part,
            channels,
        } => push_assigned(channels, facts, *name, *part, ties),
        _ => Ok(()),
    }
}

/// The links that follow from what definitions say, in the order of the `assign` definitions.
fn ties_among<'s, 'a>(
    alloc: Global,
    facts: &'s Facts<'s, 'a>,
    all: &'s [Said<'s, 'a>],
) -> Result<Vec<Tie<'a>>, AllocError>
    requires { facts.now ≡ map said_view all.now }
    ensures { IfOk result (λ ties. ties.items ≡ spec.ties_among (map said_view all.now)) }
{
    let mut ties = Vec::new(alloc);
    for said in all {
        push_ties(facts, said, &mut ties)?;
    }
    Ok(ties)
}

/// The links of a program, with the names of channels as spelled. The only error is that memory ends.
pub fn ties_of<'a>(alloc: Global, program: &Program<'a>) -> Result<Vec<Tie<'a>>, AllocError>
    ensures { IfOk result (λ ties. ties.items ≡ spec.ties (program_view program.now)) }
{
    let mut all = Vec::new(alloc);
    push_said(alloc, program, &mut all)?;
    let all = all.as_slice();
    let facts = Facts::of(alloc, all)?;
    ties_among(alloc, &facts, all)
}
