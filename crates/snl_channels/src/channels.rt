//! The links of a program, with the names of channels after macros.

ghost use Rattle.std.specs.Prelude.{◌≡◌, ◌++◌, map, option_map, [], ◌∷◌, IfOk, OnOk};
ghost use Rattle.snl_syntax.specs.view.Programs.{program_view};
ghost use Rattle.snl_channels.specs.Links as spec;
ghost use Rattle.snl_channels.specs.LinkViews.{link_view};
ghost use Rattle.snl_channels.specs.MacroTables.{value_in};

use crate::macros::MacroTable;
use crate::ties::{Named, Tie, ties_of};
use snl_names::formats::unquoted;
use snl_syntax::Program;
use snl_text::{Pos, Token};
use std::alloc::{AllocError, Global};

/// The macros of a run, as a text like that after the name of a program: `NAME=VALUE`, with commas between the definitions.
#[derive(Clone, Copy)]
pub struct Macros<'a> {
    /// As it was given, with its commas and blanks.
    pub text: &'a [u8],
}

/// Ties elements of a variable to a channel (SNL Reference, "Assign", "Monitor", "Sync" and "SyncQ").
#[derive(Drop)]
pub struct Link {
    /// The place of the variable's declaration.
    pub variable: Pos,
    /// The number of the first element, from 0 on.
    pub first: usize,
    /// How many elements.
    pub count: usize,
    /// The channel's name after macros. It is empty where the link has no channel.
    pub name: Vec<u8>,
    /// Whether a `monitor` names its elements.
    pub monitored: bool,
    /// The place of the declaration of the event flag.
    pub flag: Option<Pos>,
    /// How many items the queue has; 0 where there is none.
    pub queue: u64,
}

/// A text that may be missing, without its quotes.
pub fn spelled(text: Option<Token<'_>>) -> &[u8]
    ensures { result.now ≡ spec.spelled text.entry }
{
    match text {
        Some(text) => unquoted(text.text),
        None => b"",
    }
}

/// The place of a name, where there is one.
fn pos_of(name: Option<Named>) -> Option<Pos>
    ensures { result ≡ option_map (λ f. f.place) name.entry }
{
    match name {
        Some(name) => Some(name.place),
        None => None,
    }
}

/// Adds a link with its name after macros.
fn push_link(
    alloc: Global,
    macros: &MacroTable,
    tie: &Tie,
    links: &mut Vec<Link>,
) -> Result<(), AllocError>
    ensures { OnOk result (map link_view links.new.items ≡ map link_view links.old.items
        ++ spec.link_by (value_in macros.now) tie.now ∷ []) }
{
    let name = macros.replaced(alloc, spelled(tie.channel))?;
    links.push(Link {
        variable: tie.variable.place,
        first: tie.first,
        count: tie.count,
        name,
        monitored: tie.monitored,
        flag: pos_of(tie.flag),
        queue: tie.queue,
    })?;
    Ok(())
}

/// The links with their names after macros.
fn links_by(alloc: Global, macros: &MacroTable, ties: &[Tie]) -> Result<Vec<Link>, AllocError>
    ensures { IfOk result (λ links. map link_view links.items
        ≡ map (spec.link_by (value_in macros.now)) ties.now) }
{
    let mut links = Vec::new(alloc);
    for tie in ties {
        push_link(alloc, macros, tie, &mut links)?;
    }
    Ok(links)
}

/// The links of a program, in the order of its `assign` definitions. The macros of its own text come before those of the
/// run. The only error is that memory ends.
pub fn links_of(alloc: Global, program: &Program, macros: &Macros) -> Result<Vec<Link>, AllocError>
    ensures { IfOk result (λ links. map link_view links.items
        ≡ spec.links (program_view program.now) macros.now.text.now) }
{
    let table = MacroTable::of(alloc, spelled(program.macros), macros.text)?;
    let ties = ties_of(alloc, program)?;
    let links = links_by(alloc, &table, ties.as_slice())?;
    Ok(links)
}
