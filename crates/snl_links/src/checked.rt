//! The links and the tables of a checked program.

ghost use Rattle.std.specs.Prelude.{◌≡◌, ◌++◌, map, IfOk, OnErr, OnOk};
ghost use Rattle.snl_syntax.specs.view.Programs.{program_view};
ghost use Rattle.snl_channels.specs.Appended.{Begun};
ghost use Rattle.snl_channels.specs.LinkViews.{link_view};
ghost use Rattle.snl_channels.specs.Links as spec;
ghost use Rattle.snl_channels.specs.Tables as texts;

use snl_channels::{Link, Macros, links_of, tables_of};
use snl_check::Checked;
use std::alloc::{AllocError, Global};

/// The links of a checked program, in the order of its definitions, with the macros of a run in the names of channels (SNL
/// Reference, "Assign", "Monitor", "Sync" and "SyncQ").
///
/// Fails only where memory ends.
pub fn links(alloc: Global, checked: &Checked, macros: &Macros) -> Result<Vec<Link>, AllocError>
    ensures { IfOk result (λ links. map link_view links.items
        ≡ spec.links (program_view checked.now.program) macros.now.text.now) }
{
    links_of(alloc, checked.program(), macros)
}

/// Appends the tables of a checked program: a line for the program, for each link, each state set, each state and each clause.
///
/// Fails only where memory ends; a beginning of the text is appended then.
pub fn tables(alloc: Global, checked: &Checked, out: &mut Vec<u8>) -> Result<(), AllocError>
    ensures whole { OnOk result (out.new.items
        ≡ out.old.items ++ texts.tables (program_view checked.now.program)) }
    ensures begun { OnErr result (Begun out.old.items out.new.items
        (texts.tables (program_view checked.now.program))) }
{
    tables_of(alloc, checked.program(), out)
}
