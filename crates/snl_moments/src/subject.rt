//! A program whose moments can be told.

ghost use Rattle.std.specs.Prelude.{◌≡◌, [], map, length, slice_get, IfOk, All};
ghost use Rattle.snl_machine.specs.MachineOf.{task_held, world_held};
ghost use Rattle.snl_channels.specs.LinkViews.{link_view};
ghost use Rattle.snl_channels.specs.Links as spec;
ghost use Rattle.snl_moments.specs.Loaded.{IsSubjectFrom};
ghost use Rattle.snl_moments.specs.Walks.{HasRoom};
ghost use Rattle.snl_syntax.specs.view.Programs.{program_view};
ghost use Rattle.snl_flat.specs.Copies.{held_sets, sets_of, variables_in};
ghost use Rattle.snl_names.specs.Variables.{shared_variables};
ghost use Rattle.snl_load.specs.First.{first_world, first_world_of};
ghost use Rattle.snl_load.specs.Places.{channels, flags_in, homes_in};
ghost use Rattle.snl_load.specs.Sets.{names_in};
ghost use Rattle.snl_vm.specs.Views.{world_of};

use crate::history::{Ear, RunHistory};
use crate::walks::{Moment, Sort};
use indexmap::IndexSet;
use snl_check::Checked;
use snl_flat::{Copies, copies_of};
use snl_links::{Link, Macros, links};
use snl_load::{channels_of, store_of};
use snl_machine::{Loads, Machine, Tied};
use snl_meaning::flags_of;
use snl_resolve::sites_of;
use snl_syntax::Program;
use snl_trace::{End, Events};
use snl_vm::Store;
use std::alloc::{AllocError, Global};

/// A program whose moments can be told, and its walk along a trace.
#[derive(Drop)]
pub struct Subject {
    pub(crate) machine: Machine,
    /// The stores of the moments that are to come.
    pub(crate) spares: Vec<Store>,
    /// The moments that were told.
    pub(crate) moments: Vec<Moment>,
    /// What is asked for.
    pub(crate) sort: Sort,
    /// The times that are asked for, and the number of the next one.
    pub(crate) times: Vec<u64>,
    pub(crate) next: usize,
    pub(crate) ear: Ear,
    /// Room for the events of all lines.
    pub(crate) events: Events,
    /// The number of the next line of the trace, from 1 on.
    pub(crate) number: u128,
    /// How the run ended, once it has.
    pub(crate) end: Option<End>,
}

/// What a store of a program is made by.
#[derive(Drop)]
struct Parts<'p, 'a> {
    copies: Copies<'p, 'a>,
    flags: usize,
    names: IndexSet<Vec<u8>>,
}

/// A store of a program, for a moment. It knows nothing of what its links are tied to. The only error is that memory ends.
fn spare_of(alloc: Global, parts: &Parts, links: &[Link]) -> Result<Store, AllocError>
    ensures { IfOk result (λ store. world_of store ≡ first_world
        (sets_of parts.now.copies.held.items) (variables_in parts.now.copies.shared)
        parts.now.flags (names_in parts.now.names) []
        (homes_in parts.now.copies.places.items (map link_view links.now))
        (map link_view links.now)) }
{
    store_of(alloc, &parts.copies, parts.flags, links, &[], &parts.names)
}

/// How many event flags a program has. The only error is that memory ends.
fn flag_count<'a>(alloc: Global, program: &Program<'a>) -> Result<usize, AllocError>
    ensures { IfOk result (λ count. count ≡ length (flags_in (program_view program.now))) }
{
    let sites = sites_of(alloc, program)?;
    let flags = flags_of(alloc, sites.as_slice())?;
    Ok(flags.len())
}

/// What the stores of a program with these links are made by. The only error is that memory ends.
fn parts_of<'p, 'a>(
    alloc: Global,
    program: &'p Program<'a>,
    links: &[Link],
) -> Result<Parts<'p, 'a>, AllocError>
    ensures held { IfOk result (λ parts. sets_of parts.copies.held.items
        ≡ held_sets (program_view program.now) 0 (program_view program.now).state_sets) }
    ensures shared { IfOk result (λ parts. variables_in parts.copies.shared
        ≡ shared_variables (program_view program.now)) }
    ensures flags { IfOk result (λ parts. parts.flags
        ≡ length (flags_in (program_view program.now))) }
    ensures names { IfOk result (λ parts. names_in parts.names
        ≡ channels (map link_view links.now)) }
{
    let flags = flag_count(alloc, program)?;
    let names = channels_of(alloc, links)?;
    Ok(Parts {
        copies: copies_of(alloc, program)?,
        flags,
        names,
    })
}

/// So many stores by these parts. The only error is that memory ends.
fn spares_by(
    alloc: Global,
    parts: &Parts,
    links: &[Link],
    count: usize,
) -> Result<Vec<Store>, AllocError>
    ensures { IfOk result (λ all. All (HasRoom (first_world
        (sets_of parts.now.copies.held.items) (variables_in parts.now.copies.shared)
        parts.now.flags (names_in parts.now.names) []
        (homes_in parts.now.copies.places.items (map link_view links.now))
        (map link_view links.now))) all.items) }
{
    let mut spares = Vec::new(alloc);
    for _moment in 0..count {
        spares.push(spare_of(alloc, parts, links)?)?;
    }
    Ok(spares)
}

/// Stores of a program with these links, for so many moments. The only error is that memory ends.
fn spares_of<'a>(
    alloc: Global,
    program: &Program<'a>,
    links: &[Link],
    count: usize,
) -> Result<Vec<Store>, AllocError>
    ensures { IfOk result (λ all. All (HasRoom (first_world_of (program_view program.now)
        (map link_view links.now))) all.items) }
{
    let parts = parts_of(alloc, program, links)?;
    spares_by(alloc, &parts, links, count)
}

/// What a subject has for its moments.
#[derive(Drop)]
struct Room {
    spares: Vec<Store>,
    ear: Ear,
}

/// That of a checked program with these macros, for so many moments. The only error is that memory ends.
fn room_of<'a>(
    alloc: Global,
    checked: &Checked<'a>,
    macros: &Macros,
    count: usize,
) -> Result<Room, AllocError>
    ensures { IfOk result (λ room. All (HasRoom (first_world_of (program_view checked.now.program)
        (spec.links (program_view checked.now.program) macros.now.text.now))) room.spares.items) }
{
    let links = links(alloc, checked, macros)?;
    let links = links.as_slice();
    let program = checked.program();
    let channels = channels_of(alloc, links)?.len();
    let ear = Ear::new(alloc, program.state_sets.len(), channels)?;
    let spares = spares_of(alloc, program, links, count)?;
    Ok(Room { spares, ear })
}

/// A checked program that is lent, with these macros and this budget of an instant, for so many moments. The only error is that memory
/// ends.
pub fn subject_of<'a>(
    alloc: Global,
    checked: &Checked<'a>,
    macros: &Macros,
    budget: u32,
    count: usize,
) -> Result<Subject, AllocError>
    ensures { IfOk result (IsSubjectFrom checked.now macros.now.text.now budget) }
{
    let Room { spares, ear } = room_of(alloc, checked, macros, count)?;
    let machine = checked.machine(alloc, macros, budget)?;
    Ok(Subject {
        machine,
        spares,
        moments: Vec::new(alloc),
        sort: Sort::Times,
        times: Vec::new(alloc),
        next: 0,
        ear,
        events: Events::new(),
        number: 1,
        end: None,
    })
}

impl Subject {
    /// What a link is tied to, by its number, from 0 on in the order of the `assign` definitions; None where there are no more.
    pub fn link(&self, number: usize) -> Option<Tied>
        ensures { result ≡ slice_get (task_held self.now.machine).program.links number }
    {
        self.machine.link(number)
    }

    /// The moments that were told, in their order.
    pub fn moments(&self) -> &[Moment]
        ensures { result.now ≡ self.now.moments.items }
    {
        self.moments.as_slice()
    }

    /// The time of the last event or wake that was done, in milliseconds.
    pub fn time(&self) -> u64 {
        self.machine.time()
    }

    /// What was heard of the run.
    pub fn heard(&self) -> &RunHistory {
        &self.ear.heard
    }
}
