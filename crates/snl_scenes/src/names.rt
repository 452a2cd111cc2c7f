//! What the parts of a program are called.

use crate::codes::ExpressionNames;
use crate::conditions::{Part, parts_of};
use crate::sources::Source;
use indexmap::IndexSet;
use snl_check::Checked;
use snl_flat::{Copies, copies_of};
use snl_links::Link;
use snl_load::channels_of;
use snl_meaning::{Offsets, Tied, flags_of};
use snl_resolve::{CopyVariable, Site, sites_of};
use snl_syntax::{Clause, Program, State, StateSet};
use std::alloc::{AllocError, Global};

/// A clause of a state.
#[derive(Drop)]
pub(crate) struct ClauseNames {
    /// The line of its `when`, from 1 on.
    pub line: usize,
    /// The parts of its condition; none where it has none.
    pub parts: Vec<Part>,
}

/// A state.
#[derive(Drop)]
pub(crate) struct StateNames {
    pub name: Vec<u8>,
    pub clauses: Vec<ClauseNames>,
}

/// A variable of a copy.
#[derive(Drop)]
pub(crate) struct VariableNames {
    pub name: Vec<u8>,
    /// The offset of its declaration.
    pub offset: usize,
    /// Where its words begin.
    pub place: usize,
    /// How many elements it has.
    pub size: usize,
}

/// A state set.
#[derive(Drop)]
pub(crate) struct SetNames {
    pub name: Vec<u8>,
    pub states: Vec<StateNames>,
    /// Those of its copy, in the order of their words.
    pub variables: Vec<VariableNames>,
}

/// A link: the variable, and what it is tied to.
#[derive(Drop)]
pub(crate) struct LinkNames {
    /// The variable.
    pub variable: Vec<u8>,
    /// Its element, where the elements have links of their own.
    pub element: Option<usize>,
    /// The line of its declaration, from 1 on.
    pub line: usize,
    /// The name of its channel; empty where it has none.
    pub channel: Vec<u8>,
    pub is_monitored: bool,
    /// How many items its queue can hold.
    pub queue: u64,
}

/// What the parts of a program are called.
#[derive(Drop)]
pub(crate) struct Legend {
    pub sets: Vec<SetNames>,
    pub flags: Vec<Vec<u8>>,
    pub links: Vec<LinkNames>,
    /// The channels, by their numbers.
    pub channels: IndexSet<Vec<u8>>,
    /// What the links are tied to.
    pub ties: Vec<Tied>,
    /// Whether the program waits for its channels before it starts.
    pub waits: bool,
}

/// The variables of a copy.
fn variables_in<'p, 'a>(
    alloc: Global,
    held: &'p [CopyVariable<'p, 'a>],
) -> Result<Vec<VariableNames>, AllocError> {
    let mut variables = Vec::new(alloc);
    let mut place = 0usize;
    for variable in held {
        let size = variable.size.elements();
        variables.push(VariableNames {
            name: Vec::from_slice(alloc, variable.name.text)?,
            offset: variable.name.pos.offset as usize,
            place,
            size,
        })?;
        place = place.saturating_add(size);
    }
    Ok(variables)
}

/// The parts of the condition of a clause; none where it has none.
fn parts_in<'a>(
    alloc: Global,
    clause: &Clause<'a>,
    source: &Source,
    names: ExpressionNames,
) -> Result<Vec<Part>, AllocError> {
    match &clause.condition {
        Some(condition) => parts_of(
            alloc,
            condition,
            source,
            clause.word.pos.offset as usize,
            names,
        ),
        None => Ok(Vec::new(alloc)),
    }
}

/// The clauses of a state.
fn clauses_in<'a>(
    alloc: Global,
    state: &State<'a>,
    source: &Source,
    names: ExpressionNames,
) -> Result<Vec<ClauseNames>, AllocError> {
    let mut clauses = Vec::new(alloc);
    for clause in &state.clauses {
        let parts = parts_in(alloc, clause, source, names)?;
        clauses.push(ClauseNames {
            line: clause.word.pos.line as usize,
            parts,
        })?;
    }
    Ok(clauses)
}

/// The states of a state set.
fn states_in<'a>(
    alloc: Global,
    set: &StateSet<'a>,
    source: &Source,
    names: ExpressionNames,
) -> Result<Vec<StateNames>, AllocError> {
    let mut states = Vec::new(alloc);
    for state in &set.states {
        let clauses = clauses_in(alloc, state, source, names)?;
        states.push(StateNames {
            name: Vec::from_slice(alloc, state.name.text)?,
            clauses,
        })?;
    }
    Ok(states)
}

/// A state set with the variables of its copy.
fn set_names<'a>(
    alloc: Global,
    set: &StateSet<'a>,
    source: &Source,
    variables: Vec<VariableNames>,
    names: ExpressionNames,
) -> Result<SetNames, AllocError> {
    let states = states_in(alloc, set, source, names)?;
    Ok(SetNames {
        name: Vec::from_slice(alloc, set.name.text)?,
        states,
        variables,
    })
}

/// The state sets, with the variables of their copies.
fn sets_in<'a>(
    alloc: Global,
    checked: &Checked<'a>,
    source: &Source,
    copies: &Copies<'_, 'a>,
    flags: &Offsets,
    links: &[Link],
) -> Result<Vec<SetNames>, AllocError> {
    let mut sets = Vec::new(alloc);
    for (number, set) in checked.program().state_sets.iter().enumerate() {
        if let (Some(held), Some(places)) = (copies.held.get(number), copies.places.get(number)) {
            let names = ExpressionNames {
                uses: checked.uses(),
                places,
                flags,
                links,
            };
            let variables = variables_in(alloc, held.as_slice())?;
            sets.push(set_names(alloc, set, source, variables, names)?)?;
        }
    }
    Ok(sets)
}

/// The names of the event flags, in the order of their declarations.
fn flag_names(alloc: Global, sites: &[Site]) -> Result<Vec<Vec<u8>>, AllocError> {
    let mut flags = Vec::new(alloc);
    for site in sites {
        if let Site::Declaration {
            name,
            is_flag: true,
            ..
        } = site
        {
            flags.push(Vec::from_slice(alloc, name.text)?)?;
        }
    }
    Ok(flags)
}

/// The variable that is declared at an offset.
fn variable_at(variables: &[VariableNames], offset: usize) -> Option<&VariableNames> {
    for variable in variables {
        if variable.offset == offset {
            return Some(variable);
        }
    }
    None
}

/// Its name.
fn variable_name(sets: &[SetNames], offset: usize) -> &[u8] {
    for set in sets {
        if let Some(variable) = variable_at(set.variables.as_slice(), offset) {
            return variable.name.as_slice();
        }
    }
    b""
}

/// Whether another link has elements of the same variable.
fn is_shared(links: &[Link], offset: usize) -> bool {
    links
        .iter()
        .filter(|link| (link.variable.offset as usize) == offset)
        .count()
        > 1
}

/// The element of a link, where its variable has more links.
fn element_of(link: &Link, links: &[Link]) -> Option<usize> {
    if is_shared(links, link.variable.offset as usize) {
        Some(link.first)
    } else {
        None
    }
}

/// A link.
fn link_names(
    alloc: Global,
    link: &Link,
    links: &[Link],
    sets: &[SetNames],
) -> Result<LinkNames, AllocError> {
    let variable = Vec::from_slice(alloc, variable_name(sets, link.variable.offset as usize))?;
    let channel = Vec::from_slice(alloc, link.name.as_slice())?;
    Ok(LinkNames {
        variable,
        element: element_of(link, links),
        line: link.variable.line as usize,
        channel,
        is_monitored: link.monitored,
        queue: link.queue,
    })
}

/// The links.
fn links_in(
    alloc: Global,
    links: &[Link],
    sets: &[SetNames],
) -> Result<Vec<LinkNames>, AllocError> {
    let mut all = Vec::new(alloc);
    for link in links {
        all.push(link_names(alloc, link, links, sets)?)?;
    }
    Ok(all)
}

/// The event flags of a program.
#[derive(Drop)]
struct Flags {
    offsets: Offsets,
    names: Vec<Vec<u8>>,
}

/// The event flags of a program, in the order of their declarations.
fn flags_in<'a>(alloc: Global, program: &Program<'a>) -> Result<Flags, AllocError> {
    let sites = sites_of(alloc, program)?;
    let offsets = flags_of(alloc, sites.as_slice())?;
    let names = flag_names(alloc, sites.as_slice())?;
    Ok(Flags { offsets, names })
}

/// The state sets of a program that was read from a source.
fn sets_by<'a>(
    alloc: Global,
    checked: &Checked<'a>,
    source: &[u8],
    flags: &Offsets,
    links: &[Link],
) -> Result<Vec<SetNames>, AllocError> {
    let source = Source::new(alloc, source)?;
    let copies = copies_of(alloc, checked.program())?;
    sets_in(alloc, checked, &source, &copies, flags, links)
}

/// A legend, by its state sets and event flags. `waits`: whether the program waits for its channels before it starts.
fn with_links(
    alloc: Global,
    sets: Vec<SetNames>,
    flags: Vec<Vec<u8>>,
    links: &[Link],
    ties: Vec<Tied>,
    waits: bool,
) -> Result<Legend, AllocError> {
    let named = links_in(alloc, links, sets.as_slice())?;
    let channels = channels_of(alloc, links)?;
    Ok(Legend {
        sets,
        flags,
        links: named,
        channels,
        ties,
        waits,
    })
}

/// What the parts of a checked program are called that was read from a source, with its links and what these are tied to. The only error is
/// that memory ends.
pub(crate) fn legend_of<'a>(
    alloc: Global,
    checked: &Checked<'a>,
    source: &[u8],
    links: &[Link],
    ties: Vec<Tied>,
) -> Result<Legend, AllocError> {
    let flags = flags_in(alloc, checked.program())?;
    let sets = sets_by(alloc, checked, source, &flags.offsets, links)?;
    with_links(alloc, sets, flags.names, links, ties, checked.waits())
}
