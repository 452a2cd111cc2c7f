//! What the definitions of a program say of the elements of its variables.

ghost use Rattle.std.specs.Prelude.{◌≡◌, ◌<◌, ◌^◌, ◌++◌, map, OnOk, IfOk};
ghost use Rattle.std.specs.List.{flat_map};
ghost use Rattle.snl_syntax.specs.view.Shown.{shown};
ghost use Rattle.snl_syntax.specs.view.Definitions.{place_view, flag_view, definition_view};
ghost use Rattle.snl_syntax.specs.view.Programs.{state_view, state_set_view, program_view};
ghost use Rattle.snl_names.specs.Chains.{scopes_of};
ghost use Rattle.snl_names.specs.Parts.{element_by};
ghost use Rattle.snl_names.specs.Scopes as scopes;
ghost use Rattle.snl_names.specs.Programs as programs;
ghost use Rattle.snl_channels.specs.Links as spec;
ghost use Rattle.snl_channels.specs.LinkViews.{said_view, said_views};

use crate::ties::Named;
use snl_resolve::{Constant, Extent, Meaning, Part, Scope, Scopes, constant_of, scope_of};
use snl_syntax::{Channels, Def, Flag, Place, Program, State, StateSet};
use snl_text::{Token, whole_value};
use std::alloc::{AllocError, Global};

/// What a definition says of some elements.
#[derive(Clone, Copy)]
pub enum Said<'p, 'a> {
    /// An `assign`, with the name of the variable.
    Assigned {
        name: Token<'a>,
        part: Part,
        channels: &'p Option<Channels<'a>>,
    },
    /// A `monitor`.
    Monitored(Part),
    /// A `sync` or a `syncQ`, with its event flag, and the items of its queue or 0.
    Synced {
        part: Part,
        flag: Option<Named<'a>>,
        queue: u64,
    },
}

/// The element of an array of so many that a constant names.
fn element_by(size: usize, constant: Constant) -> Option<u32>
    requires { size < 2 ^ 32 }
    ensures { result ≡ element_by size constant }
{
    let Constant::Worth(number) = constant else {
        return None;
    };
    match u32::try_from(number) {
        Ok(element) if (element as usize) < size => Some(element),
        _ => None,
    }
}

/// The variable of a place, or the element that its subscript names.
fn place_part<'a>(place: &Place<'a>, scopes: &Scopes<'_, 'a>) -> Option<Part>
    ensures { result ≡ spec.place_part (scopes_of scopes.now) (place_view place.now) }
{
    let Meaning::Variable(variable, size) = scopes.meaning(place.name) else {
        return None;
    };
    let extent = match &place.subscript {
        None => Extent::Whole(size.elements() as u32),
        Some(subscript) => {
            Extent::Element(element_by(size.elements(), constant_of(subscript, scopes))?)
        }
    };
    Some(Part { variable, extent })
}

/// An event flag, where its name means one.
fn flag_at<'a>(scopes: &Scopes<'_, 'a>, flag: Flag<'a>) -> Option<Named<'a>>
    ensures { result ≡ spec.flag_at (scopes_of scopes.now) (flag_view flag.entry) }
{
    match scopes.meaning(flag.name) {
        Meaning::Flag(place) => Some(Named {
            name: flag.name.text,
            place,
        }),
        _ => None,
    }
}

/// The same where the name may be missing.
fn flag_if_there<'a>(scopes: &Scopes<'_, 'a>, flag: Option<Flag<'a>>) -> Option<Named<'a>>
    ensures { result ≡ spec.flag_if_there (scopes_of scopes.now) (shown flag_view flag.entry) }
{
    match flag {
        Some(flag) => flag_at(scopes, flag),
        None => None,
    }
}

/// How many items a queue has; 100 where the number is missing (SNL Reference, "SyncQ").
fn queue_size(number: Option<Token>) -> u64
    ensures { result ≡ programs.queue_size number.entry }
{
    match number {
        Some(number) => match whole_value(number.text) {
            Some(count) => count.unsigned_abs(),
            None => 0,
        },
        None => 100,
    }
}

/// What a definition says of elements, if it does.
fn said_by<'p, 'a>(definition: &'p Def<'a>, scopes: &Scopes<'_, 'a>) -> Option<Said<'p, 'a>>
    ensures { said_views result
        ≡ spec.said_by (scopes_of scopes.now) (definition_view definition.now) }
{
    match definition {
        Def::Assign(assign) => Some(Said::Assigned {
            name: assign.place.name,
            part: place_part(&assign.place, scopes)?,
            channels: &assign.channels,
        }),
        Def::Monitor(place) => Some(Said::Monitored(place_part(place, scopes)?)),
        Def::Sync(sync) => Some(Said::Synced {
            part: place_part(&sync.place, scopes)?,
            flag: flag_at(scopes, sync.flag),
            queue: 0,
        }),
        Def::SyncQueue(sync) => Some(Said::Synced {
            part: place_part(&sync.place, scopes)?,
            flag: flag_if_there(scopes, sync.flag),
            queue: queue_size(sync.size),
        }),
        _ => None,
    }
}

/// Adds what each of some definitions says.
fn push_each<'p, 'a>(
    definitions: &'p [Def<'a>],
    scopes: &Scopes<'_, 'a>,
    said: &mut Vec<Said<'p, 'a>>,
) -> Result<(), AllocError>
    ensures { OnOk result (map said_view said.new.items ≡ map said_view said.old.items
        ++ flat_map (spec.said_by (scopes_of scopes.now)) (map definition_view definitions.now)) }
{
    for definition in definitions {
        push_definition(definition, scopes, said)?;
    }
    Ok(())
}

/// Adds what a definition says.
fn push_definition<'p, 'a>(
    definition: &'p Def<'a>,
    scopes: &Scopes<'_, 'a>,
    said: &mut Vec<Said<'p, 'a>>,
) -> Result<(), AllocError>
    ensures { OnOk result (map said_view said.new.items ≡ map said_view said.old.items
        ++ spec.said_by (scopes_of scopes.now) (definition_view definition.now)) }
{
    if let Some(one) = said_by(definition, scopes) {
        said.push(one)?;
    }
    Ok(())
}

/// Adds what definitions say; gives the scope that they make within others.
fn push_definitions<'p, 'a>(
    alloc: Global,
    definitions: &'p [Def<'a>],
    outer: &Scopes<'_, 'a>,
    said: &mut Vec<Said<'p, 'a>>,
) -> Result<Scope<'a>, AllocError>
    ensures scope { IfOk result (λ scope. scope
        ≡ scopes.scope_of (scopes_of outer.now) (map definition_view definitions.now)) }
    ensures said { OnOk result (map said_view said.new.items ≡ map said_view said.old.items
        ++ spec.said_in (scopes_of outer.now) (map definition_view definitions.now)) }
{
    let scope = scope_of(alloc, definitions, outer)?;
    push_each(definitions, &Scopes::Within(&scope, outer), said)?;
    Ok(scope)
}

/// Adds what the definitions of states say.
fn push_states<'p, 'a>(
    alloc: Global,
    states: &'p [State<'a>],
    outer: &Scopes<'_, 'a>,
    said: &mut Vec<Said<'p, 'a>>,
) -> Result<(), AllocError>
    ensures { OnOk result (map said_view said.new.items ≡ map said_view said.old.items
        ++ flat_map (spec.said_in_state (scopes_of outer.now)) (map state_view states.now)) }
{
    for state in states {
        push_definitions(alloc, state.definitions.as_slice(), outer, said)?;
    }
    Ok(())
}

/// Adds what the definitions of a state set and of its states say.
fn push_set<'p, 'a>(
    alloc: Global,
    set: &'p StateSet<'a>,
    outer: &Scopes<'_, 'a>,
    said: &mut Vec<Said<'p, 'a>>,
) -> Result<(), AllocError>
    ensures { OnOk result (map said_view said.new.items ≡ map said_view said.old.items
        ++ spec.said_in_set (scopes_of outer.now) (state_set_view set.now)) }
{
    let scope = push_definitions(alloc, set.definitions.as_slice(), outer, said)?;
    let scopes = Scopes::Within(&scope, &*outer);
    push_states(alloc, set.states.as_slice(), &scopes, said)?;
    Ok(())
}

/// Adds what the definitions of state sets and of their states say.
fn push_sets<'p, 'a>(
    alloc: Global,
    sets: &'p [StateSet<'a>],
    outer: &Scopes<'_, 'a>,
    said: &mut Vec<Said<'p, 'a>>,
) -> Result<(), AllocError>
    ensures { OnOk result (map said_view said.new.items ≡ map said_view said.old.items
        ++ flat_map (spec.said_in_set (scopes_of outer.now)) (map state_set_view sets.now)) }
{
    for set in sets {
        push_set(alloc, set, outer, said)?;
    }
    Ok(())
}

/// Adds what all definitions of a program say, in the order of the source. Fails only where memory ends.
pub fn push_said<'p, 'a>(
    alloc: Global,
    program: &'p Program<'a>,
    said: &mut Vec<Said<'p, 'a>>,
) -> Result<(), AllocError>
    ensures { OnOk result (map said_view said.new.items ≡ map said_view said.old.items
        ++ spec.said_in_program (program_view program.now)) }
{
    let outside = Scopes::Outside;
    let scope = push_definitions(alloc, program.definitions.as_slice(), &outside, said)?;
    let scopes = Scopes::Within(&scope, &outside);
    push_sets(alloc, program.state_sets.as_slice(), &scopes, said)?;
    Ok(())
}
