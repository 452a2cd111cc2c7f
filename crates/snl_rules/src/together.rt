//! The rules that a site breaks beside the sites before it and all sites.

ghost use Rattle.std.specs.Prelude.{◌≡◌, ◌++◌, not, OnOk, Some};
ghost use Rattle.snl_names.specs.Scopes.{is_array};
ghost use Rattle.snl_rules.specs.Rules.{when};
ghost use Rattle.snl_rules.specs.Tests as tests;
ghost use Rattle.snl_rules.specs.ElementTables as spec;

use crate::alone::tell_when;
use crate::elements::Elements;
use crate::facts::{EarlierFacts, ProgramFacts, channels_at, is_over};
use crate::rules::Rule;
use snl_resolve::{Extent, Meaning, Part, Purpose, Site, Size, Sort};
use std::alloc::AllocError;

/// Whether some element of a part is named.
fn overlaps(named: &Elements, part: Part) -> bool
    ensures { result ≡ tests.names_again (spec.named_in named.now) (Some part) }
{
    let variable = part.variable.offset as usize;
    match part.extent {
        Extent::Whole(count) | Extent::Front(count) => named.names_below(variable, count as usize),
        Extent::Element(element) => named.names_element(variable, element as usize),
    }
}

/// Whether some element of a part is not named.
fn lacks(named: &Elements, part: Part) -> bool
    ensures { result ≡ tests.lacks_some (spec.named_in named.now) (Some part) }
{
    let variable = part.variable.offset as usize;
    match part.extent {
        Extent::Whole(count) | Extent::Front(count) => named.lacks_below(variable, count as usize),
        Extent::Element(element) => !named.names_element(variable, element as usize),
    }
}

/// Whether a variable has elements by number.
fn is_array(size: Size) -> bool
    ensures { result ≡ is_array size }
{
    !matches!(size, Size::Scalar)
}

/// E20: no `assign` names the part.
fn is_unassigned(known: &ProgramFacts, part: Part) -> bool
    ensures { result ≡ tests.is_unassigned (spec.known_in known.now) (Some part) }
{
    let variable = part.variable.offset as usize;
    match part.extent {
        Extent::Element(element) => !known.assigned.names_element(variable, element as usize),
        Extent::Whole(_) | Extent::Front(_) => !known.assigned.names_some(variable),
    }
}

/// E29 at a definition.
fn is_wrong_definition(
    known: &ProgramFacts,
    sort: Sort,
    meaning: Meaning,
    has_subscript: bool,
    is_wrong: bool,
) -> bool
    ensures { result
        ≡ tests.is_wrong_definition (spec.known_in known.now) sort meaning has_subscript is_wrong }
{
    let Meaning::Variable(declared, size) = meaning else {
        return false;
    };
    match sort {
        Sort::Assign => is_wrong,
        Sort::Queue(_) => {
            is_wrong
                || has_subscript
                || (is_array(size) && known.first_is_whole(declared.offset as usize) == Some(false))
        }
        Sort::Monitor | Sort::Sync => {
            is_wrong
                || (has_subscript && known.first_is_whole(declared.offset as usize) == Some(true))
        }
    }
}

/// E20, E22 and W4 at a `sync` or `syncQ`.
fn tell_sync(
    seen: &EarlierFacts,
    known: &ProgramFacts,
    part: Part,
    found: &mut Vec<Rule>,
) -> Result<(), AllocError>
    ensures { OnOk result (found.new.items ≡ found.old.items
        ++ tests.by_sync (spec.seen_in seen.now) (spec.known_in known.now) (Some part)) }
{
    tell_when(is_unassigned(known, part), Rule::Unassigned, found)?;
    tell_when(overlaps(&seen.synced, part), Rule::SyncedTwice, found)?;
    tell_when(lacks(&known.monitored, part), Rule::NotMonitored, found)?;
    Ok(())
}

/// E19, E20, E22 and W4 at a definition without E29.
fn tell_part(
    seen: &EarlierFacts,
    known: &ProgramFacts,
    sort: Sort,
    part: Part,
    found: &mut Vec<Rule>,
) -> Result<(), AllocError>
    ensures { OnOk result (found.new.items ≡ found.old.items
        ++ tests.by_elements (spec.seen_in seen.now) (spec.known_in known.now) sort (Some part)) }
{
    match sort {
        Sort::Assign => {
            tell_when(overlaps(&seen.assigned, part), Rule::AssignedTwice, found)?;
        }
        Sort::Monitor => tell_when(is_unassigned(known, part), Rule::Unassigned, found)?,
        Sort::Sync | Sort::Queue(_) => tell_sync(seen, known, part, found)?,
    }
    Ok(())
}

/// E29 where the channel or the queue of a variable is used.
fn is_wrong_channel(known: &ProgramFacts, variable: usize, size: Size, has_subscript: bool) -> bool
    ensures { result
        ≡ tests.is_wrong_channel (spec.known_in known.now) variable size has_subscript }
{
    if is_array(size) {
        known.first_is_whole(variable) == Some(has_subscript)
    } else {
        has_subscript
    }
}

/// E29 where a value is used or changed: an array without a subscript, a scalar with one.
fn is_wrong_subscript(size: Size, has_subscript: bool) -> bool
    ensures { result ≡ tests.is_wrong_plain size has_subscript }
{
    if is_array(size) {
        !has_subscript
    } else {
        has_subscript
    }
}

/// E29 at a name in an expression.
fn is_wrong_use(
    known: &ProgramFacts,
    purpose: Purpose,
    meaning: Meaning,
    has_subscript: bool,
) -> bool
    ensures { result ≡ tests.is_wrong_use (spec.known_in known.now) purpose meaning has_subscript }
{
    match purpose {
        Purpose::Ignored | Purpose::Flagged => false,
        Purpose::Channel | Purpose::Queued => match meaning {
            Meaning::Variable(declared, size) => {
                is_wrong_channel(known, declared.offset as usize, size, has_subscript)
            }
            _ => false,
        },
        Purpose::Changed => match meaning {
            Meaning::Variable(_, size) => is_wrong_subscript(size, has_subscript),
            _ => false,
        },
        Purpose::Read | Purpose::Delayed | Purpose::Dropped => match meaning {
            Meaning::Variable(_, size) => is_wrong_subscript(size, has_subscript),
            Meaning::Number => has_subscript,
            _ => false,
        },
    }
}

/// E20 at a name in an expression.
fn is_unassigned_use(known: &ProgramFacts, purpose: Purpose, meaning: Meaning) -> bool
    ensures { result ≡ tests.is_unassigned_use (spec.known_in known.now) purpose meaning }
{
    match (purpose, meaning) {
        (Purpose::Channel | Purpose::Queued, Meaning::Variable(declared, _)) => {
            !known.assigned.names_some(declared.offset as usize)
        }
        _ => false,
    }
}

/// E23 at a name in an expression.
fn is_without_queue(known: &ProgramFacts, purpose: Purpose, meaning: Meaning) -> bool
    ensures { result ≡ tests.is_without_queue (spec.known_in known.now) purpose meaning }
{
    match (purpose, meaning) {
        (Purpose::Queued, Meaning::Variable(declared, _)) => {
            !known.queued.names_some(declared.offset as usize)
        }
        _ => false,
    }
}

/// W8 and E04 at a function.
fn tell_function(
    seen: &EarlierFacts,
    known: &ProgramFacts,
    place: usize,
    found: &mut Vec<Rule>,
) -> Result<(), AllocError>
    ensures { OnOk result (found.new.items ≡ found.old.items
        ++ (when (not ((spec.known_in known.now).used place)) Rule.UnusedFunction
        ++ when (tests.is_over (spec.seen_in seen.now).functions 1) Rule.TooManyFunctions)) }
{
    tell_when(!known.is_used(place), Rule::UnusedFunction, found)?;
    tell_when(is_over(seen.functions, 1), Rule::TooManyFunctions, found)
}

/// E29, E20 and E23 at a name in an expression.
fn tell_use(
    known: &ProgramFacts,
    purpose: Purpose,
    meaning: Meaning,
    has_subscript: bool,
    found: &mut Vec<Rule>,
) -> Result<(), AllocError>
    ensures { OnOk result (found.new.items ≡ found.old.items
        ++ tests.by_use (spec.known_in known.now) purpose meaning has_subscript) }
{
    let is_wrong = is_wrong_use(known, purpose, meaning, has_subscript);
    tell_when(is_wrong, Rule::WrongArray, found)?;
    tell_when(
        is_unassigned_use(known, purpose, meaning),
        Rule::Unassigned,
        found,
    )?;
    tell_when(
        is_without_queue(known, purpose, meaning),
        Rule::NoQueue,
        found,
    )?;
    Ok(())
}

/// Adds the rules that a site breaks beside what is known of the sites before it and of all sites.
/// Fails only where memory ends.
pub fn tell_together(
    seen: &EarlierFacts,
    known: &ProgramFacts,
    site: &Site,
    found: &mut Vec<Rule>,
) -> Result<(), AllocError>
    ensures { OnOk result (found.new.items ≡ found.old.items
        ++ tests.together (spec.seen_in seen.now) (spec.known_in known.now) site.now) }
{
    match site {
        Site::Declaration { name, is_flag, .. } => {
            let rule = if *is_flag {
                Rule::UnusedFlag
            } else {
                Rule::UnusedVariable
            };
            tell_when(!known.is_used(name.pos.offset as usize), rule, found)?;
        }
        Site::Defined {
            sort,
            meaning,
            has_subscript,
            is_wrong,
            part,
            ..
        } => {
            if is_wrong_definition(known, *sort, *meaning, *has_subscript, *is_wrong) {
                found.push(Rule::WrongArray)?;
            } else if let Some(part) = part {
                tell_part(seen, known, *sort, *part, found)?;
            }
            let is_passed = is_over(seen.channels, channels_at(site));
            tell_when(is_passed, Rule::TooManyChannels, found)?;
        }
        Site::Use {
            purpose,
            meaning,
            has_subscript,
            ..
        } => tell_use(known, *purpose, *meaning, *has_subscript, found)?,
        Site::State { .. } => tell_when(is_over(seen.states, 1), Rule::TooManyStates, found)?,
        Site::StateSet { .. } => tell_when(is_over(seen.sets, 1), Rule::TooManySets, found)?,
        Site::Function { name, .. } => tell_function(seen, known, name.pos.offset as usize, found)?,
        _ => {}
    }
    Ok(())
}
