//! The sites in definitions.

ghost use Rattle.std.specs.Prelude.{◌≡◌, [], ◌∷◌, ◌++◌, map, OnOk, IfOk};
ghost use Rattle.std.specs.List.{flat_map};
ghost use Rattle.snl_syntax.specs.view.Shown.{shown};
ghost use Rattle.snl_syntax.specs.view.Definitions.{definition_view, place_view, assign_view, flag_view, queue_view, sync_view, setting_view};
ghost use Rattle.snl_syntax.specs.Definitions.{sync, sync_queue};
ghost use Rattle.snl_resolve.specs.Seen.{sight_of};
ghost use Rattle.snl_names.specs.Scopes.{scope_of};
ghost use Rattle.snl_names.specs.Sites.{maybe};
ghost use Rattle.snl_names.specs.Programs as spec;

use crate::declarations::{note_declaration, note_if_there};
use crate::definition_scopes::definition_scope;
use crate::parts::{is_wrong_part, listed_names, part_of};
use crate::sights::Sight;
use crate::tokens::note_use;
use snl_names::{Purpose, Scope, Site, Sort, pushed, refused};
use snl_syntax::{Assign, Def, Flag, Place, Setting, Sync, SyncQueue};
use snl_text::{Token, whole_value};
use std::alloc::{AllocError, Global};

/// The site of an `assign`, `monitor`, `sync` or `syncQ`.
fn defined_site<'a>(
    place: &Place<'a>,
    sort: Sort,
    word: Token<'a>,
    sight: &Sight<'_, 'a>,
    list: Option<usize>,
) -> Site<'a>
    ensures { result ≡ spec.at_defined sort word.entry (sight_of sight.now)
        (place_view place.now) list }
{
    let meaning = sight.scopes.meaning(place.name);
    Site::Defined {
        sort,
        word: word.pos,
        name: place.name,
        meaning,
        has_subscript: place.subscript.is_some(),
        is_wrong: is_wrong_part(&place.subscript, &sight.scopes, meaning, list),
        part: part_of(&place.subscript, &sight.scopes, meaning, list),
    }
}

/// Notes an `assign`, `monitor`, `sync` or `syncQ`, and the sites in its subscript.
fn note_defined<'a>(
    place: &Place<'a>,
    sort: Sort,
    word: Token<'a>,
    sight: &Sight<'_, 'a>,
    list: Option<usize>,
    sites: &mut Vec<Site<'a>>,
) -> Result<(), AllocError>
    ensures { OnOk result (sites.new.items ≡ sites.old.items
        ++ spec.defined sort word.entry (sight_of sight.now) (place_view place.now) list) }
{
    pushed(sites, defined_site(place, sort, word, sight, list))?;
    note_if_there(&place.subscript, sight, sites)
}

/// Notes the event flag of a `sync` or `syncQ`.
fn note_flag<'a>(
    flag: &Flag<'a>,
    sight: &Sight<'_, 'a>,
    sites: &mut Vec<Site<'a>>,
) -> Result<(), AllocError>
    ensures { OnOk result (sites.new.items ≡ sites.old.items
        ++ spec.in_flag (sight_of sight.now) (flag_view flag.now)) }
{
    note_use(&sight.scopes, Purpose::Flagged, flag.name, false, sites)
}

/// Notes the event flag of a `syncQ`, where one is written.
fn note_any_flag<'a>(
    flag: &Option<Flag<'a>>,
    sight: &Sight<'_, 'a>,
    sites: &mut Vec<Site<'a>>,
) -> Result<(), AllocError>
    ensures { OnOk result (sites.new.items ≡ sites.old.items
        ++ maybe (spec.in_flag (sight_of sight.now)) (shown flag_view flag.now)) }
{
    match flag {
        Some(flag) => note_flag(flag, sight, sites),
        None => Ok(()),
    }
}

/// How many items a queue has; 0 where the number is too large to have a value.
fn size_by(number: Token) -> u64
    ensures { result ≡ spec.size_by number.entry }
{
    match whole_value(number.text) {
        Some(count) => count.unsigned_abs(),
        None => 0,
    }
}

/// The same where the number may be missing, which makes it 100 (SNL Reference, "SyncQ").
fn queue_size(number: Option<Token>) -> u64
    ensures { result ≡ spec.queue_size number.entry }
{
    match number {
        Some(number) => size_by(number),
        None => 100,
    }
}

/// The site of the size of a queue.
fn size_site<'a>(number: Token<'a>) -> Site<'a>
    ensures { result ≡ spec.at_size number.entry }
{
    let size = size_by(number);
    Site::QueueSize {
        number,
        is_good: 1 <= size && size <= 4096,
    }
}

/// Notes the size of a queue, where one is written.
fn note_size<'a>(number: Option<Token<'a>>, sites: &mut Vec<Site<'a>>) -> Result<(), AllocError>
    ensures { OnOk result (sites.new.items ≡ sites.old.items ++ maybe spec.in_size number.entry) }
{
    match number {
        Some(number) => pushed(sites, size_site(number)),
        None => Ok(()),
    }
}

/// Notes the sites in a `sync`.
fn note_sync<'a>(
    sync: &Sync<'a>,
    sight: &Sight<'_, 'a>,
    sites: &mut Vec<Site<'a>>,
) -> Result<(), AllocError>
    ensures { OnOk result (sites.new.items ≡ sites.old.items
        ++ spec.in_sync (sight_of sight.now) (sync_view sync.now)) }
{
    let place = &sync.place;
    note_defined(place, Sort::Sync, place.name, sight, None, sites)?;
    note_flag(&sync.flag, sight, sites)
}

/// Notes the sites in a `syncQ`.
fn note_queue<'a>(
    queue: &SyncQueue<'a>,
    sight: &Sight<'_, 'a>,
    sites: &mut Vec<Site<'a>>,
) -> Result<(), AllocError>
    ensures { OnOk result (sites.new.items ≡ sites.old.items
        ++ spec.in_queue (sight_of sight.now) (queue_view queue.now)) }
{
    let sort = Sort::Queue(queue_size(queue.size));
    note_defined(&queue.place, sort, queue.word, sight, None, sites)?;
    note_any_flag(&queue.flag, sight, sites)?;
    note_size(queue.size, sites)
}

/// Notes the sites in an `assign`.
fn note_assign<'a>(
    assign: &Assign<'a>,
    sight: &Sight<'_, 'a>,
    sites: &mut Vec<Site<'a>>,
) -> Result<(), AllocError>
    ensures { OnOk result (sites.new.items ≡ sites.old.items
        ++ spec.in_assign (sight_of sight.now) (assign_view assign.now)) }
{
    let list = listed_names(&assign.channels);
    let place = &assign.place;
    note_defined(place, Sort::Assign, assign.word, sight, list, sites)
}

/// Notes an option, of a state or elsewhere.
fn note_setting<'a>(
    in_state: bool,
    setting: Setting<'a>,
    sites: &mut Vec<Site<'a>>,
) -> Result<(), AllocError>
    ensures { OnOk result (sites.new.items ≡ sites.old.items
        ++ spec.at_setting in_state (setting_view setting.entry) ∷ []) }
{
    let site = Site::Setting {
        sign: setting.sign,
        name: setting.name,
        refused: refused(in_state, setting),
    };
    pushed(sites, site)
}

/// Notes the sites in a definition or an option, of a state or elsewhere; declared names are noted
/// with their scope, and a function with those of its program. Fails only where memory ends.
pub fn note_definition<'a>(
    definition: &Def<'a>,
    in_state: bool,
    sight: &Sight<'_, 'a>,
    sites: &mut Vec<Site<'a>>,
) -> Result<(), AllocError>
    ensures { OnOk result (sites.new.items ≡ sites.old.items
        ++ spec.in_definition in_state (sight_of sight.now) (definition_view definition.now)) }
{
    match definition {
        Def::Declaration(declared) => note_declaration(declared, sight, false, sites),
        Def::Assign(assign) => note_assign(assign, sight, sites),
        Def::Monitor(place) => note_defined(place, Sort::Monitor, place.name, sight, None, sites),
        Def::Sync(sync) => note_sync(sync, sight, sites),
        Def::SyncQueue(queue) => note_queue(queue, sight, sites),
        Def::EventFlags(_) => Ok(()),
        Def::Setting(setting) => note_setting(in_state, *setting, sites),
        Def::Function(_) => Ok(()),
    }
}

/// Notes the sites in each of some definitions.
fn note_each<'a>(
    definitions: &[Def<'a>],
    in_state: bool,
    sight: &Sight<'_, 'a>,
    sites: &mut Vec<Site<'a>>,
) -> Result<(), AllocError>
    ensures { OnOk result (sites.new.items ≡ sites.old.items
        ++ flat_map (spec.in_definition in_state (sight_of sight.now))
        (map definition_view definitions.now)) }
{
    for definition in definitions {
        note_definition(definition, in_state, sight, sites)?;
    }
    Ok(())
}

/// Notes the sites in definitions, their declared names first; gives the scope that they make
/// within others. Fails only where memory ends.
pub fn note_definitions<'a>(
    alloc: Global,
    definitions: &[Def<'a>],
    in_state: bool,
    outer: &Sight<'_, 'a>,
    sites: &mut Vec<Site<'a>>,
) -> Result<Scope<'a>, AllocError>
    ensures scope { IfOk result (λ scope. scope
        ≡ scope_of (sight_of outer.now).scopes (map definition_view definitions.now)) }
    ensures sites { OnOk result (sites.new.items ≡ sites.old.items
        ++ spec.in_definitions in_state (sight_of outer.now)
        (map definition_view definitions.now)) }
{
    let scope = definition_scope(alloc, definitions, &outer.scopes, sites)?;
    note_each(definitions, in_state, &outer.within(&scope), sites)?;
    Ok(scope)
}
