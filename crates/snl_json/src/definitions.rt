//! The rows of definitions.

ghost use Rattle.std.specs.Prelude.{◌≡◌, map, codes, OnOk};
ghost use Rattle.snl_syntax.specs.view.Declarations.{declaration_view};
ghost use Rattle.snl_json.specs.Declarations.{with_declaration};
ghost use Rattle.snl_syntax.specs.view.Definitions.{place_view, names_view, channels_view, assign_view, flag_view, sync_view, queue_view, setting_view, definition_view};
ghost use Rattle.snl_syntax.specs.view.Shown.{shown};
ghost use Rattle.snl_json.specs.Rows.{made, with_list, with_words, with_maybe, maybe_last};
ghost use Rattle.snl_json.specs.Definitions as spec;

use crate::declarations::put_declaration;
use crate::expressions::put_maybe;
use crate::functions::put_function;
use crate::rows::{
    Part, last, maybe_word, put_empty, put_first, put_four, put_one, put_three, put_two,
};
use serde_json::Value;
use snl_syntax::{
    Assign, ChannelNames, Channels, Declaration, Def, Flag, Place, Setting, Sync, SyncQueue,
};
use snl_text::Token;
use std::alloc::{AllocError, Global};

/// Puts the rows of a variable, or of an element of one, behind others.
fn put_place<'a>(alloc: Global, place: &Place<'a>, rows: &mut Vec<Value>) -> Result<(), AllocError>
    ensures { OnOk result (made rows.new.items
        ≡ spec.with_place (place_view place.now) (made rows.old.items)) }
{
    let subscript = put_maybe(alloc, &place.subscript, rows)?;
    put_two(alloc, "PlaceTree", Part::Word(place.name), subscript, rows)
}

/// Puts the rows of a list of tokens behind others, the last one first.
fn put_words<'a>(
    alloc: Global,
    words: &[Token<'a>],
    rows: &mut Vec<Value>,
) -> Result<(), AllocError>
    ensures { OnOk result (made rows.new.items ≡ with_words words.now (made rows.old.items)) }
{
    put_empty(alloc, "nil", rows)?;
    for number in (0..words.len()).rev() {
        put_two(
            alloc,
            "cons",
            Part::Word(words[number]),
            last(rows.as_slice()),
            rows,
        )?;
    }
    Ok(())
}

/// Puts the rows of what a variable is assigned to behind others.
fn put_channels<'a>(
    alloc: Global,
    channels: &Channels<'a>,
    rows: &mut Vec<Value>,
) -> Result<(), AllocError>
    ensures { OnOk result (made rows.new.items
        ≡ spec.with_channels (channels_view channels.now) (made rows.old.items)) }
{
    put_names(alloc, &channels.names, rows)?;
    put_two(
        alloc,
        "ChannelsTree",
        Part::Flag(channels.to),
        last(rows.as_slice()),
        rows,
    )
}

/// Puts the rows of the names of channels behind others.
fn put_names<'a>(
    alloc: Global,
    names: &ChannelNames<'a>,
    rows: &mut Vec<Value>,
) -> Result<(), AllocError>
    ensures { OnOk result (made rows.new.items
        ≡ spec.with_names (names_view names.now) (made rows.old.items)) }
{
    match names {
        ChannelNames::One(name) => put_one(alloc, "one_name", Part::Word(*name), rows),
        ChannelNames::List(names) => {
            put_words(alloc, names.as_slice(), rows)?;
            put_one(alloc, "name_list", last(rows.as_slice()), rows)
        }
    }
}

/// The rows of an `assign`.
fn put_assign<'a>(
    alloc: Global,
    assign: &Assign<'a>,
    rows: &mut Vec<Value>,
) -> Result<(), AllocError>
    ensures { OnOk result (made rows.new.items
        ≡ spec.with_assign (assign_view assign.now) (made rows.old.items)) }
{
    put_place(alloc, &assign.place, rows)?;
    let place = last(rows.as_slice());
    let channels = match &assign.channels {
        Some(there) => {
            put_channels(alloc, there, rows)?;
            last(rows.as_slice())
        }
        None => Part::Missing,
    };
    put_three(
        alloc,
        "AssignTree",
        Part::Word(assign.word),
        place,
        channels,
        rows,
    )
}

/// Puts the row of the name of an event flag behind others.
fn put_flag<'a>(alloc: Global, flag: Flag<'a>, rows: &mut Vec<Value>) -> Result<(), AllocError>
    ensures { OnOk result (made rows.new.items
        ≡ spec.with_flag (flag_view flag.entry) (made rows.old.items)) }
{
    put_two(
        alloc,
        "FlagTree",
        Part::Flag(flag.to),
        Part::Word(flag.name),
        rows,
    )
}

/// Puts the rows of a `sync` behind others.
fn put_sync<'a>(alloc: Global, sync: &Sync<'a>, rows: &mut Vec<Value>) -> Result<(), AllocError>
    ensures { OnOk result (made rows.new.items
        ≡ spec.with_sync (sync_view sync.now) (made rows.old.items)) }
{
    put_place(alloc, &sync.place, rows)?;
    let place = last(rows.as_slice());
    put_flag(alloc, sync.flag, rows)?;
    put_two(alloc, "SyncTree", place, last(rows.as_slice()), rows)
}

/// Puts the rows of a `syncq` behind others.
fn put_queue<'a>(
    alloc: Global,
    queue: &SyncQueue<'a>,
    rows: &mut Vec<Value>,
) -> Result<(), AllocError>
    ensures { OnOk result (made rows.new.items
        ≡ spec.with_queue (queue_view queue.now) (made rows.old.items)) }
{
    put_place(alloc, &queue.place, rows)?;
    let place = last(rows.as_slice());
    let flag = match queue.flag {
        Some(there) => {
            put_flag(alloc, there, rows)?;
            last(rows.as_slice())
        }
        None => Part::Missing,
    };
    put_four(
        alloc,
        "QueueTree",
        Part::Word(queue.word),
        place,
        flag,
        maybe_word(queue.size),
        rows,
    )
}

/// Puts the row of an option behind others.
fn put_setting<'a>(
    alloc: Global,
    setting: Setting<'a>,
    rows: &mut Vec<Value>,
) -> Result<(), AllocError>
    ensures { OnOk result (made rows.new.items
        ≡ spec.with_setting (setting_view setting.entry) (made rows.old.items)) }
{
    put_two(
        alloc,
        "SettingTree",
        Part::Word(setting.sign),
        Part::Word(setting.name),
        rows,
    )
}

/// Puts the row of a form behind others whose only part is the tree of the last row.
fn put_only(alloc: Global, form: &str, rows: &mut Vec<Value>) -> Result<(), AllocError>
    ensures { OnOk result (made rows.new.items
        ≡ spec.with_only form.now (made rows.old.items)) }
{
    put_one(alloc, form, last(rows.as_slice()), rows)
}

/// Puts the rows of a declaration among definitions behind others.
fn put_declared<'a>(
    alloc: Global,
    declaration: &Declaration<'a>,
    rows: &mut Vec<Value>,
) -> Result<(), AllocError>
    ensures { OnOk result (made rows.new.items ≡ spec.with_only (codes "declaration")
        (with_declaration (declaration_view declaration.now) (made rows.old.items))) }
{
    put_declaration(alloc, declaration, rows)?;
    put_only(alloc, "declaration", rows)
}

/// Puts the rows of event flags behind others.
fn put_flags<'a>(
    alloc: Global,
    names: &[Token<'a>],
    rows: &mut Vec<Value>,
) -> Result<(), AllocError>
    ensures { OnOk result (made rows.new.items ≡ spec.with_only (codes "event_flags")
        (with_words names.now (made rows.old.items))) }
{
    put_words(alloc, names, rows)?;
    put_only(alloc, "event_flags", rows)
}

/// Puts the rows of a definition behind others. Fails only where memory ends.
#[tactic(auto, using(crate::proofs::Forms::declaration_made, crate::proofs::Forms::flags_made))]
pub fn put_definition<'a>(
    alloc: Global,
    definition: &Def<'a>,
    rows: &mut Vec<Value>,
) -> Result<(), AllocError>
    ensures { OnOk result (made rows.new.items
        ≡ spec.with_definition (definition_view definition.now) (made rows.old.items)) }
{
    match definition {
        Def::Declaration(declaration) => { put_declared(alloc, declaration, rows) }
        Def::Assign(assign) => {
            put_assign(alloc, assign, rows)?;
            put_only(alloc, "assign", rows)
        }
        Def::Monitor(place) => {
            put_place(alloc, place, rows)?;
            put_only(alloc, "monitor", rows)
        }
        Def::Sync(sync) => {
            put_sync(alloc, sync, rows)?;
            put_only(alloc, "sync", rows)
        }
        Def::SyncQueue(queue) => {
            put_queue(alloc, queue, rows)?;
            put_only(alloc, "sync_queue", rows)
        }
        Def::EventFlags(names) => { put_flags(alloc, names.as_slice(), rows) }
        Def::Setting(setting) => {
            put_setting(alloc, *setting, rows)?;
            put_only(alloc, "setting", rows)
        }
        Def::Function(function) => {
            put_function(alloc, function, rows)?;
            put_only(alloc, "function", rows)
        }
    }
}

/// Puts the rows of definitions behind others, the last one first. Fails only where memory ends.
pub fn put_definitions<'a>(
    alloc: Global,
    definitions: &[Def<'a>],
    rows: &mut Vec<Value>,
) -> Result<(), AllocError>
    ensures { OnOk result (made rows.new.items
        ≡ with_list spec.with_definition (map definition_view definitions.now)
        (made rows.old.items)) }
{
    put_empty(alloc, "nil", rows)?;
    for number in (0..definitions.len()).rev() {
        let others = last(rows.as_slice());
        put_definition(alloc, &definitions[number], rows)?;
        put_first(alloc, others, rows)?;
    }
    Ok(())
}
