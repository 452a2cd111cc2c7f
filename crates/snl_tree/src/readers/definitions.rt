//! The readers of definitions.

ghost use Rattle.std.specs.Prelude.{◌≡◌, Ok};
ghost use Rattle.snl_tree.specs.reading.Sequences as sequences;
ghost use Rattle.snl_syntax.specs.view.Shown.{shown, held};
ghost use Rattle.snl_syntax.specs.Definitions as kinds;
ghost use Rattle.snl_tree.specs.reading.Declarations.{bracket_at};
ghost use Rattle.snl_tree.specs.reading.Definitions as specs;
ghost use Rattle.snl_tree.specs.reading.Readers as readers;
ghost use Rattle.snl_tree.specs.reading.Readers.{made};
ghost use Rattle.snl_syntax.specs.Kinds.{is};
ghost use Rattle.snl_tree.specs.reading.Moves.{Adds, Moves, MovesToken};
ghost use Rattle.snl_syntax.specs.view.Expressions.{boxed};
ghost use Rattle.snl_syntax.specs.view.Definitions.{place_view, token_list, names_view, channels_view, flag_view, definition_view, definition_views};

use crate::readers::boxes::definitions::{
    boxed_place, push_assign, push_declared, push_event_flags, push_monitor, push_sync,
    push_sync_queue,
};
use crate::readers::cursor::{Cursor, Halt, at, sign, token};
use crate::readers::declarations::{at_declaration, bracket, declaration};
use crate::readers::parts::at_definition;
use crate::readers::room::pushed;
use snl_syntax::{ChannelNames, Channels, Def, Expr, Flag, Place};
use snl_text::{Kind, Token};
use std::alloc::Global;

/// Reads a subscript, where it is here.
fn subscript<'a, 't>(
    alloc: Global,
    cursor: &mut Cursor<'a, 't>,
    depth: usize,
) -> Result<Option<Box<Expr<'a>>>, Halt>
    ensures { Moves (shown boxed) result cursor.new.left.now
        (sequences.maybe (is Kind.OpenBracket) (bracket_at depth) cursor.old.left.now) }
{
    if !at(cursor, Kind::OpenBracket) {
        return Ok(None);
    }
    let index = bracket(alloc, cursor, depth)?;
    Ok(Some(index))
}

/// Reads the place of a definition.
#[tactic(auto, unfolding(crate::specs::reading::Definitions::place_at))]
fn place<'a, 't>(
    alloc: Global,
    cursor: &mut Cursor<'a, 't>,
    depth: usize,
) -> Result<Box<Place<'a>>, Halt>
    ensures { Moves (held place_view) result cursor.new.left.now
        (specs.place_at depth cursor.old.left.now) }
{
    let name = token(cursor, Kind::Name)?;
    let subscript = subscript(alloc, cursor, depth)?;
    boxed_place(&alloc, name, subscript)
}

/// Reads a comma and the token of a kind after it.
fn next_token<'a, 't>(cursor: &mut Cursor<'a, 't>, kind: Kind) -> Result<Token<'a>, Halt>
    ensures { MovesToken result cursor.new.left.now
        (sequences.behind Kind.Comma (readers.one (is kind)) cursor.old.left.now) }
{
    sign(cursor, Kind::Comma)?;
    let next = token(cursor, kind)?;
    Ok(next)
}

/// Reads tokens of a kind with commas between them.
fn tokens<'a, 't>(
    alloc: Global,
    cursor: &mut Cursor<'a, 't>,
    kind: Kind,
) -> Result<Vec<Token<'a>>, Halt>
    ensures { Moves token_list result cursor.new.left.now
        (sequences.parted Kind.Comma (readers.one (is kind)) cursor.old.left.now) }
{
    let mut found = Vec::new(alloc);
    let first = token(cursor, kind)?;
    pushed(&mut found, first)?;
    while at(cursor, Kind::Comma) {
        let next = next_token(cursor, kind)?;
        pushed(&mut found, next)?;
    }
    Ok(found)
}

/// Reads the names of an assign.
#[tactic(auto, unfolding(crate::specs::reading::Definitions::names_at, crate::specs::reading::Definitions::strings_at))]
fn names<'a, 't>(alloc: Global, cursor: &mut Cursor<'a, 't>) -> Result<ChannelNames<'a>, Halt>
    ensures { Moves names_view result cursor.new.left.now (specs.names_at cursor.old.left.now) }
{
    if at(cursor, Kind::Text) {
        let name = token(cursor, Kind::Text)?;
        return Ok(ChannelNames::One(name));
    }
    sign(cursor, Kind::OpenBrace)?;
    let all = tokens(alloc, cursor, Kind::Text)?;
    sign(cursor, Kind::CloseBrace)?;
    Ok(ChannelNames::List(all))
}

/// Reads `to`, where it is here.
fn has_to<'a, 't>(cursor: &mut Cursor<'a, 't>) -> Result<bool, Halt>
    ensures { MovesToken result cursor.new.left.now
        (sequences.whether Kind.To cursor.old.left.now) }
{
    if !at(cursor, Kind::To) {
        return Ok(false);
    }
    sign(cursor, Kind::To)?;
    Ok(true)
}

/// Whether the names of an assign are here.
fn at_channels(cursor: &Cursor) -> bool
    ensures { result ≡ readers.starts specs.starts_channels cursor.now.left.now }
{
    match cursor.left {
        [first, ..] => matches!(first.kind, Kind::To | Kind::Text | Kind::OpenBrace),
        [] => false,
    }
}

/// Reads what stands after the place of an assign.
#[tactic(auto, unfolding(crate::specs::reading::Definitions::channels_at))]
fn channels<'a, 't>(alloc: Global, cursor: &mut Cursor<'a, 't>) -> Result<Channels<'a>, Halt>
    ensures { Moves channels_view result cursor.new.left.now
        (specs.channels_at cursor.old.left.now) }
{
    let to = has_to(cursor)?;
    let names = names(alloc, cursor)?;
    Ok(Channels { to, names })
}

/// Reads what stands after the place of an assign, where it is here.
fn maybe_channels<'a, 't>(
    alloc: Global,
    cursor: &mut Cursor<'a, 't>,
) -> Result<Option<Channels<'a>>, Halt>
    ensures { Moves (shown channels_view) result cursor.new.left.now
        (sequences.maybe specs.starts_channels specs.channels_at cursor.old.left.now) }
{
    if !at_channels(cursor) {
        return Ok(None);
    }
    let channels = channels(alloc, cursor)?;
    Ok(Some(channels))
}

/// Reads an assign, and puts it at the end of a row.
#[tactic(auto, unfolding(crate::specs::reading::Definitions::assign_at))]
fn assign<'a, 't>(
    alloc: Global,
    cursor: &mut Cursor<'a, 't>,
    depth: usize,
    row: &mut Vec<Def<'a>>,
) -> Result<(), Halt>
    ensures { Adds definition_view row.old.items result row.new.items cursor.new.left.now
        (made kinds.assign (specs.assign_at depth) cursor.old.left.now) }
{
    let word = token(cursor, Kind::Assign)?;
    let place = place(alloc, cursor, depth)?;
    let channels = maybe_channels(alloc, cursor)?;
    sign(cursor, Kind::Semicolon)?;
    push_assign(row, word, place, channels)
}

/// Reads a monitor, and puts it at the end of a row.
#[tactic(auto, unfolding(crate::specs::reading::Definitions::monitor_at))]
fn monitor<'a, 't>(
    alloc: Global,
    cursor: &mut Cursor<'a, 't>,
    depth: usize,
    row: &mut Vec<Def<'a>>,
) -> Result<(), Halt>
    ensures { Adds definition_view row.old.items result row.new.items cursor.new.left.now
        (made kinds.monitor (specs.monitor_at depth) cursor.old.left.now) }
{
    sign(cursor, Kind::Monitor)?;
    let place = place(alloc, cursor, depth)?;
    sign(cursor, Kind::Semicolon)?;
    push_monitor(row, place)
}

/// Reads the event flag of a sync.
#[tactic(auto, unfolding(crate::specs::reading::Definitions::flag_at))]
fn flag<'a, 't>(cursor: &mut Cursor<'a, 't>) -> Result<Flag<'a>, Halt>
    ensures { Moves flag_view result cursor.new.left.now (specs.flag_at cursor.old.left.now) }
{
    let to = has_to(cursor)?;
    let name = token(cursor, Kind::Name)?;
    Ok(Flag { to, name })
}

/// Reads a sync, and puts it at the end of a row.
#[tactic(auto, unfolding(crate::specs::reading::Definitions::sync_at))]
fn sync<'a, 't>(
    alloc: Global,
    cursor: &mut Cursor<'a, 't>,
    depth: usize,
    row: &mut Vec<Def<'a>>,
) -> Result<(), Halt>
    ensures { Adds definition_view row.old.items result row.new.items cursor.new.left.now
        (made kinds.sync (specs.sync_at depth) cursor.old.left.now) }
{
    sign(cursor, Kind::Sync)?;
    let place = place(alloc, cursor, depth)?;
    let flag = flag(cursor)?;
    sign(cursor, Kind::Semicolon)?;
    push_sync(row, place, flag)
}

/// Whether the event flag of a queue is here.
fn at_flag(cursor: &Cursor) -> bool
    ensures { result ≡ readers.starts specs.starts_flag cursor.now.left.now }
{
    match cursor.left {
        [first, ..] => matches!(first.kind, Kind::To | Kind::Name),
        [] => false,
    }
}

/// Reads the event flag of a queue, where it is here.
fn maybe_flag<'a, 't>(cursor: &mut Cursor<'a, 't>) -> Result<Option<Flag<'a>>, Halt>
    ensures { Moves (shown flag_view) result cursor.new.left.now
        (sequences.maybe specs.starts_flag specs.flag_at cursor.old.left.now) }
{
    if !at_flag(cursor) {
        return Ok(None);
    }
    let flag = flag(cursor)?;
    Ok(Some(flag))
}

/// Reads the size of a queue, where it is here.
fn maybe_size<'a, 't>(cursor: &mut Cursor<'a, 't>) -> Option<Token<'a>>
    ensures { sequences.maybe (is Kind.Whole) (readers.one (is Kind.Whole))
        cursor.old.left.now ≡ Ok (result, cursor.new.left.now) }
{
    match cursor.left {
        [size, after @ ..] if size.kind == Kind::Whole => {
            cursor.left = after;
            Some(*size)
        }
        _ => None,
    }
}

/// Reads a queue, and puts it at the end of a row.
#[tactic(auto, unfolding(crate::specs::reading::Definitions::queue_at))]
fn sync_queue<'a, 't>(
    alloc: Global,
    cursor: &mut Cursor<'a, 't>,
    depth: usize,
    row: &mut Vec<Def<'a>>,
) -> Result<(), Halt>
    ensures { Adds definition_view row.old.items result row.new.items cursor.new.left.now
        (made kinds.sync_queue (specs.queue_at depth) cursor.old.left.now) }
{
    let word = token(cursor, Kind::SyncQueue)?;
    let place = place(alloc, cursor, depth)?;
    let flag = maybe_flag(cursor)?;
    let size = maybe_size(cursor);
    sign(cursor, Kind::Semicolon)?;
    push_sync_queue(row, word, place, flag, size)
}

/// Reads the declaration of event flags, and puts it at the end of a row.
#[tactic(auto, unfolding(crate::specs::reading::Definitions::event_flags_at, crate::specs::reading::Definitions::flags_at))]
fn event_flags<'a, 't>(
    alloc: Global,
    cursor: &mut Cursor<'a, 't>,
    row: &mut Vec<Def<'a>>,
) -> Result<(), Halt>
    ensures { Adds definition_view row.old.items result row.new.items cursor.new.left.now
        (made kinds.event_flags specs.event_flags_at cursor.old.left.now) }
{
    sign(cursor, Kind::EventFlag)?;
    let names = tokens(alloc, cursor, Kind::Name)?;
    sign(cursor, Kind::Semicolon)?;
    push_event_flags(row, names)
}

/// Reads a definition that is no declaration, and puts it at the end of a row.
#[tactic(auto, using(crate::proofs::code::DefinitionForms::other_cases))]
pub fn other<'a, 't>(
    alloc: Global,
    cursor: &mut Cursor<'a, 't>,
    depth: usize,
    row: &mut Vec<Def<'a>>,
) -> Result<(), Halt>
    ensures { Adds definition_view row.old.items result row.new.items cursor.new.left.now
        (specs.other_at depth cursor.old.left.now) }
{
    if at(cursor, Kind::Assign) {
        return assign(alloc, cursor, depth, row);
    }
    if at(cursor, Kind::Monitor) {
        return monitor(alloc, cursor, depth, row);
    }
    if at(cursor, Kind::Sync) {
        return sync(alloc, cursor, depth, row);
    }
    if at(cursor, Kind::SyncQueue) {
        return sync_queue(alloc, cursor, depth, row);
    }
    event_flags(alloc, cursor, row)
}

/// Reads a definition, and puts it at the end of a row.
#[tactic(auto, using(crate::proofs::code::DefinitionForms::definition_cases))]
pub fn definition<'a, 't>(
    alloc: Global,
    cursor: &mut Cursor<'a, 't>,
    depth: usize,
    row: &mut Vec<Def<'a>>,
) -> Result<(), Halt>
    ensures { Adds definition_view row.old.items result row.new.items cursor.new.left.now
        (specs.definition_at depth cursor.old.left.now) }
{
    if at_declaration(cursor) {
        let declaration = declaration(alloc, cursor, depth)?;
        return push_declared(row, declaration);
    }
    other(alloc, cursor, depth, row)
}

/// Reads the definitions of a state set.
pub fn definitions<'a, 't>(
    alloc: Global,
    cursor: &mut Cursor<'a, 't>,
    depth: usize,
) -> Result<Vec<Def<'a>>, Halt>
    ensures { Moves definition_views result cursor.new.left.now
        (specs.definitions_at depth cursor.old.left.now) }
{
    let mut found = Vec::new(alloc);
    while at_definition(cursor) {
        definition(alloc, cursor, depth, &mut found)?;
    }
    Ok(found)
}
