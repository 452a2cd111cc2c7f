//! The readers of options, and of the definitions of a state among which they stand.

ghost use Rattle.snl_syntax.specs.Definitions as kinds;
ghost use Rattle.snl_tree.specs.reading.Definitions as specs;
ghost use Rattle.snl_tree.specs.reading.Readers as readers;
ghost use Rattle.snl_tree.specs.reading.Readers.{made};
ghost use Rattle.snl_tree.specs.reading.Moves.{Adds, Moves, MovesToken};
ghost use Rattle.snl_syntax.specs.view.Definitions.{definition_view, definition_views};

use crate::readers::boxes::definitions::push_setting;
use crate::readers::cursor::{Cursor, Halt, at, sign, token};
use crate::readers::definitions::definition;
use crate::readers::parts::at_part;
use snl_syntax::{Def, Setting};
use snl_text::{Kind, Token};
use std::alloc::Global;

/// Reads the sign of an option.
fn option_sign<'a, 't>(cursor: &mut Cursor<'a, 't>) -> Result<Token<'a>, Halt>
    ensures { MovesToken result cursor.new.left.now
        (readers.one kinds.is_sign cursor.old.left.now) }
{
    match cursor.left {
        [first, after @ ..] if matches!(first.kind, Kind::Plus | Kind::Minus) => {
            cursor.left = after;
            Ok(*first)
        }
        _ => Err(Halt::Stuck),
    }
}

/// Reads an option, and puts it at the end of a row.
#[tactic(auto, unfolding(crate::specs::reading::Definitions::setting_at))]
pub fn setting<'a, 't>(cursor: &mut Cursor<'a, 't>, row: &mut Vec<Def<'a>>) -> Result<(), Halt>
    ensures { Adds definition_view row.old.items result row.new.items cursor.new.left.now
        (made kinds.setting specs.setting_at cursor.old.left.now) }
{
    sign(cursor, Kind::OptionWord)?;
    let sign_token = option_sign(cursor)?;
    let name = token(cursor, Kind::Name)?;
    sign(cursor, Kind::Semicolon)?;
    let setting = Setting {
        sign: sign_token,
        name,
    };
    push_setting(row, setting)
}

/// Reads a definition or an option, and puts it at the end of a row.
#[tactic(auto, using(crate::proofs::code::DefinitionForms::part_cases))]
fn part<'a, 't>(
    alloc: Global,
    cursor: &mut Cursor<'a, 't>,
    depth: usize,
    row: &mut Vec<Def<'a>>,
) -> Result<(), Halt>
    ensures { Adds definition_view row.old.items result row.new.items cursor.new.left.now
        (specs.part_at depth cursor.old.left.now) }
{
    if at(cursor, Kind::OptionWord) {
        return setting(cursor, row);
    }
    definition(alloc, cursor, depth, row)
}

/// Reads the definitions and options of a state.
pub fn parts<'a, 't>(
    alloc: Global,
    cursor: &mut Cursor<'a, 't>,
    depth: usize,
) -> Result<Vec<Def<'a>>, Halt>
    ensures { Moves definition_views result cursor.new.left.now
        (specs.parts_at depth cursor.old.left.now) }
{
    let mut found = Vec::new(alloc);
    while at_part(cursor) {
        part(alloc, cursor, depth, &mut found)?;
    }
    Ok(found)
}
