//! Places in their boxes, and definitions in rows.

ghost use Rattle.std.specs.Prelude.{◌≡◌, ◌∷◌, ◌++◌, [], IfErr, OnOk};
ghost use Rattle.snl_tree.specs.declared.readers.cursor.Halt.TheVariants.{Memory};
ghost use Rattle.snl_syntax.specs.Definitions as kinds;
ghost use Rattle.snl_tree.specs.reading.Moves.{Appends, Builds};
ghost use Rattle.snl_syntax.specs.view.Shown.{shown, held};
ghost use Rattle.snl_syntax.specs.view.Expressions.{boxed};
ghost use Rattle.snl_syntax.specs.view.Declarations.{type_view, declarator_views, declaration_view};
ghost use Rattle.snl_syntax.specs.view.Definitions.{place_view, token_list, channels_view, flag_view, setting_view, definition_view};

use crate::readers::cursor::Halt;
use crate::readers::room::{in_box, pushed};
use snl_syntax::{
    Assign, Channels, Declaration, Declarator, Def, Expr, Flag, Place, Setting, Sync, SyncQueue,
    TypeName,
};
use snl_text::Token;
use std::alloc::Global;

/// A place with or without a subscript.
#[tactic(auto, using(crate::proofs::code::Building::in_a_box))]
pub fn boxed_place<'a>(
    alloc: &Global,
    name: Token<'a>,
    subscript: Option<Box<Expr<'a>>>,
) -> Result<Box<Place<'a>>, Halt>
    ensures { Builds (held place_view) result
        record { name = name.entry; subscript = shown boxed subscript.entry } }
{
    in_box(alloc, Place { name, subscript })
}

/// Puts a definition at the end of a row. What puts one kind of them there calls this, and no generic function: its proof would go
/// through all that a definition may hold.
pub fn push_definition<'a>(row: &mut Vec<Def<'a>>, definition: Def<'a>) -> Result<(), Halt>
    ensures items { OnOk result (row.new.items ≡ row.old.items ++ definition.entry ∷ []) }
    ensures memory { IfErr result (λ halt. halt ≡ Memory) }
{
    pushed(row, definition)
}

/// Puts the definition that is a declaration at the end of a row.
#[tactic(auto, using(crate::proofs::code::Building::in_a_row))]
pub fn push_declared<'a>(
    row: &mut Vec<Def<'a>>,
    declaration: Box<Declaration<'a>>,
) -> Result<(), Halt>
    ensures { Appends definition_view row.old.items result row.new.items
        (kinds.declaration (held declaration_view declaration.entry)) }
{
    push_definition(row, Def::Declaration(Box::into_inner(declaration)))
}

/// Puts the declaration of these names at the end of a row.
#[tactic(auto, using(crate::proofs::code::Building::in_a_row))]
pub fn push_variables<'a>(
    row: &mut Vec<Def<'a>>,
    type_name: TypeName<'a>,
    names: Vec<Declarator<'a>>,
) -> Result<(), Halt>
    ensures { Appends definition_view row.old.items result row.new.items (kinds.declaration
        record { type_name = type_view type_name.entry; names = declarator_views names.entry }) }
{
    push_definition(row, Def::Declaration(Declaration { type_name, names }))
}

/// Puts an assign at the end of a row.
#[tactic(auto, using(crate::proofs::code::Building::in_a_row))]
pub fn push_assign<'a>(
    row: &mut Vec<Def<'a>>,
    word: Token<'a>,
    place: Box<Place<'a>>,
    channels: Option<Channels<'a>>,
) -> Result<(), Halt>
    ensures { Appends definition_view row.old.items result row.new.items (kinds.assign record {
      word = word.entry;
      place = held place_view place.entry;
      channels = shown channels_view channels.entry;
    }) }
{
    let assign = Assign {
        word,
        place: Box::into_inner(place),
        channels,
    };
    push_definition(row, Def::Assign(assign))
}

/// Puts a monitor at the end of a row.
#[tactic(auto, using(crate::proofs::code::Building::in_a_row))]
pub fn push_monitor<'a>(row: &mut Vec<Def<'a>>, place: Box<Place<'a>>) -> Result<(), Halt>
    ensures { Appends definition_view row.old.items result row.new.items
        (kinds.monitor (held place_view place.entry)) }
{
    push_definition(row, Def::Monitor(Box::into_inner(place)))
}

/// Puts a sync at the end of a row.
#[tactic(auto, using(crate::proofs::code::Building::in_a_row))]
pub fn push_sync<'a>(
    row: &mut Vec<Def<'a>>,
    place: Box<Place<'a>>,
    flag: Flag<'a>,
) -> Result<(), Halt>
    ensures { Appends definition_view row.old.items result row.new.items (kinds.sync
        record { place = held place_view place.entry; flag = flag_view flag.entry }) }
{
    let sync = Sync {
        place: Box::into_inner(place),
        flag,
    };
    push_definition(row, Def::Sync(sync))
}

/// Puts a queue at the end of a row.
#[tactic(auto, using(crate::proofs::code::Building::in_a_row))]
pub fn push_sync_queue<'a>(
    row: &mut Vec<Def<'a>>,
    word: Token<'a>,
    place: Box<Place<'a>>,
    flag: Option<Flag<'a>>,
    size: Option<Token<'a>>,
) -> Result<(), Halt>
    ensures { Appends definition_view row.old.items result row.new.items (kinds.sync_queue record {
      word = word.entry;
      place = held place_view place.entry;
      flag = shown flag_view flag.entry;
      size = size.entry;
    }) }
{
    let queue = SyncQueue {
        word,
        place: Box::into_inner(place),
        flag,
        size,
    };
    push_definition(row, Def::SyncQueue(queue))
}

/// Puts the declaration of event flags at the end of a row.
#[tactic(auto, using(crate::proofs::code::Building::in_a_row))]
pub fn push_event_flags<'a>(row: &mut Vec<Def<'a>>, names: Vec<Token<'a>>) -> Result<(), Halt>
    ensures { Appends definition_view row.old.items result row.new.items
        (kinds.event_flags (token_list names.entry)) }
{
    push_definition(row, Def::EventFlags(names))
}

/// Puts an option at the end of a row.
#[tactic(auto, using(crate::proofs::code::Building::in_a_row))]
pub fn push_setting<'a>(row: &mut Vec<Def<'a>>, setting: Setting<'a>) -> Result<(), Halt>
    ensures { Appends definition_view row.old.items result row.new.items
        (kinds.setting (setting_view setting.entry)) }
{
    push_definition(row, Def::Setting(setting))
}
