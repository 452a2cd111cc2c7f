//! Whether a definition, an option or a function begins here.

ghost use Rattle.std.specs.Prelude.{◌≡◌};
ghost use Rattle.snl_syntax.specs.Definitions as kinds;
ghost use Rattle.snl_tree.specs.reading.Readers as readers;

use crate::readers::cursor::Cursor;
use crate::readers::declarations::is_type;
use snl_text::Kind;

/// Whether a definition is here.
pub fn at_definition(cursor: &Cursor) -> bool
    ensures { result ≡ readers.starts kinds.starts_definition cursor.now.left.now }
{
    match cursor.left {
        [first, ..] => starts_definition(first.kind),
        [] => false,
    }
}

/// Whether a token of this kind begins a definition.
fn starts_definition(kind: Kind) -> bool
    ensures { result ≡ kinds.starts_definition kind }
{
    match kind {
        Kind::Assign | Kind::Monitor | Kind::Sync | Kind::SyncQueue | Kind::EventFlag => true,
        _ => is_type(kind),
    }
}

/// Whether a definition or an option is here.
pub fn at_part(cursor: &Cursor) -> bool
    ensures { result ≡ readers.starts kinds.starts_part cursor.now.left.now }
{
    match cursor.left {
        [first, ..] => starts_part(first.kind),
        [] => false,
    }
}

/// Whether a token of this kind begins a definition or an option.
fn starts_part(kind: Kind) -> bool
    ensures { result ≡ kinds.starts_part kind }
{
    match kind {
        Kind::OptionWord => true,
        _ => starts_definition(kind),
    }
}

/// Whether a definition, an option or a function is here.
pub fn at_program_part(cursor: &Cursor) -> bool
    ensures { result ≡ readers.starts kinds.starts_program_part cursor.now.left.now }
{
    match cursor.left {
        [first, ..] => starts_program_part(first.kind),
        [] => false,
    }
}

/// Whether a token of this kind begins a definition, an option or a function.
fn starts_program_part(kind: Kind) -> bool
    ensures { result ≡ kinds.starts_program_part kind }
{
    match kind {
        Kind::Void => true,
        _ => starts_part(kind),
    }
}
