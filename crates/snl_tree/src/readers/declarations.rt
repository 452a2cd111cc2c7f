//! The readers of declarations.

ghost use Rattle.std.specs.Prelude.{◌≡◌, ◌<◌, ◌∷◌, Ok};
ghost use Rattle.snl_tree.specs.reading.Sequences as sequences;
ghost use Rattle.snl_syntax.specs.view.Shown.{shown, held};
ghost use Rattle.snl_syntax.specs.Declarations as kinds;
ghost use Rattle.snl_tree.specs.reading.Declarations as specs;
ghost use Rattle.snl_tree.specs.reading.Readers as readers;
ghost use Rattle.snl_tree.specs.reading.Readers.{made};
ghost use Rattle.snl_syntax.specs.Kinds.{is};
ghost use Rattle.snl_tree.specs.reading.Moves.{Moves, MovesToken};
ghost use Rattle.snl_syntax.specs.view.Expressions.{boxed};
ghost use Rattle.snl_syntax.specs.view.Declarations.{type_view, views, values_view, initialiser_view, declarator_view, declarator_views, declaration_view};

use crate::readers::boxes::declarations::{boxed_declaration, boxed_declarator};
use crate::readers::cursor::{Cursor, Halt, at, before, sign, token};
use crate::readers::expressions::level;
use crate::readers::kinds::{ASSIGNMENT, COMMA};
use crate::readers::room::{added, pushed};
use snl_syntax::{Declaration, Declarator, Expr, Initialiser, TypeName, Values};
use snl_text::{Kind, Token};
use std::alloc::Global;

/// Whether a token of this kind is a word that begins a declaration.
pub fn is_type(kind: Kind) -> bool
    ensures { result ≡ kinds.starts_declaration kind }
{
    matches!(
        kind,
        Kind::Char
            | Kind::Short
            | Kind::Int
            | Kind::Long
            | Kind::Unsigned
            | Kind::Int8
            | Kind::Int16
            | Kind::Int32
            | Kind::Int64
            | Kind::Uint8
            | Kind::Uint16
            | Kind::Uint32
            | Kind::Uint64
            | Kind::Float
            | Kind::Double
            | Kind::StringType
    )
}

/// Whether a declaration is here.
pub fn at_declaration(cursor: &Cursor) -> bool
    ensures { result ≡ readers.starts kinds.starts_declaration cursor.now.left.now }
{
    match cursor.left {
        [first, ..] => is_type(first.kind),
        [] => false,
    }
}

/// Reads the first word of a type.
fn type_word<'a, 't>(cursor: &mut Cursor<'a, 't>) -> Result<Token<'a>, Halt>
    ensures { MovesToken result cursor.new.left.now
        (readers.one kinds.starts_declaration cursor.old.left.now) }
{
    match cursor.left {
        [first, after @ ..] if is_type(first.kind) => {
            cursor.left = after;
            Ok(*first)
        }
        _ => Err(Halt::Stuck),
    }
}

/// Whether a token of this kind may stand after `unsigned`.
fn may_be_unsigned(kind: Kind) -> bool
    ensures { result ≡ kinds.may_be_unsigned kind }
{
    matches!(kind, Kind::Char | Kind::Short | Kind::Int | Kind::Long)
}

/// Reads a second word of a type, where one may stand after the first and does.
fn second_word<'a, 't>(cursor: &mut Cursor<'a, 't>, first: Kind) -> Option<Token<'a>>
    ensures { sequences.maybe (kinds.is_second first) (readers.one (kinds.is_second first))
        cursor.old.left.now ≡ Ok (result, cursor.new.left.now) }
{
    match cursor.left {
        [word, after @ ..] if may_be_unsigned(word.kind) && first == Kind::Unsigned => {
            cursor.left = after;
            Some(*word)
        }
        _ => None,
    }
}

/// Reads the words of a type.
#[tactic(auto, unfolding(crate::specs::reading::Declarations::type_at))]
pub fn type_name<'a, 't>(cursor: &mut Cursor<'a, 't>) -> Result<TypeName<'a>, Halt>
    ensures { Moves type_view result cursor.new.left.now (specs.type_at cursor.old.left.now) }
{
    let word = type_word(cursor)?;
    let second = second_word(cursor, word.kind);
    Ok(TypeName { word, second })
}

/// Reads an expression in brackets.
#[tactic(auto, unfolding(crate::specs::reading::Declarations::bracket_at))]
pub fn bracket<'a, 't>(
    alloc: Global,
    cursor: &mut Cursor<'a, 't>,
    depth: usize,
) -> Result<Box<Expr<'a>>, Halt>
    ensures { Moves boxed result cursor.new.left.now (specs.bracket_at depth cursor.old.left.now) }
{
    sign(cursor, Kind::OpenBracket)?;
    let expr = level(alloc, cursor, depth, COMMA)?;
    sign(cursor, Kind::CloseBracket)?;
    Ok(expr)
}

/// Reads the sizes after a declared name.
fn sizes<'a, 't>(
    alloc: Global,
    cursor: &mut Cursor<'a, 't>,
    depth: usize,
) -> Result<Vec<Box<Expr<'a>>>, Halt>
    ensures { Moves views result cursor.new.left.now (specs.sizes_at depth cursor.old.left.now) }
{
    let mut found = Vec::new(alloc);
    while at(cursor, Kind::OpenBracket) {
        let next = bracket(alloc, cursor, depth)?;
        pushed(&mut found, next)?;
    }
    Ok(found)
}

/// Reads what a declared name begins with: a value, or a list of values in braces.
#[tactic(auto, unfolding(crate::specs::reading::Declarations::initialiser_at))]
fn initialiser<'a, 't>(
    alloc: Global,
    cursor: &mut Cursor<'a, 't>,
    depth: usize,
) -> Result<Initialiser<'a>, Halt>
    ensures { Moves initialiser_view result cursor.new.left.now
        (specs.initialiser_at depth cursor.old.left.now) }
{
    if !at(cursor, Kind::OpenBrace) {
        let value = level(alloc, cursor, depth, ASSIGNMENT)?;
        return Ok(Initialiser::Single(value));
    }
    sign(cursor, Kind::OpenBrace)?;
    let values = values(alloc, cursor, depth)?;
    sign(cursor, Kind::CloseBrace)?;
    Ok(Initialiser::List(values))
}

/// Reads `=` and what stands after it, where it is here.
fn initial<'a, 't>(
    alloc: Global,
    cursor: &mut Cursor<'a, 't>,
    depth: usize,
) -> Result<Option<Initialiser<'a>>, Halt>
    ensures { Moves (shown initialiser_view) result cursor.new.left.now
        (sequences.maybe (is Kind.Equal) (sequences.behind Kind.Equal (specs.initialiser_at depth))
        cursor.old.left.now) }
{
    if !at(cursor, Kind::Equal) {
        return Ok(None);
    }
    sign(cursor, Kind::Equal)?;
    let initial = initialiser(alloc, cursor, depth)?;
    Ok(Some(initial))
}

/// Reads all that belongs to a declared name, which was read before.
#[tactic(auto, unfolding(crate::specs::reading::Declarations::ends_at))]
pub fn declarator_of<'a, 't>(
    alloc: Global,
    cursor: &mut Cursor<'a, 't>,
    depth: usize,
    name: Token<'a>,
) -> Result<Box<Declarator<'a>>, Halt>
    ensures { Moves (held declarator_view) result cursor.new.left.now
        (made (specs.declarator name.entry) (specs.ends_at depth) cursor.old.left.now) }
{
    let sizes = sizes(alloc, cursor, depth)?;
    let initial = initial(alloc, cursor, depth)?;
    boxed_declarator(&alloc, name, sizes, initial)
}

/// Reads a declared name with all that belongs to it.
#[tactic(auto, using(crate::proofs::code::FunctionForms::declarator_form))]
fn declarator<'a, 't>(
    alloc: Global,
    cursor: &mut Cursor<'a, 't>,
    depth: usize,
) -> Result<Box<Declarator<'a>>, Halt>
    ensures { Moves (held declarator_view) result cursor.new.left.now
        (specs.declarator_at depth cursor.old.left.now) }
{
    let name = token(cursor, Kind::Name)?;
    declarator_of(alloc, cursor, depth, name)
}

/// Reads a comma and the declared name after it.
fn next_declarator<'a, 't>(
    alloc: Global,
    cursor: &mut Cursor<'a, 't>,
    depth: usize,
) -> Result<Box<Declarator<'a>>, Halt>
    ensures { Moves (held declarator_view) result cursor.new.left.now
        (sequences.behind Kind.Comma (specs.declarator_at depth) cursor.old.left.now) }
{
    sign(cursor, Kind::Comma)?;
    let next = declarator(alloc, cursor, depth)?;
    Ok(next)
}

/// Reads further declared names, each after a comma, behind a first one.
pub fn declarators_of<'a, 't>(
    alloc: Global,
    cursor: &mut Cursor<'a, 't>,
    depth: usize,
    first: Box<Declarator<'a>>,
) -> Result<Vec<Declarator<'a>>, Halt>
    ensures { Moves declarator_views result cursor.new.left.now
        (made (λ all. declarator_view first.entry.value ∷ all) (specs.more_declarators_at depth)
        cursor.old.left.now) }
{
    let mut found = Vec::new(alloc);
    added(&mut found, first)?;
    while at(cursor, Kind::Comma) {
        let next = next_declarator(alloc, cursor, depth)?;
        added(&mut found, next)?;
    }
    Ok(found)
}

/// Reads declared names with commas between them.
#[tactic(auto, using(crate::proofs::code::FunctionForms::declarators_form))]
fn declarators<'a, 't>(
    alloc: Global,
    cursor: &mut Cursor<'a, 't>,
    depth: usize,
) -> Result<Vec<Declarator<'a>>, Halt>
    ensures { Moves declarator_views result cursor.new.left.now
        (specs.declarators_at depth cursor.old.left.now) }
{
    let first = declarator(alloc, cursor, depth)?;
    declarators_of(alloc, cursor, depth, first)
}

/// Reads the values of a list, up to its closing brace.
fn values<'a, 't>(
    alloc: Global,
    cursor: &mut Cursor<'a, 't>,
    depth: usize,
) -> Result<Values<'a>, Halt>
    ensures { Moves values_view result cursor.new.left.now
        (specs.values_at depth cursor.old.left.now) }
{
    let mut each = Vec::new(alloc);
    while before(cursor, Kind::CloseBrace) {
        let next = level(alloc, cursor, depth, ASSIGNMENT)?;
        pushed(&mut each, next)?;
        if !at(cursor, Kind::Comma) {
            return Ok(Values { each, comma: false });
        }
        sign(cursor, Kind::Comma)?;
    }
    let comma = !each.is_empty();
    Ok(Values { each, comma })
}

/// Reads a declaration.
#[tactic(auto, unfolding(crate::specs::reading::Declarations::declaration_at))]
pub fn declaration<'a, 't>(
    alloc: Global,
    cursor: &mut Cursor<'a, 't>,
    depth: usize,
) -> Result<Box<Declaration<'a>>, Halt>
    ensures { Moves (held declaration_view) result cursor.new.left.now
        (specs.declaration_at depth cursor.old.left.now) }
{
    let type_name = type_name(cursor)?;
    let names = declarators(alloc, cursor, depth)?;
    sign(cursor, Kind::Semicolon)?;
    boxed_declaration(&alloc, type_name, names)
}
