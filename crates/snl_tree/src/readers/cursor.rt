//! The place in the tokens that a reader moves on, and the readers of one token.

ghost use Rattle.std.specs.Prelude.{◌≡◌, ◌<◌, OnOk};
ghost use Rattle.snl_syntax.specs.Kinds as specs;
ghost use Rattle.snl_tree.specs.reading.Readers as readers;
ghost use Rattle.snl_tree.specs.reading.Expressions.{opened, here, is_operator};
ghost use Rattle.snl_tree.specs.reading.Moves.{MovesSign, MovesToken};
ghost use Rattle.snl_tree.specs.declared.readers.cursor.Halt.TheVariants.{Memory};

use crate::readers::kinds::{is_constant, is_prefix, looseness};
use snl_text::{Kind, Token};
use std::alloc::{AllocError, AllocFailed};

/// A place in the tokens that is moved on: those from there on.
#[derive(Drop)]
pub struct Cursor<'a, 't> {
    pub left: &'t [Token<'a>],
}

/// Why nothing is read. The cursor stays at the token that is at fault.
#[derive(Clone, Copy)]
pub enum Halt {
    /// Nothing goes on with the token here.
    Stuck,
    /// The token here is nested too deep.
    Deep,
    /// A tree found no room in memory.
    Memory,
}

impl<T: Drop> From<AllocFailed<T>> for Halt {
    ghost from_gives = { λ _ halt. halt ≡ Memory };

    fn from(_failed: AllocFailed<T>) -> Halt {
        Halt::Memory
    }
}

impl From<AllocError> for Halt {
    ghost from_gives = { λ _ halt. halt ≡ Memory };

    fn from(_failed: AllocError) -> Halt {
        Halt::Memory
    }
}

/// Whether the token here is of this kind.
pub fn at(cursor: &Cursor, kind: Kind) -> bool
    ensures { result ≡ readers.starts (specs.is kind) cursor.now.left.now }
{
    match cursor.left {
        [first, ..] => first.kind == kind,
        [] => false,
    }
}

/// Whether something other than a token of this kind is here.
pub fn before(cursor: &Cursor, kind: Kind) -> bool
    ensures { result ≡ readers.starts (specs.is_other kind) cursor.now.left.now }
{
    match cursor.left {
        [first, ..] => first.kind != kind,
        [] => false,
    }
}

/// Reads a token of a kind.
pub fn sign(cursor: &mut Cursor, kind: Kind) -> Result<(), Halt>
    ensures { MovesSign result cursor.new.left.now (readers.sign kind cursor.old.left.now) }
{
    match cursor.left {
        [first, after @ ..] if first.kind == kind => {
            cursor.left = after;
            Ok(())
        }
        _ => Err(Halt::Stuck),
    }
}

/// Reads a sign that opens a nested part. With no depth left it is nested too deep.
#[tactic(auto, using(crate::proofs::code::Opened::opened_some, crate::proofs::code::Opened::opened_none))]
pub fn open_sign(cursor: &mut Cursor, kind: Kind, depth: usize) -> Result<(), Halt>
    ensures gives { MovesSign result cursor.new.left.now
        (opened depth (specs.is kind) (readers.sign kind) cursor.old.left.now) }
    ensures room { OnOk result (0 < depth) }
{
    if depth > 0 {
        sign(cursor, kind)
    } else if at(cursor, kind) {
        Err(Halt::Deep)
    } else {
        Err(Halt::Stuck)
    }
}

/// Reads a token of a kind, which is kept.
pub fn token<'a, 't>(cursor: &mut Cursor<'a, 't>, kind: Kind) -> Result<Token<'a>, Halt>
    ensures { MovesToken result cursor.new.left.now
        (readers.one (specs.is kind) cursor.old.left.now) }
{
    match cursor.left {
        [first, after @ ..] if first.kind == kind => {
            cursor.left = after;
            Ok(*first)
        }
        _ => Err(Halt::Stuck),
    }
}

/// Reads a sign that opens a nested part and is kept. With no depth left it is nested too deep.
#[tactic(auto, using(crate::proofs::code::Opened::opened_some, crate::proofs::code::Opened::opened_none))]
pub fn open_token<'a, 't>(
    cursor: &mut Cursor<'a, 't>,
    kind: Kind,
    depth: usize,
) -> Result<Token<'a>, Halt>
    ensures gives { MovesToken result cursor.new.left.now
        (opened depth (specs.is kind) (readers.one (specs.is kind)) cursor.old.left.now) }
    ensures room { OnOk result (0 < depth) }
{
    if depth > 0 {
        token(cursor, kind)
    } else if at(cursor, kind) {
        Err(Halt::Deep)
    } else {
        Err(Halt::Stuck)
    }
}

/// Whether a constant is here.
pub fn at_constant(cursor: &Cursor) -> bool
    ensures { result ≡ readers.starts specs.is_constant cursor.now.left.now }
{
    match cursor.left {
        [first, ..] => is_constant(first.kind),
        [] => false,
    }
}

/// Reads a number or a character constant.
pub fn constant<'a, 't>(cursor: &mut Cursor<'a, 't>) -> Result<Token<'a>, Halt>
    ensures { MovesToken result cursor.new.left.now
        (readers.one specs.is_constant cursor.old.left.now) }
{
    match cursor.left {
        [first, after @ ..] if is_constant(first.kind) => {
            cursor.left = after;
            Ok(*first)
        }
        _ => Err(Halt::Stuck),
    }
}

/// Whether an operator that binds so loosely is here.
pub fn at_operator(cursor: &Cursor, level: u8) -> bool
    ensures { result ≡ readers.starts (is_operator level) cursor.now.left.now }
{
    match cursor.left {
        [first, ..] => looseness(first.kind) == level,
        [] => false,
    }
}

/// How loosely the token here holds what stands before it, as [`looseness`] says; 16 at the end.
pub fn looseness_here(cursor: &Cursor) -> u8
    ensures { result ≡ here cursor.now.left.now }
{
    match cursor.left {
        [first, ..] => looseness(first.kind),
        [] => 16,
    }
}

/// Reads an operator that binds so loosely.
pub fn operator<'a, 't>(cursor: &mut Cursor<'a, 't>, level: u8) -> Result<Token<'a>, Halt>
    ensures { MovesToken result cursor.new.left.now
        (readers.one (is_operator level) cursor.old.left.now) }
{
    match cursor.left {
        [first, after @ ..] if looseness(first.kind) == level => {
            cursor.left = after;
            Ok(*first)
        }
        _ => Err(Halt::Stuck),
    }
}

/// Reads an operator whose operand is nested.
#[tactic(auto, using(crate::proofs::code::Opened::opened_some, crate::proofs::code::Opened::opened_none))]
pub fn open_operator<'a, 't>(
    cursor: &mut Cursor<'a, 't>,
    level: u8,
    depth: usize,
) -> Result<Token<'a>, Halt>
    ensures gives { MovesToken result cursor.new.left.now
        (opened depth (is_operator level) (readers.one (is_operator level)) cursor.old.left.now) }
    ensures room { OnOk result (0 < depth) }
{
    if depth > 0 {
        operator(cursor, level)
    } else if at_operator(cursor, level) {
        Err(Halt::Deep)
    } else {
        Err(Halt::Stuck)
    }
}

/// Whether a prefix operator is here.
pub fn at_prefix(cursor: &Cursor) -> bool
    ensures { result ≡ readers.starts specs.is_prefix cursor.now.left.now }
{
    match cursor.left {
        [first, ..] => is_prefix(first.kind),
        [] => false,
    }
}

/// Reads a prefix operator.
fn prefix<'a, 't>(cursor: &mut Cursor<'a, 't>) -> Result<Token<'a>, Halt>
    ensures { MovesToken result cursor.new.left.now
        (readers.one specs.is_prefix cursor.old.left.now) }
{
    match cursor.left {
        [first, after @ ..] if is_prefix(first.kind) => {
            cursor.left = after;
            Ok(*first)
        }
        _ => Err(Halt::Stuck),
    }
}

/// Reads a prefix operator, whose operand is nested.
#[tactic(auto, using(crate::proofs::code::Opened::opened_some, crate::proofs::code::Opened::opened_none))]
pub fn open_prefix<'a, 't>(cursor: &mut Cursor<'a, 't>, depth: usize) -> Result<Token<'a>, Halt>
    ensures gives { MovesToken result cursor.new.left.now
        (opened depth specs.is_prefix (readers.one specs.is_prefix) cursor.old.left.now) }
    ensures room { OnOk result (0 < depth) }
{
    if depth > 0 {
        prefix(cursor)
    } else if at_prefix(cursor) {
        Err(Halt::Deep)
    } else {
        Err(Halt::Stuck)
    }
}
