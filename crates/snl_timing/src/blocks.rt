//! Whether each `delay` in a block is short.

ghost use Rattle.std.specs.Prelude.{map, IsTrue, Some};
ghost use Rattle.std.specs.List.{flat_map};
ghost use Rattle.snl_alike.specs.Delays.{DelaysAt, DelaysEach, DelaysInAll, DelaysInBlock, DelaysInBlockMaybe, DelaysInNames, DelaysMaybe, IsShort};
ghost use Rattle.snl_meaning.specs.Effect.{names_of, values_of};
ghost use Rattle.snl_syntax.specs.view.Declarations.{initialiser_view, declarator_view, declaration_view};
ghost use Rattle.snl_syntax.specs.view.Lists.{statement_list};
ghost use Rattle.snl_syntax.specs.view.Shown.{shown, held};
ghost use Rattle.snl_syntax.specs.view.Statements.{header_view, statement_view, block_view};
ghost use Rattle.snl_timing.specs.Headers.{DelaysInHeader};

use crate::expressions::{are_short_each, are_short_in, are_short_maybe};
use snl_syntax::{Block, Declaration, Declarator, Header, Initialiser, Stmt};

/// Whether each `delay` in an initialiser is short.
fn are_short_values<'a>(longest: u32, initial: &Initialiser<'a>) -> bool
    ensures { IsTrue result → DelaysEach (IsShort (Some longest))
        (values_of (Some (initialiser_view initial.now))) }
{
    match initial {
        Initialiser::Single(value) => are_short_in(longest, value),
        Initialiser::List(values) => are_short_each(longest, values.each.as_slice()),
    }
}

/// The same of one that may be missing.
fn are_short_at_first<'a>(longest: u32, initial: &Option<Initialiser<'a>>) -> bool
    ensures { IsTrue result → DelaysEach (IsShort (Some longest))
        (values_of (shown initialiser_view initial.now)) }
{
    match initial {
        None => true,
        Some(initial) => are_short_values(longest, initial),
    }
}

/// The same of the variables of a declaration.
fn are_short_names<'a>(longest: u32, names: &[Declarator<'a>]) -> bool
    ensures { IsTrue result →
        DelaysInNames (IsShort (Some longest)) (map declarator_view names.now) }
{
    for declarator in names {
        if !are_short_at_first(longest, &declarator.initial) {
            return false;
        }
    }
    true
}

/// The same of declarations.
fn are_short_declared<'a>(longest: u32, declarations: &[Declaration<'a>]) -> bool
    ensures { IsTrue result → DelaysInNames (IsShort (Some longest))
        (names_of (map declaration_view declarations.now)) }
{
    for declaration in declarations {
        if !are_short_names(longest, declaration.names.as_slice()) {
            return false;
        }
    }
    true
}

/// The same between the parentheses of a `for`.
fn are_short_header<'a>(longest: u32, header: &Header<'a>) -> bool
    ensures { IsTrue result → DelaysInHeader (IsShort (Some longest)) (header_view header.now) }
{
    are_short_maybe(longest, &header.start)
        && are_short_maybe(longest, &header.condition)
        && are_short_maybe(longest, &header.step)
}

/// The same in a statement.
#[cycle(statement)]
fn are_short_statement<'a>(longest: u32, statement: &Stmt<'a>) -> bool
    ensures { IsTrue result → DelaysAt (IsShort (Some longest)) (statement_view statement.now) }
{
    match statement {
        Stmt::Empty | Stmt::Break(_) | Stmt::Continue(_) | Stmt::State { .. } => true,
        Stmt::Block(block) => are_short_block(longest, block),
        Stmt::Expression(value) => are_short_in(longest, value),
        Stmt::Return { value, .. } => are_short_maybe(longest, value),
        Stmt::If { condition, first } => {
            are_short_in(longest, condition) && are_short_statement(longest, first)
        }
        Stmt::IfElse {
            condition,
            first,
            second,
        } => {
            are_short_in(longest, condition)
                && are_short_statement(longest, first)
                && are_short_statement(longest, second)
        }
        Stmt::While {
            condition,
            body,
            ..
        } => are_short_in(longest, condition) && are_short_statement(longest, body),
        Stmt::For { header, body, .. } => {
            are_short_header(longest, header) && are_short_statement(longest, body)
        }
    }
}

/// The same in statements.
#[cycle(statement)]
fn are_short_statements<'a>(longest: u32, statements: &[Stmt<'a>]) -> bool
    ensures { IsTrue result → DelaysInAll (IsShort (Some longest))
        (statement_list (map statement_view statements.now)) }
{
    for statement in statements {
        if !are_short_statement(longest, statement) {
            return false;
        }
    }
    true
}

/// Whether each `delay` in a block is short.
#[cycle(statement)]
pub fn are_short_block<'a>(longest: u32, block: &Block<'a>) -> bool
    ensures { IsTrue result → DelaysInBlock (IsShort (Some longest)) (block_view block.now) }
{
    are_short_declared(longest, block.declarations.as_slice())
        && are_short_statements(longest, block.statements.as_slice())
}

/// The same of a block that may be missing.
pub fn are_short_maybe_block<'a>(longest: u32, block: &Option<Box<Block<'a>>>) -> bool
    ensures { IsTrue result → DelaysInBlockMaybe (IsShort (Some longest))
        (shown (held block_view) block.now) }
{
    match block {
        Some(block) => are_short_block(longest, block),
        None => true,
    }
}
