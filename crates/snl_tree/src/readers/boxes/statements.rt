//! Statements and blocks in their boxes.

ghost use Rattle.std.specs.Prelude.{◌≡◌};
ghost use Rattle.snl_syntax.specs.Statements as kinds;
ghost use Rattle.snl_tree.specs.reading.Moves.{Builds};
ghost use Rattle.snl_syntax.specs.view.Lists.{statement_list};
ghost use Rattle.snl_syntax.specs.view.Shown.{shown, held};
ghost use Rattle.snl_syntax.specs.view.Expressions.{boxed};
ghost use Rattle.snl_syntax.specs.view.Statements.{header_view, declaration_views, statement_view, statement_views, block_view};

use crate::readers::cursor::Halt;
use crate::readers::room::{in_box, made_of_one, made_of_three, made_of_two};
use snl_syntax::{Block, Declaration, Expr, Header, Stmt};
use snl_text::Token;
use std::alloc::Global;

/// The three parts of a `for`.
#[tactic(auto, using(crate::proofs::code::Building::in_a_box))]
pub fn boxed_header<'a>(
    alloc: &Global,
    start: Option<Box<Expr<'a>>>,
    condition: Option<Box<Expr<'a>>>,
    step: Option<Box<Expr<'a>>>,
) -> Result<Box<Header<'a>>, Halt>
    ensures { Builds (held header_view) result record {
      start = shown boxed start.entry;
      condition = shown boxed condition.entry;
      step = shown boxed step.entry;
    } }
{
    let header = Header {
        start,
        condition,
        step,
    };
    in_box(alloc, header)
}

/// A block.
#[tactic(auto, using(crate::proofs::code::Building::in_a_box))]
pub fn boxed_block<'a>(
    alloc: &Global,
    declarations: Vec<Declaration<'a>>,
    statements: Vec<Stmt<'a>>,
) -> Result<Box<Block<'a>>, Halt>
    ensures { Builds (held block_view) result (kinds.block
        (declaration_views declarations.entry)
        (statement_list (statement_views statements.entry))) }
{
    let block = Block {
        declarations,
        statements,
    };
    in_box(alloc, block)
}

/// The statement that is a block, of its block.
fn nested_of<'a>(block: Box<Block<'a>>) -> Stmt<'a>
    ensures { statement_view result ≡ kinds.nested (held block_view block.entry) }
{
    Stmt::Block(Box::into_inner(block))
}

/// The statement that is a block.
#[tactic(auto, using(crate::proofs::code::Building::made_in_a_box))]
pub fn boxed_nested<'a>(alloc: Global, block: Box<Block<'a>>) -> Result<Box<Stmt<'a>>, Halt>
    ensures { Builds (held statement_view) result (kinds.nested (held block_view block.entry)) }
{
    made_of_one(alloc, nested_of, block)
}

/// The empty statement.
#[tactic(auto, using(crate::proofs::code::Building::in_a_box))]
pub fn boxed_empty<'a>(alloc: &Global) -> Result<Box<Stmt<'a>>, Halt>
    ensures { Builds (held statement_view) result kinds.empty }
{
    in_box(alloc, Stmt::Empty)
}

/// The statement that is an expression, of its expression.
fn expression_of<'a>(value: Box<Expr<'a>>) -> Stmt<'a>
    ensures { statement_view result ≡ kinds.expression (boxed value.entry) }
{
    Stmt::Expression(value)
}

/// The statement that is an expression.
#[tactic(auto, using(crate::proofs::code::Building::made_in_a_box))]
pub fn boxed_expression<'a>(alloc: Global, value: Box<Expr<'a>>) -> Result<Box<Stmt<'a>>, Halt>
    ensures { Builds (held statement_view) result (kinds.expression (boxed value.entry)) }
{
    made_of_one(alloc, expression_of, value)
}

/// A `break`.
#[tactic(auto, using(crate::proofs::code::Building::in_a_box))]
pub fn boxed_break<'a>(alloc: &Global, word: Token<'a>) -> Result<Box<Stmt<'a>>, Halt>
    ensures { Builds (held statement_view) result (kinds.break_loop word.entry) }
{
    in_box(alloc, Stmt::Break(word))
}

/// A `continue`.
#[tactic(auto, using(crate::proofs::code::Building::in_a_box))]
pub fn boxed_continue<'a>(alloc: &Global, word: Token<'a>) -> Result<Box<Stmt<'a>>, Halt>
    ensures { Builds (held statement_view) result (kinds.continue_loop word.entry) }
{
    in_box(alloc, Stmt::Continue(word))
}

/// A state statement.
#[tactic(auto, using(crate::proofs::code::Building::in_a_box))]
pub fn boxed_change<'a>(
    alloc: &Global,
    word: Token<'a>,
    name: Token<'a>,
) -> Result<Box<Stmt<'a>>, Halt>
    ensures { Builds (held statement_view) result (kinds.change_state word.entry name.entry) }
{
    in_box(alloc, Stmt::State { word, name })
}

/// A `return`, with its value if it has one.
#[tactic(auto, using(crate::proofs::code::Building::in_a_box))]
pub fn boxed_return<'a>(
    alloc: &Global,
    word: Token<'a>,
    value: Option<Box<Expr<'a>>>,
) -> Result<Box<Stmt<'a>>, Halt>
    ensures { Builds (held statement_view) result
        (kinds.return_with word.entry (shown boxed value.entry)) }
{
    in_box(alloc, Stmt::Return { word, value })
}

/// An `if` without `else`, of its parts.
fn if_of<'a>(condition: Box<Expr<'a>>, first: Box<Stmt<'a>>) -> Stmt<'a>
    ensures { statement_view result ≡ kinds.if_then
        (boxed condition.entry)
        (held statement_view first.entry) }
{
    Stmt::If { condition, first }
}

/// An `if` without `else`.
#[tactic(auto, using(crate::proofs::code::Building::made_in_a_box))]
pub fn boxed_if<'a>(
    alloc: Global,
    condition: Box<Expr<'a>>,
    first: Box<Stmt<'a>>,
) -> Result<Box<Stmt<'a>>, Halt>
    ensures { Builds (held statement_view) result
        (kinds.if_then (boxed condition.entry) (held statement_view first.entry)) }
{
    made_of_two(alloc, if_of, condition, first)
}

/// An `if` with its `else`, of its parts.
fn if_else_of<'a>(condition: Box<Expr<'a>>, first: Box<Stmt<'a>>, second: Box<Stmt<'a>>) -> Stmt<'a>
    ensures { statement_view result ≡ kinds.if_else
        (boxed condition.entry)
        (held statement_view first.entry)
        (held statement_view second.entry) }
{
    Stmt::IfElse {
        condition,
        first,
        second,
    }
}

/// An `if` with its `else`.
#[tactic(auto, using(crate::proofs::code::Building::made_in_a_box))]
pub fn boxed_if_else<'a>(
    alloc: Global,
    condition: Box<Expr<'a>>,
    first: Box<Stmt<'a>>,
    second: Box<Stmt<'a>>,
) -> Result<Box<Stmt<'a>>, Halt>
    ensures { Builds (held statement_view) result (kinds.if_else
        (boxed condition.entry)
        (held statement_view first.entry)
        (held statement_view second.entry)) }
{
    made_of_three(alloc, if_else_of, condition, first, second)
}

/// A `while` of its parts.
fn while_of<'a>(word: Token<'a>, condition: Box<Expr<'a>>, body: Box<Stmt<'a>>) -> Stmt<'a>
    ensures { statement_view result ≡ kinds.while_loop
        word.entry
        (boxed condition.entry)
        (held statement_view body.entry) }
{
    Stmt::While {
        word,
        condition,
        body,
    }
}

/// A `while`.
#[tactic(auto, using(crate::proofs::code::Building::made_in_a_box))]
pub fn boxed_while<'a>(
    alloc: Global,
    word: Token<'a>,
    condition: Box<Expr<'a>>,
    body: Box<Stmt<'a>>,
) -> Result<Box<Stmt<'a>>, Halt>
    ensures { Builds (held statement_view) result
        (kinds.while_loop word.entry (boxed condition.entry) (held statement_view body.entry)) }
{
    made_of_three(alloc, while_of, word, condition, body)
}

/// A `for` of its parts.
fn for_of<'a>(word: Token<'a>, header: Box<Header<'a>>, body: Box<Stmt<'a>>) -> Stmt<'a>
    ensures { statement_view result ≡ kinds.for_loop
        word.entry
        (held header_view header.entry)
        (held statement_view body.entry) }
{
    Stmt::For { word, header, body }
}

/// A `for`.
#[tactic(auto, using(crate::proofs::code::Building::made_in_a_box))]
pub fn boxed_for<'a>(
    alloc: Global,
    word: Token<'a>,
    header: Box<Header<'a>>,
    body: Box<Stmt<'a>>,
) -> Result<Box<Stmt<'a>>, Halt>
    ensures { Builds (held statement_view) result (kinds.for_loop
        word.entry
        (held header_view header.entry)
        (held statement_view body.entry)) }
{
    made_of_three(alloc, for_of, word, header, body)
}
