//! Expressions in their boxes, and their terms and arguments in rows.

ghost use Rattle.std.proofs.Common.{inl, inr};
ghost use Rattle.snl_syntax.specs.Expressions as kinds;
ghost use Rattle.snl_syntax.specs.view.Lists.{term_list};
ghost use Rattle.snl_tree.specs.reading.Expressions.{chain_tree};
ghost use Rattle.snl_tree.specs.reading.Moves.{Appends, Builds};
ghost use Rattle.snl_syntax.specs.view.Expressions.{argument_of, arguments_of, boxed, pair_of, pairs};

use crate::readers::cursor::Halt;
use crate::readers::room::{in_box, pushed};
use snl_syntax::{Argument, Expr, Term};
use snl_text::Token;
use std::alloc::Global;

/// A constant.
#[tactic(auto, using(crate::proofs::code::Building::in_a_box))]
pub fn boxed_constant<'a>(alloc: &Global, token: Token<'a>) -> Result<Box<Expr<'a>>, Halt>
    ensures { Builds boxed result (kinds.constant token.entry) }
{
    in_box(alloc, Expr::Constant(token))
}

/// An expression in parentheses.
#[tactic(auto, using(crate::proofs::code::Building::in_a_box))]
pub fn boxed_parenthesized<'a>(alloc: &Global, inner: Box<Expr<'a>>) -> Result<Box<Expr<'a>>, Halt>
    ensures { Builds boxed result (kinds.parenthesized (boxed inner.entry)) }
{
    in_box(alloc, Expr::Parenthesized(inner))
}

/// A name alone.
#[tactic(auto, using(crate::proofs::code::Building::in_a_box))]
pub fn boxed_name<'a>(alloc: &Global, name: Token<'a>) -> Result<Box<Expr<'a>>, Halt>
    ensures { Builds boxed result (kinds.named name.entry) }
{
    in_box(alloc, Expr::Named(name))
}

/// A name with a subscript.
#[tactic(auto, using(crate::proofs::code::Building::in_a_box))]
pub fn boxed_element<'a>(
    alloc: &Global,
    name: Token<'a>,
    bracket: Token<'a>,
    index: Box<Expr<'a>>,
) -> Result<Box<Expr<'a>>, Halt>
    ensures { Builds boxed result (kinds.element name.entry bracket.entry (boxed index.entry)) }
{
    let element = Expr::Element {
        name,
        bracket,
        index,
    };
    in_box(alloc, element)
}

/// A call.
#[tactic(auto, using(crate::proofs::code::Building::in_a_box))]
pub fn boxed_call<'a>(
    alloc: &Global,
    name: Token<'a>,
    arguments: Vec<Argument<'a>>,
) -> Result<Box<Expr<'a>>, Halt>
    ensures { Builds boxed result (kinds.call name.entry (arguments_of arguments.entry)) }
{
    in_box(alloc, Expr::Call(name, arguments))
}

/// A place that is stepped after it is read.
#[tactic(auto, using(crate::proofs::code::Building::in_a_box))]
pub fn boxed_postfix<'a>(
    alloc: &Global,
    operand: Box<Expr<'a>>,
    operator: Token<'a>,
) -> Result<Box<Expr<'a>>, Halt>
    ensures { Builds boxed result (kinds.postfix (boxed operand.entry) operator.entry) }
{
    in_box(alloc, Expr::Postfix(operand, operator))
}

/// A prefix operator and its operand.
#[tactic(auto, using(crate::proofs::code::Building::in_a_box))]
pub fn boxed_prefix<'a>(
    alloc: &Global,
    operator: Token<'a>,
    operand: Box<Expr<'a>>,
) -> Result<Box<Expr<'a>>, Halt>
    ensures { Builds boxed result (kinds.prefix operator.entry (boxed operand.entry)) }
{
    in_box(alloc, Expr::Prefix(operator, operand))
}

/// Operands with the operators of one level between them. With none the first operand stands alone.
#[tactic(auto, using(crate::proofs::code::Rows::chain_alone, crate::proofs::code::Rows::chain_more))]
pub fn chained<'a>(
    alloc: &Global,
    first: Box<Expr<'a>>,
    terms: Vec<Term<'a>>,
) -> Result<Box<Expr<'a>>, Halt>
    ensures { Builds boxed result (chain_tree (boxed first.entry) (pairs terms.entry)) }
{
    if terms.is_empty() {
        return Ok(first);
    }
    boxed_chain(alloc, first, terms)
}

/// Operands with at least one operator of one level between them.
#[tactic(auto, using(crate::proofs::code::Building::in_a_box))]
fn boxed_chain<'a>(
    alloc: &Global,
    first: Box<Expr<'a>>,
    terms: Vec<Term<'a>>,
) -> Result<Box<Expr<'a>>, Halt>
    ensures { Builds boxed result
        (kinds.chain (boxed first.entry) (term_list (pairs terms.entry))) }
{
    in_box(alloc, Expr::Chain(first, terms))
}

/// A conditional.
#[tactic(auto, using(crate::proofs::code::Building::in_a_box))]
pub fn boxed_conditional<'a>(
    alloc: &Global,
    condition: Box<Expr<'a>>,
    yes: Box<Expr<'a>>,
    no: Box<Expr<'a>>,
) -> Result<Box<Expr<'a>>, Halt>
    ensures { Builds boxed result
        (kinds.conditional (boxed condition.entry) (boxed yes.entry) (boxed no.entry)) }
{
    in_box(alloc, Expr::Conditional { condition, yes, no })
}

/// An assignment.
#[tactic(auto, using(crate::proofs::code::Building::in_a_box))]
pub fn boxed_assignment<'a>(
    alloc: &Global,
    target: Box<Expr<'a>>,
    operator: Token<'a>,
    value: Box<Expr<'a>>,
) -> Result<Box<Expr<'a>>, Halt>
    ensures { Builds boxed result
        (kinds.assignment (boxed target.entry) operator.entry (boxed value.entry)) }
{
    let assignment = Expr::Assignment {
        target,
        operator,
        value,
    };
    in_box(alloc, assignment)
}

/// Puts an operator and the operand after it at the end of a row.
#[tactic(auto, using(crate::proofs::code::Building::in_a_row))]
pub fn push_term<'a>(
    row: &mut Vec<Term<'a>>,
    operator: Token<'a>,
    operand: Box<Expr<'a>>,
) -> Result<(), Halt>
    ensures { Appends pair_of row.old.items result row.new.items
        (operator.entry, boxed operand.entry) }
{
    pushed(row, Term { operator, operand })
}

/// Puts an expression at the end of a row of arguments.
#[tactic(auto, using(crate::proofs::code::Building::in_a_row))]
pub fn push_value<'a>(row: &mut Vec<Argument<'a>>, value: Box<Expr<'a>>) -> Result<(), Halt>
    ensures { Appends argument_of row.old.items result row.new.items (inr (boxed value.entry)) }
{
    pushed(row, Argument::Value(value))
}

/// Puts a string at the end of a row of arguments.
#[tactic(auto, using(crate::proofs::code::Building::in_a_row))]
pub fn push_text<'a>(row: &mut Vec<Argument<'a>>, text: Token<'a>) -> Result<(), Halt>
    ensures { Appends argument_of row.old.items result row.new.items (inl text.entry) }
{
    pushed(row, Argument::Text(text))
}
