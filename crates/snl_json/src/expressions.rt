//! The rows of expressions.

ghost use Rattle.std.specs.Prelude.{◌≡◌, [], ◌∷◌, map, codes, IfOk, OnOk};
ghost use Rattle.snl_syntax.specs.Expressions as tree;
ghost use Rattle.snl_syntax.specs.Expressions.{no_arguments};
ghost use Rattle.snl_syntax.specs.view.Expressions.{view, boxed, pair_of, argument_of, list_before};
ghost use Rattle.snl_syntax.specs.view.Lists.{term_list};
ghost use Rattle.snl_syntax.specs.view.Shown.{shown};
ghost use Rattle.snl_json.specs.Rows.{made, with_row, with_maybe, maybe_last};
ghost use Rattle.snl_json.specs.Rows.{last as spec_last};
ghost use Rattle.snl_json.specs.Expressions as spec;

use crate::rows::{Part, last, put_empty, put_one, put_three, put_two};
use serde_json::Value;
use snl_syntax::{Argument, Expr, Term};
use snl_text::Token;
use std::alloc::{AllocError, Global};

/// Puts the rows of an expression behind others. Fails only where memory ends.
#[cycle(expression)]
#[tactic(auto, using(crate::proofs::Forms::call_made, crate::proofs::Forms::chain_made, crate::proofs::Forms::conditional_made))]
pub fn put_expression<'a>(
    alloc: Global,
    expression: &Expr<'a>,
    rows: &mut Vec<Value>,
) -> Result<(), AllocError>
    ensures { OnOk result (made rows.new.items
        ≡ spec.with_expression (view expression.now) (made rows.old.items)) }
{
    match expression {
        Expr::Constant(token) => put_one(alloc, "constant", Part::Word(*token), rows),
        Expr::Named(token) => put_one(alloc, "named", Part::Word(*token), rows),
        Expr::Parenthesized(inside) => put_parenthesized(alloc, inside, rows),
        Expr::Element {
            name,
            bracket,
            index,
        } => put_element(alloc, index, *name, *bracket, rows),
        Expr::Call(name, arguments) => put_call(alloc, arguments.as_slice(), *name, rows),
        Expr::Postfix(operand, operator) => put_postfix(alloc, operand, *operator, rows),
        Expr::Prefix(operator, operand) => put_prefix(alloc, operand, *operator, rows),
        Expr::Chain(first, terms) => {
            put_expression(alloc, first, rows)?;
            let first = last(rows.as_slice());
            put_terms(alloc, terms.as_slice(), rows)?;
            put_two(alloc, "chain", first, last(rows.as_slice()), rows)
        }
        Expr::Conditional { condition, yes, no } => {
            put_expression(alloc, condition, rows)?;
            let condition = last(rows.as_slice());
            put_expression(alloc, yes, rows)?;
            let yes = last(rows.as_slice());
            put_expression(alloc, no, rows)?;
            let no = last(rows.as_slice());
            put_three(alloc, "conditional", condition, yes, no, rows)
        }
        Expr::Assignment {
            target,
            operator,
            value,
        } => {
            put_expression(alloc, target, rows)?;
            let target = last(rows.as_slice());
            put_expression(alloc, value, rows)?;
            put_assigned(alloc, target, *operator, rows)
        }
    }
}

/// Puts the rows of an expression in parentheses behind others.
#[cycle(expression)]
fn put_parenthesized<'a>(
    alloc: Global,
    inside: &Expr<'a>,
    rows: &mut Vec<Value>,
) -> Result<(), AllocError>
    ensures { OnOk result (made rows.new.items
        ≡ spec.with_expression (tree.parenthesized (view inside.now)) (made rows.old.items)) }
{
    put_expression(alloc, inside, rows)?;
    put_one(alloc, "parenthesized", last(rows.as_slice()), rows)
}

/// Puts the rows of an element of an array behind others.
#[cycle(expression)]
fn put_element<'a>(
    alloc: Global,
    index: &Expr<'a>,
    name: Token<'a>,
    bracket: Token<'a>,
    rows: &mut Vec<Value>,
) -> Result<(), AllocError>
    ensures { OnOk result (made rows.new.items ≡ spec.with_expression
        (tree.element name.entry bracket.entry (view index.now)) (made rows.old.items)) }
{
    put_expression(alloc, index, rows)?;
    let index = last(rows.as_slice());
    let name = Part::Word(name);
    put_three(alloc, "element", name, Part::Word(bracket), index, rows)
}

/// Puts the rows of a call with its arguments behind others.
#[cycle(expression)]
fn put_call<'a>(
    alloc: Global,
    arguments: &[Argument<'a>],
    name: Token<'a>,
    rows: &mut Vec<Value>,
) -> Result<(), AllocError>
    ensures { OnOk result (made rows.new.items ≡ spec.with_expression
        (tree.call name.entry (list_before arguments.now no_arguments)) (made rows.old.items)) }
{
    put_arguments(alloc, arguments, rows)?;
    let given = last(rows.as_slice());
    put_two(alloc, "call", Part::Word(name), given, rows)
}

/// Puts the rows of an operand with the `++` or `--` behind it behind others.
#[cycle(expression)]
fn put_postfix<'a>(
    alloc: Global,
    operand: &Expr<'a>,
    operator: Token<'a>,
    rows: &mut Vec<Value>,
) -> Result<(), AllocError>
    ensures { OnOk result (made rows.new.items ≡ spec.with_expression
        (tree.postfix (view operand.now) operator.entry) (made rows.old.items)) }
{
    put_expression(alloc, operand, rows)?;
    let operand = last(rows.as_slice());
    put_two(alloc, "postfix", operand, Part::Word(operator), rows)
}

/// Puts the rows of an operand with the operator in front of it behind others.
#[cycle(expression)]
fn put_prefix<'a>(
    alloc: Global,
    operand: &Expr<'a>,
    operator: Token<'a>,
    rows: &mut Vec<Value>,
) -> Result<(), AllocError>
    ensures { OnOk result (made rows.new.items ≡ spec.with_expression
        (tree.prefix operator.entry (view operand.now)) (made rows.old.items)) }
{
    put_expression(alloc, operand, rows)?;
    let operand = last(rows.as_slice());
    put_two(alloc, "prefix", Part::Word(operator), operand, rows)
}

/// Puts the row of an assignment, whose right side is the last row, behind others.
fn put_assigned<'a>(
    alloc: Global,
    target: Part<'a>,
    operator: Token<'a>,
    rows: &mut Vec<Value>,
) -> Result<(), AllocError>
    ensures { OnOk result (made rows.new.items ≡ with_row (codes "assignment")
        (target.entry ∷ Part.Word operator.entry ∷ spec_last (made rows.old.items) ∷ [])
        (made rows.old.items)) }
{
    let value = last(rows.as_slice());
    put_three(
        alloc,
        "assignment",
        target,
        Part::Word(operator),
        value,
        rows,
    )
}

/// Puts the rows of operators with their operands behind others, the last one first.
#[cycle(expression)]
#[tactic(auto, using(crate::proofs::Lists::terms_none))]
fn put_terms<'a>(alloc: Global, terms: &[Term<'a>], rows: &mut Vec<Value>) -> Result<(), AllocError>
    ensures { OnOk result (made rows.new.items
        ≡ spec.with_terms (term_list (map pair_of terms.now))
        (with_row (codes "no_terms") [] (made rows.old.items))) }
{
    put_empty(alloc, "no_terms", rows)?;
    for number in (0..terms.len()).rev() {
        let others = last(rows.as_slice());
        put_expression(alloc, &terms[number].operand, rows)?;
        put_term(alloc, terms[number].operator, others, rows)?;
    }
    Ok(())
}

/// Puts the row of an operator, whose operand is the last row, in front of others.
fn put_term<'a>(
    alloc: Global,
    operator: Token<'a>,
    others: Part<'a>,
    rows: &mut Vec<Value>,
) -> Result<(), AllocError>
    ensures { OnOk result (made rows.new.items
        ≡ spec.term_row operator.entry others.entry (made rows.old.items)) }
{
    put_three(
        alloc,
        "term",
        Part::Word(operator),
        last(rows.as_slice()),
        others,
        rows,
    )
}

/// Puts the rows of the arguments of a call behind others, the last one first.
#[cycle(expression)]
#[tactic(auto, using(crate::proofs::Lists::arguments_none))]
fn put_arguments<'a>(
    alloc: Global,
    arguments: &[Argument<'a>],
    rows: &mut Vec<Value>,
) -> Result<(), AllocError>
    ensures { OnOk result (made rows.new.items
        ≡ spec.with_arguments (list_before arguments.now no_arguments)
        (with_row (codes "no_arguments") [] (made rows.old.items))) }
{
    put_empty(alloc, "no_arguments", rows)?;
    for number in (0..arguments.len()).rev() {
        put_argument(alloc, &arguments[number], rows)?;
    }
    Ok(())
}

/// Puts the rows of an argument in front of those that follow it.
#[cycle(expression)]
fn put_argument<'a>(
    alloc: Global,
    argument: &Argument<'a>,
    rows: &mut Vec<Value>,
) -> Result<(), AllocError>
    ensures { OnOk result (made rows.new.items
        ≡ spec.with_argument (argument_of argument.now) (made rows.old.items)) }
{
    let others = last(rows.as_slice());
    match argument {
        Argument::Value(value) => {
            put_expression(alloc, value, rows)?;
            put_two(alloc, "value", last(rows.as_slice()), others, rows)
        }
        Argument::Text(text) => put_two(alloc, "text", Part::Word(*text), others, rows),
    }
}

/// Puts the rows of an expression that may be missing behind others; how a row names it.
pub fn put_maybe<'a>(
    alloc: Global,
    expression: &Option<Box<Expr<'a>>>,
    rows: &mut Vec<Value>,
) -> Result<Part<'a>, AllocError>
    ensures { IfOk result (λ p. (p ≡ maybe_last (shown boxed expression.now) (made rows.new.items))
        × (made rows.new.items ≡ with_maybe spec.with_expression (shown boxed expression.now)
        (made rows.old.items))) }
{
    match expression {
        Some(there) => {
            put_expression(alloc, there, rows)?;
            Ok(last(rows.as_slice()))
        }
        None => Ok(Part::Missing),
    }
}
