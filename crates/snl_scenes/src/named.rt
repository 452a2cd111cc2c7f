//! The values of the variables that a condition names.

use crate::codes::{ExpressionNames, push_steps};
use crate::steps::Step;
use indexmap::IndexMap;
use snl_resolve::{Builtin, builtin_of};
use snl_syntax::{Argument, Expr, Term};
use snl_text::Token;
use std::alloc::{AllocError, Global};

/// The steps of the values that are told, by the offset of the name or of the `[` behind it.
pub(crate) type Values = IndexMap<usize, Vec<Step>>;

/// Adds the values that a subscript names, behind that of its element.
#[cycle(seen)]
fn push_element_value<'a>(
    alloc: Global,
    index: &Expr<'a>,
    expression: &Expr<'a>,
    bracket: &Token<'a>,
    names: ExpressionNames,
    values: &mut Values,
) -> Result<(), AllocError> {
    let mut steps = Vec::new(alloc);
    push_steps(expression, names, &mut steps)?;
    values.insert(bracket.pos.offset as usize, steps)?;
    push_values(alloc, index, names, values)
}

/// Adds the value of a name, where it means a variable with one element.
fn push_name_value(
    alloc: Global,
    name: Token,
    names: ExpressionNames,
    values: &mut Values,
) -> Result<(), AllocError> {
    match names.variable(name) {
        Some(variable) if variable.size == 1 => {
            let mut steps = Vec::new(alloc);
            steps.push(Step::Word(variable.place))?;
            values.insert(name.pos.offset as usize, steps)?;
            Ok(())
        }
        _ => Ok(()),
    }
}

/// Adds the values of operands.
#[cycle(seen)]
fn push_term_values<'a>(
    alloc: Global,
    terms: &[Term<'a>],
    names: ExpressionNames,
    values: &mut Values,
) -> Result<(), AllocError> {
    for term in terms {
        push_values(alloc, &term.operand, names, values)?;
    }
    Ok(())
}

/// Adds the values of arguments. What is asked of a channel or of an event flag has none.
#[cycle(seen)]
fn push_argument_values<'a>(
    alloc: Global,
    name: &Token<'a>,
    arguments: &[Argument<'a>],
    names: ExpressionNames,
    values: &mut Values,
) -> Result<(), AllocError> {
    if let Some(Builtin::Ask(_)) = builtin_of(name.text) {
        return Ok(());
    }
    for argument in arguments {
        if let Argument::Value(value) = argument {
            push_values(alloc, value, names, values)?;
        }
    }
    Ok(())
}

/// Adds the values of the variables that an expression names. The only error is that memory ends.
#[cycle(seen)]
fn push_values<'a>(
    alloc: Global,
    expression: &Expr<'a>,
    names: ExpressionNames,
    values: &mut Values,
) -> Result<(), AllocError> {
    match expression {
        Expr::Constant(_) => Ok(()),
        Expr::Parenthesized(inner) => push_values(alloc, inner, names, values),
        Expr::Named(name) => push_name_value(alloc, *name, names, values),
        Expr::Element { bracket, index, .. } => {
            push_element_value(alloc, index, expression, bracket, names, values)
        }
        Expr::Call(name, arguments) => {
            push_argument_values(alloc, name, arguments.as_slice(), names, values)
        }
        Expr::Postfix(target, _) => push_values(alloc, target, names, values),
        Expr::Prefix(_, operand) => push_values(alloc, operand, names, values),
        Expr::Chain(first, terms) => {
            push_values(alloc, first, names, values)?;
            push_term_values(alloc, terms.as_slice(), names, values)
        }
        Expr::Conditional { condition, yes, no } => {
            push_values(alloc, condition, names, values)?;
            push_values(alloc, yes, names, values)?;
            push_values(alloc, no, names, values)
        }
        Expr::Assignment { target, value, .. } => {
            push_values(alloc, target, names, values)?;
            push_values(alloc, value, names, values)
        }
    }
}

/// The values of the variables that an expression names. The only error is that memory ends.
pub(crate) fn values_of<'a>(
    alloc: Global,
    expression: &Expr<'a>,
    names: ExpressionNames,
) -> Result<Values, AllocError> {
    let mut values = IndexMap::new(alloc);
    push_values(alloc, expression, names, &mut values)?;
    Ok(values)
}
