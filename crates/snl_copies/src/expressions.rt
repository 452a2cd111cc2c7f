//! What expressions do by the names in them.

ghost use Rattle.std.specs.Prelude.{◌≡◌, [], ◌∷◌, ◌++◌, map, OnOk};
ghost use Rattle.std.specs.List.{flat_map};
ghost use Rattle.snl_copies.specs.declared.touches.Role.{Role};
ghost use Rattle.snl_syntax.specs.view.Expressions.{view, boxed, pair_of, list_before};
ghost use Rattle.snl_syntax.specs.view.Lists.{term_list};
ghost use Rattle.snl_syntax.specs.view.Shown.{shown};
ghost use Rattle.snl_syntax.specs.Expressions.{no_arguments, call};
ghost use Rattle.snl_copies.specs.Code as spec;

use crate::touches::{Role, Touch, push_call, push_name, role_in, role_under};
use snl_names::builtin_of;
use snl_syntax::{Argument, Expr, Term};
use snl_text::Token;
use std::alloc::AllocError;

/// Adds what an expression does that stands for this. Fails only where memory ends.
#[cycle(expression)]
fn push_expression<'a>(
    expression: &Expr<'a>,
    role: Role,
    code: &mut Vec<Touch<'a>>,
) -> Result<(), AllocError>
    ensures { OnOk result (code.new.items ≡ code.old.items
        ++ spec.in_expression role (view expression.now)) }
{
    match expression {
        Expr::Constant(_) => Ok(()),
        Expr::Named(name) => push_name(code, *name, role),
        Expr::Parenthesized(part) => push_expression(part, role, code),
        Expr::Element { name, index, .. } => {
            push_name(code, *name, role)?;
            push_expression(index, Role::Value, code)
        }
        Expr::Call(name, arguments) => push_called(arguments.as_slice(), *name, code),
        Expr::Postfix(target, _) => push_expression(target, Role::Target, code),
        Expr::Prefix(operator, operand) => {
            push_expression(operand, role_under(operator.kind), code)
        }
        Expr::Chain(first, terms) => {
            push_expression(first, Role::Value, code)?;
            push_terms(terms.as_slice(), code)
        }
        Expr::Conditional { condition, yes, no } => {
            push_expression(condition, Role::Value, code)?;
            push_expression(yes, Role::Value, code)?;
            push_expression(no, Role::Value, code)
        }
        Expr::Assignment { target, value, .. } => {
            push_expression(target, Role::Target, code)?;
            push_expression(value, Role::Value, code)
        }
    }
}

/// Adds what a call does, with its arguments.
#[cycle(expression)]
fn push_called<'a>(
    arguments: &[Argument<'a>],
    name: Token<'a>,
    code: &mut Vec<Touch<'a>>,
) -> Result<(), AllocError>
    ensures { OnOk result (code.new.items ≡ code.old.items
        ++ spec.in_expression Role.Value
        (call name.entry (list_before arguments.now no_arguments))) }
{
    let builtin = builtin_of(name.text);
    push_call(code, name, builtin)?;
    push_arguments(arguments, role_in(builtin), code)
}

/// Adds what the operands of a chain do but the first.
#[cycle(expression)]
fn push_terms<'a>(terms: &[Term<'a>], code: &mut Vec<Touch<'a>>) -> Result<(), AllocError>
    ensures { OnOk result (code.new.items ≡ code.old.items
        ++ spec.in_terms (term_list (map pair_of terms.now))) }
{
    for term in terms {
        push_expression(&term.operand, Role::Value, code)?;
    }
    Ok(())
}

/// Adds what arguments do.
#[cycle(expression)]
fn push_arguments<'a>(
    arguments: &[Argument<'a>],
    role: Role,
    code: &mut Vec<Touch<'a>>,
) -> Result<(), AllocError>
    ensures { OnOk result (code.new.items ≡ code.old.items
        ++ spec.in_arguments role (list_before arguments.now no_arguments)) }
{
    for argument in arguments {
        push_argument(argument, role, code)?;
    }
    Ok(())
}

/// Adds what an argument does; a string does nothing.
#[cycle(expression)]
fn push_argument<'a>(
    argument: &Argument<'a>,
    role: Role,
    code: &mut Vec<Touch<'a>>,
) -> Result<(), AllocError>
    ensures { OnOk result (code.new.items ≡ code.old.items
        ++ spec.in_arguments role (list_before (argument.now ∷ []) no_arguments)) }
{
    match argument {
        Argument::Value(value) => push_expression(value, role, code),
        Argument::Text(_) => Ok(()),
    }
}

/// Adds what an expression does that gives a value. Fails only where memory ends.
pub fn push_value<'a>(value: &Expr<'a>, code: &mut Vec<Touch<'a>>) -> Result<(), AllocError>
    ensures { OnOk result (code.new.items ≡ code.old.items ++ spec.in_value (view value.now)) }
{
    push_expression(value, Role::Value, code)
}

/// The same where it may be missing. Fails only where memory ends.
pub fn push_if_there<'a>(
    value: &Option<Box<Expr<'a>>>,
    code: &mut Vec<Touch<'a>>,
) -> Result<(), AllocError>
    ensures { OnOk result (code.new.items ≡ code.old.items
        ++ spec.if_there spec.in_value (shown boxed value.now)) }
{
    match value {
        Some(value) => push_value(value, code),
        None => Ok(()),
    }
}

/// The same of several. Fails only where memory ends.
pub fn push_values<'a>(
    values: &[Box<Expr<'a>>],
    code: &mut Vec<Touch<'a>>,
) -> Result<(), AllocError>
    ensures { OnOk result (code.new.items ≡ code.old.items
        ++ flat_map spec.in_value (map boxed values.now)) }
{
    for value in values {
        push_value(value, code)?;
    }
    Ok(())
}
