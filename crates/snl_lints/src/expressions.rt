//! What expressions do, with variables and by constants.

ghost use Rattle.std.specs.Prelude.{◌≡◌, [], ◌∷◌, ◌++◌, map, OnOk};
ghost use Rattle.std.specs.List.{flat_map};
ghost use Rattle.snl_lints.specs.declared.touches.Role.{Role};
ghost use Rattle.snl_syntax.specs.view.Expressions.{view, boxed, pair_of, list_before};
ghost use Rattle.snl_syntax.specs.view.Lists.{term_list};
ghost use Rattle.snl_syntax.specs.view.Shown.{shown};
ghost use Rattle.snl_syntax.specs.Expressions.{no_arguments, call};
ghost use Rattle.snl_names.specs.UseTables.{declared_at};
ghost use Rattle.snl_lints.specs.Touches as spec;

use crate::constants::worth_of;
use crate::givens::{push_element, push_given, push_operator, push_prefix};
use crate::operators::faults_between;
use crate::touches::{Role, Touch, push_comma, push_faulting, push_name, role_in, role_under};
use snl_names::constants::joined;
use snl_names::{Constant, UseTable, builtin_of};
use snl_syntax::{Argument, Expr, Term};
use snl_text::Token;
use std::alloc::AllocError;

/// Adds what an expression does that stands for this. Fails only where memory ends.
#[cycle(expression)]
fn push_expression<'a>(
    expression: &Expr<'a>,
    role: Role,
    uses: &UseTable,
    found: &mut Vec<Touch<'a>>,
) -> Result<(), AllocError>
    ensures { OnOk result (found.new.items ≡ found.old.items
        ++ spec.in_expression (declared_at uses.now) role (view expression.now)) }
{
    match expression {
        Expr::Constant(_) => Ok(()),
        Expr::Named(name) => push_name(found, *name, role),
        Expr::Parenthesized(part) => push_expression(part, role.in_parentheses(), uses, found),
        Expr::Element { name, index, .. } => {
            push_element(index, *name, role, uses, found)?;
            push_expression(index, Role::Value, uses, found)
        }
        Expr::Call(name, arguments) => push_called(arguments.as_slice(), *name, uses, found),
        Expr::Postfix(target, _) => push_expression(target, Role::Target, uses, found),
        Expr::Prefix(operator, operand) => {
            push_prefix(operand, *operator, uses, found)?;
            push_expression(operand, role_under(operator.kind), uses, found)
        }
        Expr::Chain(first, terms) => {
            let first: &Expr<'a> = first;
            push_expression(first, Role::Value, uses, found)?;
            push_operands(terms.as_slice(), role, worth_of(first, uses), uses, found)
        }
        Expr::Conditional { condition, yes, no } => {
            push_expression(condition, Role::Value, uses, found)?;
            push_expression(yes, Role::Value, uses, found)?;
            push_expression(no, Role::Value, uses, found)
        }
        Expr::Assignment {
            target,
            operator,
            value,
        } => {
            push_given(target, operator.kind, value, uses, found)?;
            push_expression(target, Role::Target, uses, found)?;
            push_operator(value, *operator, role, uses, found)?;
            push_expression(value, Role::Value, uses, found)
        }
    }
}

/// Adds what the operands of a chain do but the first, which is worth this, and its comma where it is a condition.
#[cycle(expression)]
fn push_operands<'a>(
    terms: &[Term<'a>],
    role: Role,
    first: Constant,
    uses: &UseTable,
    found: &mut Vec<Touch<'a>>,
) -> Result<(), AllocError>
    ensures { OnOk result (found.new.items ≡ found.old.items
        ++ (spec.at_comma role (term_list (map pair_of terms.now))
        ++ spec.in_terms (declared_at uses.now) first (term_list (map pair_of terms.now)))) }
{
    push_comma(terms, role, found)?;
    push_terms(terms, first, uses, found)
}

/// Adds what the arguments of a call do.
#[cycle(expression)]
fn push_called<'a>(
    arguments: &[Argument<'a>],
    name: Token<'a>,
    uses: &UseTable,
    found: &mut Vec<Touch<'a>>,
) -> Result<(), AllocError>
    ensures { OnOk result (found.new.items ≡ found.old.items
        ++ spec.in_expression (declared_at uses.now) Role.Value
        (call name.entry (list_before arguments.now no_arguments))) }
{
    let role = role_in(builtin_of(name.text), arguments);
    push_arguments(arguments, role, uses, found)
}

/// Adds what the operands of a chain do but the first, which is worth this.
#[cycle(expression)]
fn push_terms<'a>(
    terms: &[Term<'a>],
    first: Constant,
    uses: &UseTable,
    found: &mut Vec<Touch<'a>>,
) -> Result<(), AllocError>
    ensures { OnOk result (found.new.items ≡ found.old.items
        ++ spec.in_terms (declared_at uses.now) first (term_list (map pair_of terms.now))) }
{
    let mut left = first;
    for term in terms {
        let operator = term.operator;
        let operand: &Expr<'a> = &term.operand;
        let right = worth_of(operand, uses);
        push_faulting(found, operator, faults_between(operator.kind, left, right))?;
        push_expression(operand, Role::Value, uses, found)?;
        left = joined(operator.kind, left, right);
    }
    Ok(())
}

/// Adds what arguments do.
#[cycle(expression)]
fn push_arguments<'a>(
    arguments: &[Argument<'a>],
    role: Role,
    uses: &UseTable,
    found: &mut Vec<Touch<'a>>,
) -> Result<(), AllocError>
    ensures { OnOk result (found.new.items ≡ found.old.items
        ++ spec.in_arguments (declared_at uses.now) role (list_before arguments.now no_arguments)) }
{
    for argument in arguments {
        push_argument(argument, role, uses, found)?;
    }
    Ok(())
}

/// Adds what an argument does; a string does nothing.
#[cycle(expression)]
fn push_argument<'a>(
    argument: &Argument<'a>,
    role: Role,
    uses: &UseTable,
    found: &mut Vec<Touch<'a>>,
) -> Result<(), AllocError>
    ensures { OnOk result (found.new.items ≡ found.old.items
        ++ spec.in_arguments (declared_at uses.now) role
        (list_before (argument.now ∷ []) no_arguments)) }
{
    match argument {
        Argument::Value(value) => push_expression(value, role, uses, found),
        Argument::Text(_) => Ok(()),
    }
}

/// Adds what an expression does that gives a value. Fails only where memory ends.
pub fn push_value<'a>(
    value: &Expr<'a>,
    uses: &UseTable,
    found: &mut Vec<Touch<'a>>,
) -> Result<(), AllocError>
    ensures { OnOk result (found.new.items ≡ found.old.items
        ++ spec.in_value (declared_at uses.now) (view value.now)) }
{
    push_expression(value, Role::Value, uses, found)
}

/// The same of one that decides. Fails only where memory ends.
pub fn push_condition<'a>(
    condition: &Expr<'a>,
    uses: &UseTable,
    found: &mut Vec<Touch<'a>>,
) -> Result<(), AllocError>
    ensures { OnOk result (found.new.items ≡ found.old.items
        ++ spec.in_condition (declared_at uses.now) (view condition.now)) }
{
    push_expression(condition, Role::Condition, uses, found)
}

/// The same where it may be missing. Fails only where memory ends.
pub fn push_maybe_condition<'a>(
    condition: &Option<Box<Expr<'a>>>,
    uses: &UseTable,
    found: &mut Vec<Touch<'a>>,
) -> Result<(), AllocError>
    ensures { OnOk result (found.new.items ≡ found.old.items
        ++ spec.if_there (spec.in_condition (declared_at uses.now)) (shown boxed condition.now)) }
{
    match condition {
        Some(condition) => push_condition(condition, uses, found),
        None => Ok(()),
    }
}

/// Adds what an expression does that gives a value, where it may be missing. Fails only where memory ends.
pub fn push_if_there<'a>(
    value: &Option<Box<Expr<'a>>>,
    uses: &UseTable,
    found: &mut Vec<Touch<'a>>,
) -> Result<(), AllocError>
    ensures { OnOk result (found.new.items ≡ found.old.items
        ++ spec.if_there (spec.in_value (declared_at uses.now)) (shown boxed value.now)) }
{
    match value {
        Some(value) => push_value(value, uses, found),
        None => Ok(()),
    }
}

/// The same of several. Fails only where memory ends.
pub fn push_values<'a>(
    values: &[Box<Expr<'a>>],
    uses: &UseTable,
    found: &mut Vec<Touch<'a>>,
) -> Result<(), AllocError>
    ensures { OnOk result (found.new.items ≡ found.old.items
        ++ flat_map (spec.in_value (declared_at uses.now)) (map boxed values.now)) }
{
    for value in values {
        push_value(value, uses, found)?;
    }
    Ok(())
}
