//! The code of an expression for what it does, where its value is not used. To a variable a store takes its number away, and
//! `++` and `--` push nothing; the value of any other expression is dropped.

ghost use Rattle.std.specs.Prelude.{◌≡◌, ◌++◌, reverse, OnOk};
ghost use Rattle.snl_syntax.specs.view.Expressions.{view};
ghost use Rattle.snl_emit.specs.BlockCode as spec;
ghost use Rattle.snl_emit.specs.ExpressionCode.{expression_code, renewed_code};
ghost use Rattle.snl_meaning.specs.Known.{here_of};
ghost use Rattle.snl_meaning.specs.Value as meaning;

use crate::emission::emit_expression;
use crate::rows::put;
use snl_meaning::{Instr, Known, Sense, Unary, Variable, compound_of, sense_in, sign_of};
use snl_syntax::Expr;
use snl_text::{Kind, Token};
use std::alloc::AllocError;

/// The variable that an expression is, alone, with the line of its name.
fn named_variable<'a>(expression: &Expr<'a>, known: &Known<'_, 'a>) -> Option<(Variable, usize)>
    ensures { result ≡ spec.named_variable (here_of known.now) (view expression.now) }
{
    match expression {
        Expr::Parenthesized(inner) => named_variable(inner, known),
        Expr::Named(name) => match sense_in(name, known) {
            Sense::Varies(variable) => Some((variable, name.pos.line as usize)),
            Sense::Stands(_) => None,
        },
        _ => None,
    }
}

/// An expression whose value is dropped.
fn emit_dropped<'a>(
    expression: &Expr<'a>,
    known: &Known<'_, 'a>,
    code: &mut Vec<Instr>,
) -> Result<(), AllocError>
    ensures { OnOk result (reverse code.new.items
        ≡ spec.dropping_code (here_of known.now) (view expression.now)
        ++ reverse code.old.items) }
{
    put(code, Instr::Drop)?;
    emit_expression(expression, known, code)
}

/// What is stored in a variable: the right side of its assignment, which an operator may join with the old value.
fn emit_renewed<'a>(
    variable: Variable,
    operator: Option<Kind>,
    line: usize,
    value: &Expr<'a>,
    known: &Known<'_, 'a>,
    code: &mut Vec<Instr>,
) -> Result<(), AllocError>
    ensures { OnOk result (reverse code.new.items
        ≡ renewed_code operator line (expression_code (here_of known.now) (view value.now))
        variable ++ reverse code.old.items) }
{
    match operator {
        None => emit_expression(value, known, code),
        Some(operator) => {
            put(code, Instr::Apply { operator, line })?;
            emit_expression(value, known, code)?;
            put(code, Instr::Load(variable))
        }
    }
}

/// An assignment, which is given whole too.
fn emit_assigned<'a>(
    whole: &Expr<'a>,
    target: &Expr<'a>,
    operator: Token<'a>,
    value: &Expr<'a>,
    known: &Known<'_, 'a>,
    code: &mut Vec<Instr>,
) -> Result<(), AllocError>
    ensures { OnOk result (reverse code.new.items
        ≡ spec.assigned_code (spec.named_variable (here_of known.now) (view target.now))
        (meaning.compound_of operator.entry.kind) operator.entry.pos.line
        (expression_code (here_of known.now) (view value.now))
        (spec.dropping_code (here_of known.now) (view whole.now)) ++ reverse code.old.items) }
{
    match named_variable(target, known) {
        Some((variable, line)) => {
            let joined = compound_of(operator.kind);
            put(
                code,
                Instr::Assign {
                    variable,
                    element: 0,
                    line,
                },
            )?;
            emit_renewed(
                variable,
                joined,
                operator.pos.line as usize,
                value,
                known,
                code,
            )
        }
        None => emit_dropped(whole, known, code),
    }
}

/// A sign before or after its operand, both of which are given whole too.
fn emit_stepped<'a>(
    whole: &Expr<'a>,
    target: &Expr<'a>,
    sign: Token<'a>,
    known: &Known<'_, 'a>,
    code: &mut Vec<Instr>,
) -> Result<(), AllocError>
    ensures { OnOk result (reverse code.new.items
        ≡ spec.stepped_code (spec.named_variable (here_of known.now) (view target.now))
        (meaning.sign_of sign.entry.kind) sign.entry.pos.line
        (spec.dropping_code (here_of known.now) (view whole.now)) ++ reverse code.old.items) }
{
    let Some((variable, line)) = named_variable(target, known) else {
        return emit_dropped(whole, known, code);
    };
    match sign_of(sign.kind) {
        Unary::ByOne(operator) => {
            let operator_line = sign.pos.line as usize;
            put(
                code,
                Instr::Increment {
                    variable,
                    operator,
                    operator_line,
                    line,
                },
            )
        }
        Unary::OfValue(_) => emit_dropped(whole, known, code),
    }
}

/// Puts the code of an expression for what it does before the code that was made. The only error is that memory ends.
pub fn emit_effect<'a>(
    expression: &Expr<'a>,
    known: &Known<'_, 'a>,
    code: &mut Vec<Instr>,
) -> Result<(), AllocError>
    ensures { OnOk result (reverse code.new.items
        ≡ spec.effect_code (here_of known.now) (view expression.now)
        ++ reverse code.old.items) }
{
    match expression {
        Expr::Parenthesized(inner) => emit_effect(inner, known, code),
        Expr::Assignment {
            target,
            operator,
            value,
        } => emit_assigned(expression, target, *operator, value, known, code),
        Expr::Postfix(target, sign) => emit_stepped(expression, target, *sign, known, code),
        Expr::Prefix(sign, target) => emit_stepped(expression, target, *sign, known, code),
        _ => emit_dropped(expression, known, code),
    }
}
