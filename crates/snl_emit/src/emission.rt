//! The code of an expression. It is made from its end: what runs last is put first, so the length
//! of what a jump passes is known when the jump is made.

ghost use Rattle.std.specs.Prelude.{◌≡◌, ◌≤◌, ◌∷◌, ◌++◌, ◌+◌, drop, length, map, reverse, OnOk};
ghost use Rattle.snl_syntax.specs.view.Lists.{term_list};
ghost use Rattle.snl_syntax.specs.view.Expressions.{view, pair_of};
ghost use Rattle.snl_emit.specs.Emission as form;
ghost use Rattle.snl_emit.specs.ExpressionCode as spec;
ghost use Rattle.snl_meaning.specs.Known.{here_of};
ghost use Rattle.snl_meaning.specs.Names.{sense_of};
ghost use Rattle.snl_emit.specs.Targets.{place_code};
ghost use Rattle.snl_meaning.specs.declared.instrs.Instr.TheVariants as instr;

use crate::calls::emit_call;
use crate::constants::constant_of;
use crate::parts::{put_checked, put_old, put_read, read_name};
use crate::rows::put;
use crate::targets::{adjusted, put_stored};
use crate::worth::{constant_number, front_of, worth_of};
use snl_meaning::{Instr, Joint, Known, Unary, compound_of, joint_of, sense_in, sign_of};
use snl_syntax::{Expr, Term};
use snl_text::{Kind, Token};
use std::alloc::AllocError;

/// Puts the code of an expression before the code that was made; it pushes the value. The only error
/// is that memory ends.
#[cycle(emission)]
pub fn emit_expression<'a>(
    expression: &Expr<'a>,
    known: &Known<'_, 'a>,
    code: &mut Vec<Instr>,
) -> Result<(), AllocError>
    ensures { OnOk result (reverse code.new.items
        ≡ spec.expression_code (here_of known.now) (view expression.now)
        ++ reverse code.old.items) }
{
    match expression {
        Expr::Constant(token) => put(code, Instr::Push(constant_of(*token))),
        Expr::Parenthesized(inner) => emit_expression(inner, known, code),
        Expr::Named(name) => put(code, read_name(sense_in(name, known))),
        Expr::Element {
            name,
            bracket,
            index,
        } => emit_element(index, known, *name, bracket.pos.line as usize, code),
        Expr::Call(name, arguments) => emit_call(arguments.as_slice(), known, *name, code),
        Expr::Postfix(target, operator) => emit_sign(target, known, *operator, true, code),
        Expr::Prefix(operator, operand) => match constant_number(expression, known.sites) {
            Some(number) => put(code, Instr::Push(number)),
            None => emit_sign(operand, known, *operator, false, code),
        },
        Expr::Chain(first, terms) => {
            let front = front_of(terms.as_slice(), known, worth_of(first, known.sites));
            emit_terms(terms.as_slice(), front.terms, known, code)?;
            emit_front(first, front.number, known, code)
        }
        Expr::Conditional { condition, yes, no } => {
            if let Some(number) = constant_number(expression, known.sites) {
                return put(code, Instr::Push(number));
            }
            emit_failed(no, known, code)?;
            emit_held(yes, known, code)?;
            emit_expression(condition, known, code)
        }
        Expr::Assignment {
            target,
            operator,
            value,
        } => {
            let joined = compound_of(operator.kind);
            put_stored(target, known, joined, operator.pos.line as usize, code)?;
            emit_expression(value, known, code)?;
            emit_place(target, known, joined, code)
        }
    }
}

/// The read of an element of this variable, behind its subscript.
#[cycle(emission)]
fn emit_element<'a>(
    index: &Expr<'a>,
    known: &Known<'_, 'a>,
    name: Token<'a>,
    line: usize,
    code: &mut Vec<Instr>,
) -> Result<(), AllocError>
    ensures { OnOk result (reverse code.new.items
        ≡ spec.expression_code (here_of known.now) (view index.now)
        ++ (form.element_code (sense_of (here_of known.now) name.entry) line
        ++ reverse code.old.items)) }
{
    put_read(code, sense_in(&name, known), line)?;
    emit_expression(index, known, code)
}

/// What is taken where the condition holds: it stands behind a jump over itself and one instruction more.
#[cycle(emission)]
fn emit_held<'a>(
    held: &Expr<'a>,
    known: &Known<'_, 'a>,
    code: &mut Vec<Instr>,
) -> Result<(), AllocError>
    ensures { OnOk result (reverse code.new.items
        ≡ instr.JumpIfZero (length (spec.expression_code (here_of known.now) (view held.now)) + 1)
        ∷ (spec.expression_code (here_of known.now) (view held.now) ++ reverse code.old.items)) }
{
    let end = code.len();
    emit_expression(held, known, code)?;
    let passed = code.len() - end + 1;
    put(code, Instr::JumpIfZero(passed))
}

/// What is taken where it fails, behind a jump over itself.
#[cycle(emission)]
fn emit_failed<'a>(
    failed: &Expr<'a>,
    known: &Known<'_, 'a>,
    code: &mut Vec<Instr>,
) -> Result<(), AllocError>
    ensures { OnOk result (reverse code.new.items
        ≡ instr.Jump (length (spec.expression_code (here_of known.now) (view failed.now)))
        ∷ (spec.expression_code (here_of known.now) (view failed.now) ++ reverse code.old.items)) }
{
    let end = code.len();
    emit_expression(failed, known, code)?;
    let passed = code.len() - end;
    put(code, Instr::Jump(passed))
}

/// What stands left in a chain: the number of its front that is constant, if it has one, and else its first operand.
#[cycle(emission)]
fn emit_front<'a>(
    first: &Expr<'a>,
    number: Option<i64>,
    known: &Known<'_, 'a>,
    code: &mut Vec<Instr>,
) -> Result<(), AllocError>
    ensures { OnOk result (reverse code.new.items
        ≡ form.front_code number (spec.expression_code (here_of known.now) (view first.now))
        ++ reverse code.old.items) }
{
    match number {
        Some(number) => put(code, Instr::Push(number)),
        None => emit_expression(first, known, code),
    }
}

/// The operators of a chain from a number on, each with its operand.
#[cycle(emission)]
fn emit_terms<'a>(
    terms: &[Term<'a>],
    start: usize,
    known: &Known<'_, 'a>,
    code: &mut Vec<Instr>,
) -> Result<(), AllocError>
    requires { start ≤ length terms.now }
    ensures { OnOk result (reverse code.new.items
        ≡ spec.terms_code (here_of known.now) (term_list (map pair_of (drop start terms.now)))
        ++ reverse code.old.items) }
{
    for number in (start..terms.len()).rev() {
        emit_term(&terms[number], known, code)?;
    }
    Ok(())
}

/// An operator of a chain with its operand, after what stands left of it.
#[cycle(emission)]
fn emit_term<'a>(
    term: &Term<'a>,
    known: &Known<'_, 'a>,
    code: &mut Vec<Instr>,
) -> Result<(), AllocError>
    ensures { OnOk result (reverse code.new.items
        ≡ form.term_code (here_of known.now) (pair_of term.now) ++ reverse code.old.items) }
{
    match joint_of(term.operator.kind) {
        Joint::And => {
            put(code, Instr::Push(0))?;
            put(code, Instr::Jump(1))?;
            put(code, Instr::Settle)?;
            let end = code.len();
            emit_expression(&term.operand, known, code)?;
            let passed = code.len() - end + 2;
            put(code, Instr::JumpIfZero(passed))
        }
        Joint::Or => {
            put(code, Instr::Settle)?;
            let end = code.len();
            emit_expression(&term.operand, known, code)?;
            let passed = code.len() - end + 1;
            put(code, Instr::Jump(passed))?;
            put(code, Instr::Push(1))?;
            put(code, Instr::JumpIfZero(2))
        }
        Joint::Sequel => {
            emit_expression(&term.operand, known, code)?;
            put(code, Instr::Drop)
        }
        Joint::Operation(operator) => {
            let line = term.operator.pos.line as usize;
            emit_operation(&term.operand, known, operator, line, code)
        }
    }
}

/// A binary operator with its operand; a number stands in the instruction itself.
#[cycle(emission)]
fn emit_operation<'a>(
    operand: &Expr<'a>,
    known: &Known<'_, 'a>,
    operator: Kind,
    line: usize,
    code: &mut Vec<Instr>,
) -> Result<(), AllocError>
    ensures { OnOk result (reverse code.new.items
        ≡ form.operation_code (here_of known.now) operator line (view operand.now)
        ++ reverse code.old.items) }
{
    if let Some(number) = constant_number(operand, known.sites) {
        return put(
            code,
            Instr::ApplyNumber {
                operator,
                number,
                line,
            },
        );
    }
    put(code, Instr::Apply { operator, line })?;
    emit_expression(operand, known, code)
}

/// A sign before or after its operand.
#[cycle(emission)]
fn emit_sign<'a>(
    operand: &Expr<'a>,
    known: &Known<'_, 'a>,
    sign: Token<'a>,
    is_before: bool,
    code: &mut Vec<Instr>,
) -> Result<(), AllocError>
    ensures { OnOk result (reverse code.new.items
        ≡ form.sign_code (here_of known.now) sign.entry is_before (view operand.now)
        ++ reverse code.old.items) }
{
    let line = sign.pos.line as usize;
    match sign_of(sign.kind) {
        Unary::ByOne(operator) => {
            put(code, adjusted(operand, known, operator, line, is_before))?;
            emit_place(operand, known, None, code)
        }
        Unary::OfValue(operator) => {
            put(code, Instr::ApplyPrefix { operator, line })?;
            emit_expression(operand, known, code)
        }
    }
}

/// What is done at a target before the right side: its subscript, and the read of its old value
/// where an operator joins it with the right side. Fails only where memory ends.
#[cycle(emission)]
pub fn emit_place<'a>(
    target: &Expr<'a>,
    known: &Known<'_, 'a>,
    operator: Option<Kind>,
    code: &mut Vec<Instr>,
) -> Result<(), AllocError>
    ensures { OnOk result (reverse code.new.items
        ≡ place_code (here_of known.now) operator (view target.now) ++ reverse code.old.items) }
{
    match target {
        Expr::Parenthesized(inner) => emit_place(inner, known, operator, code),
        Expr::Named(name) => put_old(code, sense_in(name, known), operator),
        Expr::Element {
            name,
            bracket,
            index,
        } => {
            put_checked(
                code,
                sense_in(name, known),
                bracket.pos.line as usize,
                operator,
            )?;
            emit_expression(index, known, code)
        }
        _ => Ok(()),
    }
}
