//! The code of what is done at a target, after its subscript and the right side.

ghost use Rattle.std.specs.Prelude.{◌≡◌, ◌∷◌, ◌++◌, reverse, OnOk};
ghost use Rattle.snl_syntax.specs.view.Expressions.{view};
ghost use Rattle.snl_meaning.specs.Known.{here_of};
ghost use Rattle.snl_emit.specs.Targets as spec;

use crate::rows::put;
use snl_meaning::{Instr, Known, Sense, sense_in};
use snl_names::Query;
use snl_syntax::Expr;
use snl_text::Kind;
use std::alloc::AllocError;

/// A store, and before it the operator of a compound assignment.
fn put_joined(
    code: &mut Vec<Instr>,
    operator: Option<Kind>,
    operator_line: usize,
    store: Instr,
) -> Result<(), AllocError>
    ensures { OnOk result (reverse code.new.items
        ≡ spec.joined_code operator operator_line store ++ reverse code.old.items) }
{
    put(code, store)?;
    match operator {
        None => Ok(()),
        Some(operator) => put(
            code,
            Instr::Apply {
                operator,
                line: operator_line,
            },
        ),
    }
}

/// The store to a name.
fn put_stored_alone(
    code: &mut Vec<Instr>,
    sense: Sense,
    operator: Option<Kind>,
    operator_line: usize,
    line: usize,
) -> Result<(), AllocError>
    ensures { OnOk result (reverse code.new.items
        ≡ spec.stored_alone sense operator operator_line line ++ reverse code.old.items) }
{
    match sense {
        Sense::Varies(variable) => {
            put_joined(
                code,
                operator,
                operator_line,
                Instr::Store { variable, line },
            )
        }
        Sense::Stands(_) => Ok(()),
    }
}

/// The store to an element.
fn put_stored_at(
    code: &mut Vec<Instr>,
    sense: Sense,
    operator: Option<Kind>,
    operator_line: usize,
    line: usize,
) -> Result<(), AllocError>
    ensures { OnOk result (reverse code.new.items
        ≡ spec.stored_at sense operator operator_line line ++ reverse code.old.items) }
{
    match sense {
        Sense::Varies(variable) => put_joined(
            code,
            operator,
            operator_line,
            Instr::StoreAt { variable, line },
        ),
        Sense::Stands(_) => Ok(()),
    }
}

/// What an assignment does at its target after its right side. The only error is that memory ends.
pub fn put_stored<'a>(
    target: &Expr<'a>,
    known: &Known<'_, 'a>,
    operator: Option<Kind>,
    operator_line: usize,
    code: &mut Vec<Instr>,
) -> Result<(), AllocError>
    ensures { OnOk result (reverse code.new.items
        ≡ spec.stored_code (here_of known.now) operator operator_line (view target.now)
        ++ reverse code.old.items) }
{
    match target {
        Expr::Parenthesized(inner) => put_stored(inner, known, operator, operator_line, code),
        Expr::Named(name) => {
            let sense = sense_in(name, known);
            put_stored_alone(code, sense, operator, operator_line, name.pos.line as usize)
        }
        Expr::Element { name, .. } => {
            let sense = sense_in(name, known);
            put_stored_at(code, sense, operator, operator_line, name.pos.line as usize)
        }
        _ => Ok(()),
    }
}

/// `++` or `--` of a name.
fn adjusted_alone(
    sense: Sense,
    operator: Kind,
    operator_line: usize,
    line: usize,
    is_before: bool,
) -> Instr
    ensures { result ≡ spec.adjust_alone sense operator operator_line line is_before }
{
    match sense {
        Sense::Varies(variable) => Instr::Adjust {
            variable,
            operator,
            operator_line,
            line,
            is_before,
        },
        Sense::Stands(_) => Instr::Push(0),
    }
}

/// The same of an element.
fn adjusted_at(
    sense: Sense,
    operator: Kind,
    operator_line: usize,
    line: usize,
    is_before: bool,
) -> Instr
    ensures { result ≡ spec.adjust_at sense operator operator_line line is_before }
{
    match sense {
        Sense::Varies(variable) => Instr::AdjustAt {
            variable,
            operator,
            operator_line,
            line,
            is_before,
        },
        Sense::Stands(_) => Instr::Push(0),
    }
}

/// The instruction of `++` or `--` at a target, after its subscript.
pub fn adjusted<'a>(
    target: &Expr<'a>,
    known: &Known<'_, 'a>,
    operator: Kind,
    operator_line: usize,
    is_before: bool,
) -> Instr
    ensures { result ≡ spec.adjust_code (here_of known.now) operator operator_line is_before
        (view target.now) }
{
    match target {
        Expr::Parenthesized(inner) => adjusted(inner, known, operator, operator_line, is_before),
        Expr::Named(name) => {
            let sense = sense_in(name, known);
            adjusted_alone(
                sense,
                operator,
                operator_line,
                name.pos.line as usize,
                is_before,
            )
        }
        Expr::Element { name, .. } => {
            let sense = sense_in(name, known);
            adjusted_at(
                sense,
                operator,
                operator_line,
                name.pos.line as usize,
                is_before,
            )
        }
        _ => Instr::Push(0),
    }
}

/// `pvPut` of a name, with `ASYNC` or without.
fn put_alone(sense: Sense, is_async: bool) -> Instr
    ensures { result ≡ spec.put_alone is_async sense }
{
    match sense {
        Sense::Varies(variable) => Instr::Put { variable, is_async },
        Sense::Stands(_) => Instr::Push(0),
    }
}

/// The same of an element.
fn put_element(sense: Sense, is_async: bool) -> Instr
    ensures { result ≡ spec.put_element is_async sense }
{
    match sense {
        Sense::Varies(variable) => Instr::PutAt { variable, is_async },
        Sense::Stands(_) => Instr::Push(0),
    }
}

/// The instruction of `pvPut` at a target, after its subscript, with `ASYNC` or without.
pub fn put_instr<'a>(target: &Expr<'a>, is_async: bool, known: &Known<'_, 'a>) -> Instr
    ensures { result ≡ spec.put_instr (here_of known.now) is_async (view target.now) }
{
    match target {
        Expr::Parenthesized(inner) => put_instr(inner, is_async, known),
        Expr::Named(name) => put_alone(sense_in(name, known), is_async),
        Expr::Element { name, .. } => put_element(sense_in(name, known), is_async),
        _ => Instr::Push(0),
    }
}

/// What a call asks by a name: of the link of a variable, or of an event flag.
fn ask_alone(sense: Sense, query: Query, flag: usize) -> Instr
    ensures { result ≡ spec.ask_alone sense query flag }
{
    match sense {
        Sense::Varies(variable) => Instr::AskLink { query, variable },
        Sense::Stands(_) => Instr::Ask {
            query,
            number: flag,
        },
    }
}

/// The same by an element.
fn ask_element(sense: Sense, query: Query) -> Instr
    ensures { result ≡ spec.ask_element sense query }
{
    match sense {
        Sense::Varies(variable) => Instr::AskElement { query, variable },
        Sense::Stands(_) => Instr::Push(0),
    }
}

/// The instruction of a call that asks by a target, after its subscript.
pub fn ask_instr<'a>(target: &Expr<'a>, known: &Known<'_, 'a>, query: Query) -> Instr
    ensures { result ≡ spec.ask_instr (here_of known.now) query (view target.now) }
{
    match target {
        Expr::Parenthesized(inner) => ask_instr(inner, known, query),
        Expr::Named(name) => ask_alone(sense_in(name, known), query, known.flag(*name)),
        Expr::Element { name, .. } => ask_element(sense_in(name, known), query),
        _ => Instr::Push(0),
    }
}
