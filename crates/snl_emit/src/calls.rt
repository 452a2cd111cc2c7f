//! The code of calls: what is computed of their arguments, and then the call.

ghost use Rattle.std.specs.Prelude.{◌≡◌, ◌++◌, reverse, OnOk};
ghost use Rattle.snl_syntax.specs.Expressions.{no_arguments};
ghost use Rattle.snl_syntax.specs.view.Expressions.{view, list_before};
ghost use Rattle.snl_emit.specs.Emission as form;
ghost use Rattle.snl_emit.specs.ExpressionCode as spec;
ghost use Rattle.snl_meaning.specs.Known.{here_of};

use crate::emission::{emit_expression, emit_place};
use crate::parts::count_values;
use crate::rows::put;
use crate::targets::{ask_instr, put_instr};
use snl_meaning::{Instr, Known, is_decimal};
use snl_names::{Builtin, Query, builtin_of, has_async};
use snl_syntax::{Argument, Expr};
use snl_text::Token;
use std::alloc::AllocError;

/// A call with its arguments. Fails only where memory ends.
#[cycle(emission)]
pub fn emit_call<'a>(
    arguments: &[Argument<'a>],
    known: &Known<'_, 'a>,
    name: Token<'a>,
    code: &mut Vec<Instr>,
) -> Result<(), AllocError>
    ensures { OnOk result (reverse code.new.items
        ≡ form.call_code (here_of known.now) name.entry (list_before arguments.now no_arguments)
        ++ reverse code.old.items) }
{
    match builtin_of(name.text) {
        Some(Builtin::Delay) => emit_wait(arguments, known, code),
        Some(Builtin::Printf) => emit_print(arguments, known, code),
        Some(Builtin::PvPut) => emit_put(arguments, known, code),
        Some(Builtin::Ask(query)) => emit_ask(arguments, known, query, code),
        None => emit_routine(arguments, known, name, code),
    }
}

/// A call of a function of the program: its values, and the call. Where there is no such function, no value is computed.
#[cycle(emission)]
fn emit_routine<'a>(
    arguments: &[Argument<'a>],
    known: &Known<'_, 'a>,
    name: Token<'a>,
    code: &mut Vec<Instr>,
) -> Result<(), AllocError>
    ensures { OnOk result (reverse code.new.items
        ≡ form.function_call (here_of known.now) name.entry
        (list_before arguments.now no_arguments) ++ reverse code.old.items) }
{
    match known.function(name) {
        Some(function) => {
            let count = count_values(arguments);
            let line = name.pos.line as usize;
            put(
                code,
                Instr::Call {
                    function,
                    count,
                    line,
                },
            )?;
            emit_values(arguments, known, code)
        }
        None => put(code, Instr::Push(0)),
    }
}

/// `printf`: the values after the format, and the line.
#[cycle(emission)]
fn emit_print<'a>(
    arguments: &[Argument<'a>],
    known: &Known<'_, 'a>,
    code: &mut Vec<Instr>,
) -> Result<(), AllocError>
    ensures { OnOk result (reverse code.new.items
        ≡ spec.print_code (here_of known.now) (list_before arguments.now no_arguments)
        ++ reverse code.old.items) }
{
    match arguments {
        [first, ..] => match first {
            Argument::Text(text) => {
                let format = known.format(*text);
                let count = count_values(arguments);
                put(code, Instr::Print { format, count })?;
                emit_values(arguments, known, code)
            }
            Argument::Value(_) => put(code, Instr::Push(0)),
        },
        [] => put(code, Instr::Push(0)),
    }
}

/// The values of the arguments. A string has none.
#[cycle(emission)]
fn emit_values<'a>(
    arguments: &[Argument<'a>],
    known: &Known<'_, 'a>,
    code: &mut Vec<Instr>,
) -> Result<(), AllocError>
    ensures { OnOk result (reverse code.new.items
        ≡ spec.values_code (here_of known.now) (list_before arguments.now no_arguments)
        ++ reverse code.old.items) }
{
    for number in (0..arguments.len()).rev() {
        emit_value(&arguments[number], known, code)?;
    }
    Ok(())
}

/// The value of an argument.
#[cycle(emission)]
fn emit_value<'a>(
    argument: &Argument<'a>,
    known: &Known<'_, 'a>,
    code: &mut Vec<Instr>,
) -> Result<(), AllocError>
    ensures { OnOk result (reverse code.new.items
        ≡ form.value_code (here_of known.now) argument.now ++ reverse code.old.items) }
{
    match argument {
        Argument::Value(value) => emit_expression(value, known, code),
        Argument::Text(_) => Ok(()),
    }
}

/// `delay`: the time, and whether it has passed.
#[cycle(emission)]
fn emit_wait<'a>(
    arguments: &[Argument<'a>],
    known: &Known<'_, 'a>,
    code: &mut Vec<Instr>,
) -> Result<(), AllocError>
    ensures { OnOk result (reverse code.new.items
        ≡ spec.wait_code (here_of known.now) (list_before arguments.now no_arguments)
        ++ reverse code.old.items) }
{
    match arguments {
        [first, ..] => match first {
            Argument::Value(time) => {
                let in_seconds = !is_decimal(time);
                put(code, Instr::Wait { in_seconds })?;
                emit_expression(time, known, code)
            }
            Argument::Text(_) => put(code, Instr::Push(0)),
        },
        [] => put(code, Instr::Push(0)),
    }
}

/// `pvPut` of its argument.
#[cycle(emission)]
fn emit_put<'a>(
    arguments: &[Argument<'a>],
    known: &Known<'_, 'a>,
    code: &mut Vec<Instr>,
) -> Result<(), AllocError>
    ensures { OnOk result (reverse code.new.items
        ≡ spec.put_call_code (here_of known.now) (list_before arguments.now no_arguments)
        ++ reverse code.old.items) }
{
    match arguments {
        [first, behind @ ..] => match first {
            Argument::Value(target) => emit_put_of(target, has_async(behind), known, code),
            Argument::Text(_) => put(code, Instr::Push(0)),
        },
        [] => put(code, Instr::Push(0)),
    }
}

/// `pvPut` of a target, with `ASYNC` or without: its subscript, if it has one, and the put.
#[cycle(emission)]
fn emit_put_of<'a>(
    target: &Expr<'a>,
    is_async: bool,
    known: &Known<'_, 'a>,
    code: &mut Vec<Instr>,
) -> Result<(), AllocError>
    ensures { OnOk result (reverse code.new.items
        ≡ form.put_target_code (here_of known.now) is_async (view target.now)
        ++ reverse code.old.items) }
{
    put(code, put_instr(target, is_async, known))?;
    emit_place(target, known, None, code)
}

/// A call that asks, by its argument; without one, of all links.
#[cycle(emission)]
fn emit_ask<'a>(
    arguments: &[Argument<'a>],
    known: &Known<'_, 'a>,
    query: Query,
    code: &mut Vec<Instr>,
) -> Result<(), AllocError>
    ensures { OnOk result (reverse code.new.items
        ≡ spec.ask_code (here_of known.now) (list_before arguments.now no_arguments) query
        ++ reverse code.old.items) }
{
    match arguments {
        [first, ..] => match first {
            Argument::Value(target) => emit_ask_of(target, known, query, code),
            Argument::Text(_) => put(code, Instr::Push(0)),
        },
        [] => put(code, Instr::Ask { query, number: 0 }),
    }
}

/// A call that asks by a target: its subscript, if it has one, and the question.
#[cycle(emission)]
fn emit_ask_of<'a>(
    target: &Expr<'a>,
    known: &Known<'_, 'a>,
    query: Query,
    code: &mut Vec<Instr>,
) -> Result<(), AllocError>
    ensures { OnOk result (reverse code.new.items
        ≡ form.ask_target_code (here_of known.now) query (view target.now)
        ++ reverse code.old.items) }
{
    put(code, ask_instr(target, known, query))?;
    emit_place(target, known, None, code)
}
