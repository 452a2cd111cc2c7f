//! The code of the entry of a block: its variables are 0, and then each gets what it begins with.

ghost use Rattle.std.specs.Prelude.{◌≡◌, ◌++◌, ◌∷◌, map, reverse, OnOk};
ghost use Rattle.snl_syntax.specs.view.Expressions.{boxed};
ghost use Rattle.snl_syntax.specs.view.Declarations.{declarator_view, declaration_view, initialiser_view};
ghost use Rattle.snl_syntax.specs.view.Shown.{shown};
ghost use Rattle.snl_emit.specs.BlockCode as spec;
ghost use Rattle.snl_meaning.specs.Effect.{names_of, variable_for, values_of};
ghost use Rattle.snl_meaning.specs.Known.{here_of};

use crate::emission::emit_expression;
use crate::rows::put;
use snl_meaning::{Instr, Known, Variable};
use snl_syntax::{Declaration, Declarator, Expr, Initialiser};
use std::alloc::AllocError;

/// The instruction that stores what an element begins with; where there is no such element, the number is dropped.
fn begin(variable: Option<Variable>, line: usize, element: usize) -> Instr
    ensures { result ≡ spec.begun_code variable line element }
{
    match variable {
        Some(variable) if element < variable.size => Instr::Assign {
            variable,
            element,
            line,
        },
        _ => Instr::Drop,
    }
}

/// What the elements of a variable begin with, in their order.
fn emit_values<'a>(
    values: &[Box<Expr<'a>>],
    known: &Known<'_, 'a>,
    variable: Option<Variable>,
    line: usize,
    code: &mut Vec<Instr>,
) -> Result<(), AllocError>
    ensures { OnOk result (reverse code.new.items
        ≡ spec.begun_with_code (here_of known.now) variable line 0 (map boxed values.now)
        ++ reverse code.old.items) }
{
    for element in (0..values.len()).rev() {
        put(code, begin(variable, line, element))?;
        emit_expression(&values[element], known, code)?;
    }
    Ok(())
}

/// What a variable begins with, where that is said.
#[tactic(auto, using(crate::proofs::EntryCode::values_listed))]
fn emit_initial<'a>(
    initial: &Option<Initialiser<'a>>,
    known: &Known<'_, 'a>,
    variable: Option<Variable>,
    line: usize,
    code: &mut Vec<Instr>,
) -> Result<(), AllocError>
    ensures { OnOk result (reverse code.new.items
        ≡ spec.begun_with_code (here_of known.now) variable line 0
        (values_of (shown initialiser_view initial.now)) ++ reverse code.old.items) }
{
    match initial {
        None => Ok(()),
        Some(Initialiser::Single(value)) => {
            put(code, begin(variable, line, 0))?;
            emit_expression(value, known, code)
        }
        Some(Initialiser::List(values)) => {
            emit_values(values.each.as_slice(), known, variable, line, code)
        }
    }
}

/// What a declared variable begins with.
fn emit_begun<'a>(
    declarator: &Declarator<'a>,
    known: &Known<'_, 'a>,
    code: &mut Vec<Instr>,
) -> Result<(), AllocError>
    ensures { OnOk result (reverse code.new.items
        ≡ spec.begun_with_code (here_of known.now)
        (variable_for (here_of known.now) (declarator_view declarator.now))
        declarator.now.name.pos.line 0 (values_of (declarator_view declarator.now).initial)
        ++ reverse code.old.items) }
{
    let variable = known.variable(declarator.name.pos.offset as usize);
    let line = declarator.name.pos.line as usize;
    emit_initial(&declarator.initial, known, variable, line, code)
}

/// What the names of a declaration begin with.
fn emit_names_begun<'a>(
    names: &[Declarator<'a>],
    known: &Known<'_, 'a>,
    code: &mut Vec<Instr>,
) -> Result<(), AllocError>
    ensures { OnOk result (reverse code.new.items
        ≡ spec.all_begun_code (here_of known.now) (map declarator_view names.now)
        ++ reverse code.old.items) }
{
    for number in (0..names.len()).rev() {
        emit_begun(&names[number], known, code)?;
    }
    Ok(())
}

/// What all variables of a block begin with.
fn emit_all_begun<'a>(
    declarations: &[Declaration<'a>],
    known: &Known<'_, 'a>,
    code: &mut Vec<Instr>,
) -> Result<(), AllocError>
    ensures { OnOk result (reverse code.new.items
        ≡ spec.all_begun_code (here_of known.now)
        (names_of (map declaration_view declarations.now)) ++ reverse code.old.items) }
{
    for number in (0..declarations.len()).rev() {
        emit_names_begun(declarations[number].names.as_slice(), known, code)?;
    }
    Ok(())
}

/// A declared variable is 0.
fn emit_cleared<'a>(
    declarator: &Declarator<'a>,
    known: &Known<'_, 'a>,
    code: &mut Vec<Instr>,
) -> Result<(), AllocError>
    ensures { OnOk result (reverse code.new.items
        ≡ spec.cleared_code (variable_for (here_of known.now) (declarator_view declarator.now))
        ++ reverse code.old.items) }
{
    match known.variable(declarator.name.pos.offset as usize) {
        Some(variable) => put(code, Instr::Clear(variable)),
        None => Ok(()),
    }
}

/// The names of a declaration are 0.
fn emit_names_cleared<'a>(
    names: &[Declarator<'a>],
    known: &Known<'_, 'a>,
    code: &mut Vec<Instr>,
) -> Result<(), AllocError>
    ensures { OnOk result (reverse code.new.items
        ≡ spec.all_cleared_code (here_of known.now) (map declarator_view names.now)
        ++ reverse code.old.items) }
{
    for number in (0..names.len()).rev() {
        emit_cleared(&names[number], known, code)?;
    }
    Ok(())
}

/// All variables of a block are 0.
fn emit_all_cleared<'a>(
    declarations: &[Declaration<'a>],
    known: &Known<'_, 'a>,
    code: &mut Vec<Instr>,
) -> Result<(), AllocError>
    ensures { OnOk result (reverse code.new.items
        ≡ spec.all_cleared_code (here_of known.now)
        (names_of (map declaration_view declarations.now)) ++ reverse code.old.items) }
{
    for number in (0..declarations.len()).rev() {
        emit_names_cleared(declarations[number].names.as_slice(), known, code)?;
    }
    Ok(())
}

/// Puts the code of the entry of a block before the code that was made: all of its variables are 0
/// before the first begins with a value. The only error is that memory ends.
pub fn emit_entry<'a>(
    declarations: &[Declaration<'a>],
    known: &Known<'_, 'a>,
    code: &mut Vec<Instr>,
) -> Result<(), AllocError>
    ensures { OnOk result (reverse code.new.items
        ≡ spec.entered_code (here_of known.now) (names_of (map declaration_view declarations.now))
        ++ reverse code.old.items) }
{
    emit_all_begun(declarations, known, code)?;
    emit_all_cleared(declarations, known, code)
}
