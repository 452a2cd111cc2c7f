//! The instructions of single parts of an expression: names and subscripts.

ghost use Rattle.std.specs.Prelude.{◌≡◌, ◌++◌, reverse, OnOk};
ghost use Rattle.snl_syntax.specs.view.Expressions.{list_before};
ghost use Rattle.snl_syntax.specs.Expressions.{no_arguments};
ghost use Rattle.snl_emit.specs.Emission.{element_code};
ghost use Rattle.snl_emit.specs.ExpressionCode.{name_code, count_values};
ghost use Rattle.snl_emit.specs.Targets as spec;

use crate::rows::put;
use snl_meaning::{Instr, Sense};
use snl_syntax::Argument;
use snl_text::Kind;
use std::alloc::AllocError;

/// The instruction of a name that is read.
pub fn read_name(sense: Sense) -> Instr
    ensures { result ≡ name_code sense }
{
    match sense {
        Sense::Varies(variable) => Instr::Load(variable),
        Sense::Stands(number) => Instr::Push(number),
    }
}

/// The read of an element, after its subscript. Fails only where memory ends.
pub fn put_read(code: &mut Vec<Instr>, sense: Sense, line: usize) -> Result<(), AllocError>
    ensures { OnOk result (reverse code.new.items
        ≡ element_code sense line ++ reverse code.old.items) }
{
    match sense {
        Sense::Varies(variable) => {
            put(code, Instr::Get(variable))?;
            put(code, Instr::Check { variable, line })
        }
        Sense::Stands(_) => {
            put(code, Instr::Push(0))?;
            put(code, Instr::Drop)
        }
    }
}

/// The read of a variable's old value, if there is an operator to join it with. Fails only where memory ends.
pub fn put_old(
    code: &mut Vec<Instr>,
    sense: Sense,
    operator: Option<Kind>,
) -> Result<(), AllocError>
    ensures { OnOk result (reverse code.new.items
        ≡ spec.old_code sense operator ++ reverse code.old.items) }
{
    match (sense, operator) {
        (Sense::Varies(variable), Some(_)) => put(code, Instr::Load(variable)),
        _ => Ok(()),
    }
}

/// The check of a subscript, and the read of the element's old value. Fails only where memory ends.
pub fn put_checked(
    code: &mut Vec<Instr>,
    sense: Sense,
    line: usize,
    operator: Option<Kind>,
) -> Result<(), AllocError>
    ensures { OnOk result (reverse code.new.items
        ≡ spec.checked_code sense line operator ++ reverse code.old.items) }
{
    match sense {
        Sense::Varies(variable) => {
            if operator.is_some() {
                put(code, Instr::Peek(variable))?;
            }
            put(code, Instr::Check { variable, line })
        }
        Sense::Stands(_) => put(code, Instr::Drop),
    }
}

/// How many arguments are expressions.
pub fn count_values(arguments: &[Argument]) -> usize
    ensures { result ≡ count_values (list_before arguments.now no_arguments) }
{
    let mut count = 0;
    for argument in arguments {
        if let Argument::Value(_) = argument {
            count += 1;
        }
    }
    count
}
