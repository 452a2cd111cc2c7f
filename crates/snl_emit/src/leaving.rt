//! The code of `return` and `state`.

ghost use Rattle.std.specs.Prelude.{◌≡◌, ◌++◌, reverse, OnOk};
ghost use Rattle.snl_syntax.specs.view.Expressions.{boxed};
ghost use Rattle.snl_syntax.specs.view.Shown.{shown};
ghost use Rattle.snl_emit.specs.BlockCode as spec;
ghost use Rattle.snl_meaning.specs.Known.{here_of, within_view};

use crate::emission::emit_expression;
use crate::rows::put;
use snl_meaning::{Instr, Known, Within};
use snl_syntax::Expr;
use std::alloc::AllocError;

/// Puts the jump of a `state` before the code that was made; in a function it has no code. The only error is that memory ends.
pub fn put_leave(within: Within, state: usize, code: &mut Vec<Instr>) -> Result<(), AllocError>
    ensures { OnOk result (reverse code.new.items
        ≡ spec.left_code (within_view within) state ++ reverse code.old.items) }
{
    match within {
        Within::Piece => put(code, Instr::Leave(state)),
        Within::Body { .. } => Ok(()),
    }
}

/// Puts the code of a `return` in this line before the code that was made; outside of functions it has no code. The only error is that
/// memory ends.
pub fn emit_return<'a>(
    value: &Option<Box<Expr<'a>>>,
    known: &Known<'_, 'a>,
    line: usize,
    code: &mut Vec<Instr>,
) -> Result<(), AllocError>
    ensures { OnOk result (reverse code.new.items
        ≡ spec.returned_code (here_of known.now) line (shown boxed value.now)
        ++ reverse code.old.items) }
{
    let Within::Body { least, greatest } = known.within else {
        return Ok(());
    };
    put(code, Instr::Return)?;
    match value {
        Some(value) => {
            put(
                code,
                Instr::Fit {
                    least,
                    greatest,
                    line,
                },
            )?;
            emit_expression(value, known, code)
        }
        None => put(code, Instr::Push(0)),
    }
}
