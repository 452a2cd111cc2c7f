//! The code of pieces, one after another, and where each begins.

ghost use Rattle.std.specs.Prelude.{◌≡◌, ◌++◌, length, map, reverse, OnOk, IfOk};
ghost use Rattle.snl_syntax.specs.view.Shown.{shown, held};
ghost use Rattle.snl_syntax.specs.view.Expressions.{view, boxed};
ghost use Rattle.snl_syntax.specs.view.Statements.{block_view};
ghost use Rattle.snl_syntax.specs.view.Programs.{clause_view, state_view};
ghost use Rattle.snl_emit.specs.BlockCode.{condition_piece, block_piece};
ghost use Rattle.snl_meaning.specs.Known.{here_of};
ghost use Rattle.snl_flat.specs.Layout as spec;
ghost use Rattle.snl_flat.specs.Reached.{is_marked};
ghost use Rattle.snl_flat.specs.Starts.{state_table};

use crate::starts::{ClauseStarts, StateStarts};
use snl_emit::{emit_block, emit_expression};
use snl_meaning::{Instr, Known};
use snl_syntax::{Block, Clause, Expr, State};
use std::alloc::{AllocError, Global};

/// For how many instructions a piece has room before it grows: most pieces have fewer.
const PIECE_ROOM: usize = 32;

/// Adds code that was made from its end. Fails only where memory ends.
pub fn add_reversed(code: &mut Vec<Instr>, made: &[Instr]) -> Result<(), AllocError>
    ensures { OnOk result (code.new.items ≡ code.old.items ++ reverse made.now) }
{
    for number in (0..made.len()).rev() {
        code.push(made[number])?;
    }
    Ok(())
}

/// Adds the code of a condition.
fn add_condition<'a>(
    alloc: Global,
    condition: &Expr<'a>,
    known: &Known<'_, 'a>,
    code: &mut Vec<Instr>,
) -> Result<(), AllocError>
    ensures { OnOk result (code.new.items
        ≡ code.old.items ++ condition_piece (here_of known.now) (view condition.now)) }
{
    let mut made = Vec::with_capacity(alloc, PIECE_ROOM)?;
    made.push(Instr::End)?;
    emit_expression(condition, known, &mut made)?;
    add_reversed(code, made.as_slice())
}

/// Adds the code of a block.
fn add_block<'a>(
    alloc: Global,
    block: &Block<'a>,
    known: &Known<'_, 'a>,
    code: &mut Vec<Instr>,
) -> Result<(), AllocError>
    ensures { OnOk result (code.new.items
        ≡ code.old.items ++ block_piece (here_of known.now) (block_view block.now)) }
{
    let mut made = Vec::with_capacity(alloc, PIECE_ROOM)?;
    made.push(Instr::End)?;
    emit_block(block, known, &mut made)?;
    add_reversed(code, made.as_slice())
}

/// Adds the code of a condition that may be missing; gives where it begins.
fn lay_condition<'a>(
    alloc: Global,
    condition: &Option<Box<Expr<'a>>>,
    known: &Known<'_, 'a>,
    code: &mut Vec<Instr>,
) -> Result<Option<usize>, AllocError>
    ensures start { IfOk result (λ start. start
        ≡ spec.start_after code.old.items (shown boxed condition.now)) }
    ensures code { OnOk result (code.new.items ≡ code.old.items
        ++ spec.maybe_code (condition_piece (here_of known.now)) (shown boxed condition.now)) }
{
    let Some(condition) = condition else {
        return Ok(None);
    };
    let start = code.len();
    add_condition(alloc, condition, known, code)?;
    Ok(Some(start))
}

/// Adds the code of a block that may be missing; gives where it begins. Fails only where memory ends.
pub fn lay_block<'a>(
    alloc: Global,
    block: &Option<Box<Block<'a>>>,
    known: &Known<'_, 'a>,
    code: &mut Vec<Instr>,
) -> Result<Option<usize>, AllocError>
    ensures start { IfOk result (λ start. start
        ≡ spec.start_after code.old.items (shown (held block_view) block.now)) }
    ensures code { OnOk result (code.new.items ≡ code.old.items
        ++ spec.maybe_code (block_piece (here_of known.now)) (shown (held block_view) block.now)) }
{
    let Some(block) = block else {
        return Ok(None);
    };
    let start = code.len();
    add_block(alloc, block, known, code)?;
    Ok(Some(start))
}

/// Adds the code of a clause; gives where its pieces begin.
fn lay_clause<'a>(
    alloc: Global,
    clause: &Clause<'a>,
    known: &Known<'_, 'a>,
    number: usize,
    code: &mut Vec<Instr>,
) -> Result<ClauseStarts, AllocError>
    ensures starts { IfOk result (λ starts. starts
        ≡ spec.clause_starts (here_of known.now) number code.old.items (clause_view clause.now)) }
    ensures code { OnOk result (code.new.items ≡ code.old.items
        ++ spec.clause_code (here_of known.now) number (clause_view clause.now)) }
{
    let condition = lay_condition(alloc, &clause.condition, known, code)?;
    let block = code.len();
    add_block(alloc, &clause.block, known, code)?;
    Ok(ClauseStarts { condition, block })
}

/// Adds the code of clauses; gives where their pieces begin.
fn lay_clauses<'a>(
    alloc: Global,
    clauses: &[Clause<'a>],
    known: &Known<'_, 'a>,
    code: &mut Vec<Instr>,
) -> Result<Vec<ClauseStarts>, AllocError>
    ensures starts { IfOk result (λ starts. starts.items
        ≡ spec.row_starts (spec.clause_code (here_of known.now))
        (spec.clause_starts (here_of known.now)) 0 code.old.items (map clause_view clauses.now)) }
    ensures code { OnOk result (code.new.items ≡ code.old.items
        ++ spec.row_code (spec.clause_code (here_of known.now)) 0 (map clause_view clauses.now)) }
{
    let mut starts = Vec::new(alloc);
    for (number, clause) in clauses.iter().enumerate() {
        let one = lay_clause(alloc, clause, known, number, code)?;
        starts.push(one)?;
    }
    Ok(starts)
}

/// Adds the code of a state; gives where its pieces begin.
fn lay_state<'a>(
    alloc: Global,
    state: &State<'a>,
    known: &Known<'_, 'a>,
    number: usize,
    code: &mut Vec<Instr>,
) -> Result<StateStarts, AllocError>
    ensures starts { IfOk result (λ starts. state_table starts
        ≡ spec.state_starts (here_of known.now) number code.old.items (state_view state.now)) }
    ensures code { OnOk result (code.new.items ≡ code.old.items
        ++ spec.state_code (here_of known.now) number (state_view state.now)) }
{
    let entry = lay_block(alloc, &state.entry, known, code)?;
    let clauses = lay_clauses(alloc, state.clauses.as_slice(), known, code)?;
    let exit = lay_block(alloc, &state.exit, known, code)?;
    Ok(StateStarts {
        is_reached: true,
        entry,
        clauses,
        exit,
    })
}

/// Adds the code of a state, if it is reached; gives where its pieces begin.
fn lay_kept<'a>(
    alloc: Global,
    state: &State<'a>,
    is_reached: bool,
    known: &Known<'_, 'a>,
    number: usize,
    code: &mut Vec<Instr>,
) -> Result<StateStarts, AllocError>
    ensures starts { IfOk result (λ starts. state_table starts ≡ spec.starts_if is_reached
        (here_of known.now) number code.old.items (state_view state.now)) }
    ensures code { OnOk result (code.new.items ≡ code.old.items
        ++ spec.code_if is_reached (here_of known.now) number (state_view state.now)) }
{
    if is_reached {
        return lay_state(alloc, state, known, number, code);
    }
    Ok(StateStarts {
        is_reached: false,
        entry: None,
        clauses: Vec::new(alloc),
        exit: None,
    })
}

/// Whether the state of a number has a mark; false where there is no such state.
fn marked(marks: &[bool], number: usize) -> bool
    ensures { result ≡ is_marked marks.now number }
{
    match marks.get(number) {
        Some(marked) => *marked,
        None => false,
    }
}

/// Adds the code of those states that have a mark; gives where the pieces of all states begin.
/// Fails only where memory ends.
pub fn lay_states<'a>(
    alloc: Global,
    states: &[State<'a>],
    marks: &[bool],
    known: &Known<'_, 'a>,
    code: &mut Vec<Instr>,
) -> Result<Vec<StateStarts>, AllocError>
    ensures starts { IfOk result (λ starts. map state_table starts.items
        ≡ spec.row_starts (spec.kept_code (here_of known.now) (is_marked marks.now))
        (spec.kept_starts (here_of known.now) (is_marked marks.now)) 0 code.old.items
        (map state_view states.now)) }
    ensures code { OnOk result (code.new.items ≡ code.old.items
        ++ spec.row_code (spec.kept_code (here_of known.now) (is_marked marks.now)) 0
        (map state_view states.now)) }
{
    let mut starts = Vec::new(alloc);
    for (number, state) in states.iter().enumerate() {
        let is_reached = marked(marks, number);
        let one = lay_kept(alloc, state, is_reached, known, number, code)?;
        starts.push(one)?;
    }
    Ok(starts)
}
