//! The code of statements and blocks. It is made from its end, so it is known where a `break` or a
//! `continue` leads when its jump is made.

ghost use Rattle.std.specs.Prelude.{◌≡◌, ◌≤◌, ◌<◌, ◌-◌, [], ◌∷◌, ◌++◌, length, map, reverse, set, OnOk};
ghost use Rattle.snl_syntax.specs.view.Expressions.{view, boxed};
ghost use Rattle.snl_syntax.specs.view.Shown.{shown};
ghost use Rattle.snl_syntax.specs.view.Statements.{statement_view, statement_views, declaration_views, block_view};
ghost use Rattle.snl_syntax.specs.view.Lists.{statement_list};
ghost use Rattle.snl_emit.specs.BlockCode as spec;
ghost use Rattle.snl_meaning.specs.Effect.{names_of};
ghost use Rattle.snl_emit.specs.Emission.{turn_code};
ghost use Rattle.snl_emit.specs.ExpressionCode.{expression_code};
ghost use Rattle.snl_emit.specs.FunctionCode.{body_code};
ghost use Rattle.snl_meaning.specs.Known.{here_of};
ghost use Rattle.snl_meaning.specs.declared.instrs.Instr.TheVariants as instr;

use crate::effects::emit_effect;
use crate::emission::emit_expression;
use crate::entries::emit_entry;
use crate::leaving::{emit_return, put_leave};
use crate::rows::put;
use snl_meaning::{Instr, Known};
use snl_syntax::{Block, Expr, Stmt};
use std::alloc::AllocError;

/// The innermost loop around a statement, each address by how many instructions stand after it.
#[derive(Clone, Copy)]
pub struct Loop {
    /// Its end, where `break` leads.
    pub end: usize,
    /// Where it goes on after a `continue`.
    pub again: usize,
}

/// Puts a jump to an address after which so many instructions stand.
fn put_jump(code: &mut Vec<Instr>, place: usize) -> Result<(), AllocError>
    requires { place ≤ length code.old.items }
    ensures { OnOk result (reverse code.new.items
        ≡ instr.Jump (length code.old.items - place) ∷ reverse code.old.items) }
{
    let passed = code.len() - place;
    put(code, Instr::Jump(passed))
}

/// An expression for what it does, which may be missing.
#[tactic(auto, using(crate::proofs::LoopCode::longer))]
fn emit_if_there<'a>(
    expression: &Option<Box<Expr<'a>>>,
    known: &Known<'_, 'a>,
    code: &mut Vec<Instr>,
) -> Result<(), AllocError>
    ensures made { OnOk result (reverse code.new.items
        ≡ spec.dropped_code (here_of known.now) (shown boxed expression.now)
        ++ reverse code.old.items) }
    ensures longer { OnOk result (length code.old.items ≤ length code.new.items) }
{
    match expression {
        Some(expression) => emit_effect(expression, known, code),
        None => Ok(()),
    }
}

/// A condition that passes the next instruction where it fails.
fn emit_test<'a>(
    condition: &Expr<'a>,
    known: &Known<'_, 'a>,
    code: &mut Vec<Instr>,
) -> Result<(), AllocError>
    ensures { OnOk result (reverse code.new.items
        ≡ (expression_code (here_of known.now) (view condition.now) ++ instr.JumpIfZero 1 ∷ [])
        ++ reverse code.old.items) }
{
    put(code, Instr::JumpIfZero(1))?;
    emit_expression(condition, known, code)
}

/// The same of one that may be missing.
fn emit_test_if_there<'a>(
    condition: &Option<Box<Expr<'a>>>,
    known: &Known<'_, 'a>,
    code: &mut Vec<Instr>,
) -> Result<(), AllocError>
    ensures { OnOk result (reverse code.new.items
        ≡ spec.test_code (here_of known.now) (shown boxed condition.now)
        ++ reverse code.old.items) }
{
    match condition {
        Some(condition) => emit_test(condition, known, code),
        None => Ok(()),
    }
}

/// Begins a loop with the tick at its end. How far the tick leads back is said by [`close`].
fn open(code: &mut Vec<Instr>) -> Result<(), AllocError>
    ensures { OnOk result (reverse code.new.items ≡ instr.Tick 0 0 ∷ reverse code.old.items) }
{
    put(code, Instr::Tick { line: 0, back: 0 })
}

/// Begins a loop with its tick and with its test, which may be missing.
#[tactic(auto, using(crate::proofs::LoopCode::longer))]
fn open_tested<'a>(
    condition: &Option<Box<Expr<'a>>>,
    known: &Known<'_, 'a>,
    code: &mut Vec<Instr>,
) -> Result<(), AllocError>
    ensures made { OnOk result (reverse code.new.items
        ≡ spec.test_code (here_of known.now) (shown boxed condition.now)
        ++ instr.Tick 0 0 ∷ reverse code.old.items) }
    ensures longer { OnOk result (length code.old.items < length code.new.items) }
{
    open(code)?;
    emit_test_if_there(condition, known, code)
}

/// Ends a loop whose tick was made after `end` instructions, and whose test after `test`: the tick
/// leads back to the body, and a jump leads to the test.
fn close(code: &mut Vec<Instr>, line: usize, end: usize, test: usize) -> Result<(), AllocError>
    requires end { end < length code.old.items }
    requires test { test ≤ length code.old.items }
    ensures { OnOk result (reverse code.new.items ≡ instr.Jump (length code.old.items - test)
        ∷ reverse (set code.old.items end (instr.Tick line (length code.old.items - end - 1)))) }
{
    let back = code.len() - end - 1;
    code[end] = Instr::Tick { line, back };
    put_jump(code, test)
}

/// Puts the code of a statement before the code that was made.
#[cycle(statement)]
fn emit_statement<'a>(
    statement: &Stmt<'a>,
    known: &Known<'_, 'a>,
    around: Loop,
    code: &mut Vec<Instr>,
) -> Result<(), AllocError>
    requires end { around.end ≤ length code.old.items }
    requires again { around.again ≤ length code.old.items }
    ensures { OnOk result (reverse code.new.items ≡ spec.statement_code (here_of known.now)
        (length code.old.items - around.end) (length code.old.items - around.again)
        (statement_view statement.now) ++ reverse code.old.items) }
{
    match statement {
        Stmt::Block(block) => emit_nested(block, known, around, code),
        Stmt::Empty => Ok(()),
        Stmt::Expression(value) => emit_effect(value, known, code),
        Stmt::Break(_) => put_jump(code, around.end),
        Stmt::Continue(_) => put_jump(code, around.again),
        Stmt::State { name, .. } => put_leave(known.within, known.state(*name), code),
        Stmt::Return { word, value } => emit_return(value, known, word.pos.line as usize, code),
        Stmt::If { condition, first } => {
            emit_when(first, known, around, code)?;
            emit_expression(condition, known, code)
        }
        Stmt::IfElse {
            condition,
            first,
            second,
        } => {
            emit_second(second, known, around, code)?;
            emit_first(first, known, around, code)?;
            emit_expression(condition, known, code)
        }
        Stmt::While {
            word,
            condition,
            body,
        } => {
            let end = code.len();
            open(code)?;
            emit_test(condition, known, code)?;
            emit_turn(body, known, word.pos.line as usize, end, code.len(), code)
        }
        Stmt::For { word, header, body } => {
            let end = code.len();
            open_tested(&header.condition, known, code)?;
            let test = code.len();
            emit_if_there(&header.step, known, code)?;
            emit_turn(body, known, word.pos.line as usize, end, test, code)?;
            emit_if_there(&header.start, known, code)
        }
    }
}

/// What is done where a condition holds, behind a jump over it.
#[cycle(statement)]
fn emit_when<'a>(
    first: &Stmt<'a>,
    known: &Known<'_, 'a>,
    around: Loop,
    code: &mut Vec<Instr>,
) -> Result<(), AllocError>
    requires end { around.end ≤ length code.old.items }
    requires again { around.again ≤ length code.old.items }
    ensures { OnOk result (reverse code.new.items ≡ spec.held_code (spec.statement_code
        (here_of known.now) (length code.old.items - around.end)
        (length code.old.items - around.again) (statement_view first.now))
        ++ reverse code.old.items) }
{
    let end = code.len();
    emit_statement(first, known, around, code)?;
    let passed = code.len() - end;
    put(code, Instr::JumpIfZero(passed))
}

/// The same, where a jump over something else stands behind it.
#[cycle(statement)]
fn emit_first<'a>(
    first: &Stmt<'a>,
    known: &Known<'_, 'a>,
    around: Loop,
    code: &mut Vec<Instr>,
) -> Result<(), AllocError>
    requires end { around.end ≤ length code.old.items }
    requires again { around.again ≤ length code.old.items }
    ensures { OnOk result (reverse code.new.items ≡ spec.first_code (spec.statement_code
        (here_of known.now) (length code.old.items - around.end)
        (length code.old.items - around.again) (statement_view first.now))
        ++ reverse code.old.items) }
{
    let end = code.len();
    emit_statement(first, known, around, code)?;
    let passed = code.len() - end + 1;
    put(code, Instr::JumpIfZero(passed))
}

/// What is done where a condition fails, behind a jump over it.
#[cycle(statement)]
fn emit_second<'a>(
    second: &Stmt<'a>,
    known: &Known<'_, 'a>,
    around: Loop,
    code: &mut Vec<Instr>,
) -> Result<(), AllocError>
    requires end { around.end ≤ length code.old.items }
    requires again { around.again ≤ length code.old.items }
    ensures { OnOk result (reverse code.new.items ≡ spec.second_code (spec.statement_code
        (here_of known.now) (length code.old.items - around.end)
        (length code.old.items - around.again) (statement_view second.now))
        ++ reverse code.old.items) }
{
    let end = code.len();
    emit_statement(second, known, around, code)?;
    put_jump(code, end)
}

/// The body of a loop, behind a jump to its test. The loop ends after `end` instructions, where its
/// tick stands, and its test begins after `test`.
#[cycle(statement)]
fn emit_turn<'a>(
    body: &Stmt<'a>,
    known: &Known<'_, 'a>,
    line: usize,
    end: usize,
    test: usize,
    code: &mut Vec<Instr>,
) -> Result<(), AllocError>
    requires end { end < length code.old.items }
    requires test { test ≤ length code.old.items }
    ensures { OnOk result (reverse code.new.items
        ≡ turn_code (here_of known.now) line end test (statement_view body.now) code.old.items) }
{
    let again = code.len();
    emit_statement(body, known, Loop { end, again }, code)?;
    close(code, line, end, test)
}

/// Statements, one after another.
#[cycle(statement)]
fn emit_statements<'a>(
    statements: &[Stmt<'a>],
    known: &Known<'_, 'a>,
    around: Loop,
    code: &mut Vec<Instr>,
) -> Result<(), AllocError>
    requires end { around.end ≤ length code.old.items }
    requires again { around.again ≤ length code.old.items }
    ensures { OnOk result (reverse code.new.items ≡ spec.statements_code (here_of known.now)
        (length code.old.items - around.end) (length code.old.items - around.again)
        (statement_list (map statement_view statements.now)) ++ reverse code.old.items) }
{
    for number in (0..statements.len()).rev() {
        emit_statement(&statements[number], known, around, code)?;
    }
    Ok(())
}

/// The statements of a block.
#[cycle(statement)]
fn emit_inner<'a>(
    block: &Block<'a>,
    known: &Known<'_, 'a>,
    around: Loop,
    code: &mut Vec<Instr>,
) -> Result<(), AllocError>
    requires end { around.end ≤ length code.old.items }
    requires again { around.again ≤ length code.old.items }
    ensures { OnOk result (reverse code.new.items ≡ spec.statements_code (here_of known.now)
        (length code.old.items - around.end) (length code.old.items - around.again)
        (statement_list (statement_views block.now.statements)) ++ reverse code.old.items) }
{
    emit_statements(block.statements.as_slice(), known, around, code)
}

/// The entry of a block.
fn emit_variables<'a>(
    block: &Block<'a>,
    known: &Known<'_, 'a>,
    code: &mut Vec<Instr>,
) -> Result<(), AllocError>
    ensures { OnOk result (reverse code.new.items ≡ spec.entered_code (here_of known.now)
        (names_of (declaration_views block.now.declarations)) ++ reverse code.old.items) }
{
    emit_entry(block.declarations.as_slice(), known, code)
}

/// A block: what its variables begin with, and then its statements.
#[cycle(statement)]
fn emit_nested<'a>(
    block: &Block<'a>,
    known: &Known<'_, 'a>,
    around: Loop,
    code: &mut Vec<Instr>,
) -> Result<(), AllocError>
    requires end { around.end ≤ length code.old.items }
    requires again { around.again ≤ length code.old.items }
    ensures { OnOk result (reverse code.new.items ≡ spec.block_code (here_of known.now)
        (length code.old.items - around.end) (length code.old.items - around.again)
        (block_view block.now) ++ reverse code.old.items) }
{
    emit_inner(block, known, around, code)?;
    emit_variables(block, known, code)
}

/// Puts the code of a block before the code that was made. The only error is that memory ends.
pub fn emit_block<'a>(
    block: &Block<'a>,
    known: &Known<'_, 'a>,
    code: &mut Vec<Instr>,
) -> Result<(), AllocError>
    ensures { OnOk result (reverse code.new.items
        ≡ spec.block_code (here_of known.now) 0 0 (block_view block.now)
        ++ reverse code.old.items) }
{
    let end = code.len();
    emit_nested(block, known, Loop { end, again: end }, code)
}

/// Puts the code of the body of a function before the code that was made. It goes back to where the call goes on; at its end it
/// gives 0. The only error is that memory ends.
pub fn emit_function<'a>(
    body: &Block<'a>,
    known: &Known<'_, 'a>,
    code: &mut Vec<Instr>,
) -> Result<(), AllocError>
    ensures { OnOk result (reverse code.new.items
        ≡ body_code (here_of known.now) (block_view body.now) ++ reverse code.old.items) }
{
    put(code, Instr::Return)?;
    put(code, Instr::Push(0))?;
    emit_block(body, known, code)
}
