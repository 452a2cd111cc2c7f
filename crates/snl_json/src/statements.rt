//! The rows of statements.

ghost use Rattle.std.specs.Prelude.{◌≡◌, [], map, codes, IfOk, OnOk};
ghost use Rattle.snl_syntax.specs.Statements as tree;
ghost use Rattle.snl_syntax.specs.view.Expressions.{view, boxed};
ghost use Rattle.snl_syntax.specs.view.Declarations.{declaration_view};
ghost use Rattle.snl_syntax.specs.view.Lists.{statement_list};
ghost use Rattle.snl_syntax.specs.view.Statements.{statement_view, header_view, block_view};
ghost use Rattle.snl_syntax.specs.view.Shown.{shown, held};
ghost use Rattle.snl_json.specs.Rows.{made, with_row, with_list, with_maybe, maybe_last};
ghost use Rattle.snl_json.specs.Declarations.{with_declaration};
ghost use Rattle.snl_json.specs.Statements as spec;

use crate::declarations::put_declaration;
use crate::expressions::{put_expression, put_maybe};
use crate::rows::{Part, last, put_empty, put_first, put_one, put_three, put_two};
use serde_json::Value;
use snl_syntax::{Block, Declaration, Expr, Header, Stmt};
use snl_text::Token;
use std::alloc::{AllocError, Global};

/// Puts the rows of what stands between the parentheses of a `for` behind others.
fn put_header<'a>(
    alloc: Global,
    header: &Header<'a>,
    rows: &mut Vec<Value>,
) -> Result<(), AllocError>
    ensures { OnOk result (made rows.new.items
        ≡ spec.with_header (header_view header.now) (made rows.old.items)) }
{
    let start = put_maybe(alloc, &header.start, rows)?;
    let condition = put_maybe(alloc, &header.condition, rows)?;
    let step = put_maybe(alloc, &header.step, rows)?;
    put_three(alloc, "Header", start, condition, step, rows)
}

/// Puts the rows of a statement behind others.
#[cycle(statement)]
#[tactic(auto, using(crate::proofs::Forms::nested_made))]
fn put_statement<'a>(
    alloc: Global,
    statement: &Stmt<'a>,
    rows: &mut Vec<Value>,
) -> Result<(), AllocError>
    ensures { OnOk result (made rows.new.items
        ≡ spec.with_statement (statement_view statement.now) (made rows.old.items)) }
{
    match statement {
        Stmt::Block(block) => {
            put_block(alloc, block, rows)?;
            put_one(alloc, "nested", last(rows.as_slice()), rows)
        }
        Stmt::Empty => put_empty(alloc, "empty", rows),
        Stmt::Expression(value) => {
            put_expression(alloc, value, rows)?;
            put_one(alloc, "expression", last(rows.as_slice()), rows)
        }
        Stmt::Break(word) => put_one(alloc, "break_loop", Part::Word(*word), rows),
        Stmt::Continue(word) => put_one(alloc, "continue_loop", Part::Word(*word), rows),
        Stmt::State { word, name } => put_change(alloc, *word, *name, rows),
        Stmt::Return { word, value } => put_return(alloc, value, *word, rows),
        Stmt::If { condition, first } => put_choice(alloc, first, condition, rows),
        Stmt::IfElse {
            condition,
            first,
            second,
        } => {
            put_expression(alloc, condition, rows)?;
            let condition = last(rows.as_slice());
            put_statement(alloc, first, rows)?;
            let first = last(rows.as_slice());
            put_statement(alloc, second, rows)?;
            let second = last(rows.as_slice());
            put_three(alloc, "if_else", condition, first, second, rows)
        }
        Stmt::While {
            word,
            condition,
            body,
        } => put_while(alloc, body, *word, condition, rows),
        Stmt::For { word, header, body } => put_for(alloc, body, *word, header, rows),
    }
}

/// Puts the row of a state statement behind others.
fn put_change<'a>(
    alloc: Global,
    word: Token<'a>,
    name: Token<'a>,
    rows: &mut Vec<Value>,
) -> Result<(), AllocError>
    ensures { OnOk result (made rows.new.items ≡ spec.with_statement
        (tree.change_state word.entry name.entry) (made rows.old.items)) }
{
    let name = Part::Word(name);
    put_two(alloc, "change_state", Part::Word(word), name, rows)
}

/// Puts the rows of a `return` with its value behind others.
fn put_return<'a>(
    alloc: Global,
    value: &Option<Box<Expr<'a>>>,
    word: Token<'a>,
    rows: &mut Vec<Value>,
) -> Result<(), AllocError>
    ensures { OnOk result (made rows.new.items ≡ spec.with_statement
        (tree.return_with word.entry (shown boxed value.now)) (made rows.old.items)) }
{
    let value = put_maybe(alloc, value, rows)?;
    put_two(alloc, "return_with", Part::Word(word), value, rows)
}

/// Puts the rows of an `if` without `else` behind others.
#[cycle(statement)]
fn put_choice<'a>(
    alloc: Global,
    first: &Stmt<'a>,
    condition: &Expr<'a>,
    rows: &mut Vec<Value>,
) -> Result<(), AllocError>
    ensures { OnOk result (made rows.new.items ≡ spec.with_statement
        (tree.if_then (view condition.now) (statement_view first.now)) (made rows.old.items)) }
{
    put_expression(alloc, condition, rows)?;
    let condition = last(rows.as_slice());
    put_statement(alloc, first, rows)?;
    put_two(alloc, "if_then", condition, last(rows.as_slice()), rows)
}

/// Puts the rows of a `while` behind others.
#[cycle(statement)]
fn put_while<'a>(
    alloc: Global,
    body: &Stmt<'a>,
    word: Token<'a>,
    condition: &Expr<'a>,
    rows: &mut Vec<Value>,
) -> Result<(), AllocError>
    ensures { OnOk result (made rows.new.items ≡ spec.with_statement
        (tree.while_loop word.entry (view condition.now) (statement_view body.now))
        (made rows.old.items)) }
{
    put_expression(alloc, condition, rows)?;
    let condition = last(rows.as_slice());
    put_statement(alloc, body, rows)?;
    let body = last(rows.as_slice());
    let word = Part::Word(word);
    put_three(alloc, "while_loop", word, condition, body, rows)
}

/// Puts the rows of a `for` behind others.
#[cycle(statement)]
fn put_for<'a>(
    alloc: Global,
    body: &Stmt<'a>,
    word: Token<'a>,
    header: &Header<'a>,
    rows: &mut Vec<Value>,
) -> Result<(), AllocError>
    ensures { OnOk result (made rows.new.items ≡ spec.with_statement
        (tree.for_loop word.entry (header_view header.now) (statement_view body.now))
        (made rows.old.items)) }
{
    put_header(alloc, header, rows)?;
    let header = last(rows.as_slice());
    put_statement(alloc, body, rows)?;
    let body = last(rows.as_slice());
    put_three(alloc, "for_loop", Part::Word(word), header, body, rows)
}

/// Puts the rows of statements behind others, the last one first.
#[cycle(statement)]
#[tactic(auto, using(crate::proofs::Lists::statements_none))]
fn put_statements<'a>(
    alloc: Global,
    statements: &[Stmt<'a>],
    rows: &mut Vec<Value>,
) -> Result<(), AllocError>
    ensures { OnOk result (made rows.new.items
        ≡ spec.with_statements (statement_list (map statement_view statements.now))
        (with_row (codes "no_statements") [] (made rows.old.items))) }
{
    put_empty(alloc, "no_statements", rows)?;
    for number in (0..statements.len()).rev() {
        let others = last(rows.as_slice());
        put_statement(alloc, &statements[number], rows)?;
        put_two(alloc, "statement", last(rows.as_slice()), others, rows)?;
    }
    Ok(())
}

/// Puts the rows of a block behind others. Fails only where memory ends.
#[cycle(statement)]
pub fn put_block<'a>(
    alloc: Global,
    block: &Block<'a>,
    rows: &mut Vec<Value>,
) -> Result<(), AllocError>
    ensures { OnOk result (made rows.new.items
        ≡ spec.with_block (block_view block.now) (made rows.old.items)) }
{
    put_declarations(alloc, block.declarations.as_slice(), rows)?;
    let declared = last(rows.as_slice());
    put_statements(alloc, block.statements.as_slice(), rows)?;
    put_two(alloc, "block", declared, last(rows.as_slice()), rows)
}

/// Puts the rows of a block that may be missing behind others; how a row names it.
pub fn put_maybe_block<'a>(
    alloc: Global,
    block: &Option<Box<Block<'a>>>,
    rows: &mut Vec<Value>,
) -> Result<Part<'a>, AllocError>
    ensures { IfOk result (λ p.
        (p ≡ maybe_last (shown (held block_view) block.now) (made rows.new.items))
        × (made rows.new.items ≡ with_maybe spec.with_block (shown (held block_view) block.now)
        (made rows.old.items))) }
{
    match block {
        Some(there) => {
            put_block(alloc, there, rows)?;
            Ok(last(rows.as_slice()))
        }
        None => Ok(Part::Missing),
    }
}

/// Puts the rows of declarations behind others, the last one first.
fn put_declarations<'a>(
    alloc: Global,
    declarations: &[Declaration<'a>],
    rows: &mut Vec<Value>,
) -> Result<(), AllocError>
    ensures { OnOk result (made rows.new.items
        ≡ with_list with_declaration (map declaration_view declarations.now)
        (made rows.old.items)) }
{
    put_empty(alloc, "nil", rows)?;
    for number in (0..declarations.len()).rev() {
        let others = last(rows.as_slice());
        put_declaration(alloc, &declarations[number], rows)?;
        put_first(alloc, others, rows)?;
    }
    Ok(())
}
