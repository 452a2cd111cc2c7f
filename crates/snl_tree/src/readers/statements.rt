//! The readers of statements and blocks.

ghost use Rattle.std.specs.Prelude.{◌≡◌};
ghost use Rattle.snl_tree.specs.reading.Readers as readers;
ghost use Rattle.snl_tree.specs.reading.Moves.{Moves, MovesToken};
ghost use Rattle.snl_syntax.specs.view.Shown.{shown, held};
ghost use Rattle.snl_tree.specs.reading.Statements as specs;
ghost use Rattle.snl_tree.specs.reading.StatementSteps as steps;
ghost use Rattle.snl_syntax.specs.view.Statements.{header_view, declaration_views, statement_view, statement_views, block_view};
ghost use Rattle.snl_syntax.specs.view.Expressions.{boxed};

use crate::readers::boxes::statements::{
    boxed_block, boxed_break, boxed_change, boxed_continue, boxed_empty, boxed_expression,
    boxed_for, boxed_header, boxed_if, boxed_if_else, boxed_nested, boxed_return, boxed_while,
};
use crate::readers::cursor::{Cursor, Halt, at, before, open_sign, open_token, sign, token};
use crate::readers::declarations::{at_declaration, declaration};
use crate::readers::expressions::level;
use crate::readers::kinds::COMMA;
use crate::readers::room::added;
use snl_syntax::{Block, Declaration, Expr, Header, Stmt};
use snl_text::{Kind, Token};
use std::alloc::Global;

/// Whether a statement may begin with a token of this kind.
fn opens_statement(kind: Kind) -> bool
    ensures { result ≡ specs.opens_statement kind }
{
    matches!(
        kind,
        Kind::OpenBrace
            | Kind::Semicolon
            | Kind::If
            | Kind::While
            | Kind::For
            | Kind::Break
            | Kind::Continue
            | Kind::State
            | Kind::Return
            | Kind::Whole
            | Kind::Decimal
            | Kind::Character
            | Kind::Name
            | Kind::OpenParenthesis
            | Kind::Plus
            | Kind::Minus
            | Kind::Bang
            | Kind::Tilde
            | Kind::PlusPlus
            | Kind::MinusMinus
    )
}

/// Whether a statement may begin here.
fn at_statement(cursor: &Cursor) -> bool
    ensures { result ≡ readers.starts specs.opens_statement cursor.now.left.now }
{
    match cursor.left {
        [first, ..] => opens_statement(first.kind),
        [] => false,
    }
}

/// Reads a word or a name, and the semicolon after it.
#[tactic(auto, unfolding(crate::specs::reading::StatementSteps::ended_word_at))]
fn ended_word<'a, 't>(cursor: &mut Cursor<'a, 't>, kind: Kind) -> Result<Token<'a>, Halt>
    ensures { MovesToken result cursor.new.left.now (steps.ended_word_at kind cursor.old.left.now) }
{
    let word = token(cursor, kind)?;
    sign(cursor, Kind::Semicolon)?;
    Ok(word)
}

/// Reads an expression in the parentheses of a statement, which don't count as nesting.
#[tactic(auto, unfolding(crate::specs::reading::Statements::condition_at))]
fn condition<'a, 't>(
    alloc: Global,
    cursor: &mut Cursor<'a, 't>,
    limit: usize,
) -> Result<Box<Expr<'a>>, Halt>
    ensures { Moves boxed result cursor.new.left.now
        (specs.condition_at limit cursor.old.left.now) }
{
    sign(cursor, Kind::OpenParenthesis)?;
    let condition = level(alloc, cursor, limit, COMMA)?;
    sign(cursor, Kind::CloseParenthesis)?;
    Ok(condition)
}

/// Reads an expression that may be missing, and the sign that ends it.
#[tactic(auto, unfolding(crate::specs::reading::Statements::ended_at))]
fn ended<'a, 't>(
    alloc: Global,
    cursor: &mut Cursor<'a, 't>,
    limit: usize,
    kind: Kind,
) -> Result<Option<Box<Expr<'a>>>, Halt>
    ensures { Moves (shown boxed) result cursor.new.left.now
        (specs.ended_at limit kind cursor.old.left.now) }
{
    if !before(cursor, kind) {
        sign(cursor, kind)?;
        return Ok(None);
    }
    let found = level(alloc, cursor, limit, COMMA)?;
    sign(cursor, kind)?;
    Ok(Some(found))
}

/// Reads what stands between the parentheses of a `for`, and those.
#[tactic(auto, unfolding(crate::specs::reading::Statements::header_at))]
fn header<'a, 't>(
    alloc: Global,
    cursor: &mut Cursor<'a, 't>,
    limit: usize,
) -> Result<Box<Header<'a>>, Halt>
    ensures { Moves (held header_view) result cursor.new.left.now
        (specs.header_at limit cursor.old.left.now) }
{
    sign(cursor, Kind::OpenParenthesis)?;
    let start = ended(alloc, cursor, limit, Kind::Semicolon)?;
    let condition = ended(alloc, cursor, limit, Kind::Semicolon)?;
    let step = ended(alloc, cursor, limit, Kind::CloseParenthesis)?;
    boxed_header(&alloc, start, condition, step)
}

/// Reads the declarations at the front of a block.
fn declarations<'a, 't>(
    alloc: Global,
    cursor: &mut Cursor<'a, 't>,
    limit: usize,
) -> Result<Vec<Declaration<'a>>, Halt>
    ensures { Moves declaration_views result cursor.new.left.now
        (specs.declarations_at limit cursor.old.left.now) }
{
    let mut found = Vec::new(alloc);
    while at_declaration(cursor) {
        let next = declaration(alloc, cursor, limit)?;
        added(&mut found, next)?;
    }
    Ok(found)
}

/// Reads a `return`, with its value if it has one.
fn return_statement<'a, 't>(
    alloc: Global,
    cursor: &mut Cursor<'a, 't>,
    limit: usize,
) -> Result<Box<Stmt<'a>>, Halt>
    ensures { Moves (held statement_view) result cursor.new.left.now
        (specs.return_at limit cursor.old.left.now) }
{
    let word = token(cursor, Kind::Return)?;
    let value = ended(alloc, cursor, limit, Kind::Semicolon)?;
    boxed_return(&alloc, word, value)
}

/// Reads an expression that is a statement.
#[tactic(auto, using(crate::proofs::code::StatementForms::expression_form))]
fn expression_statement<'a, 't>(
    alloc: Global,
    cursor: &mut Cursor<'a, 't>,
    limit: usize,
) -> Result<Box<Stmt<'a>>, Halt>
    ensures { Moves (held statement_view) result cursor.new.left.now
        (specs.expression_statement_at limit cursor.old.left.now) }
{
    let value = level(alloc, cursor, limit, COMMA)?;
    sign(cursor, Kind::Semicolon)?;
    boxed_expression(alloc, value)
}

/// Reads a statement that nests no other: `break`, `continue`, a state statement, `return` or an expression.
fn word_statement<'a, 't>(
    alloc: Global,
    cursor: &mut Cursor<'a, 't>,
    limit: usize,
) -> Result<Box<Stmt<'a>>, Halt>
    ensures { Moves (held statement_view) result cursor.new.left.now
        (specs.word_statement_at limit cursor.old.left.now) }
{
    if at(cursor, Kind::Break) {
        let word = ended_word(cursor, Kind::Break)?;
        return boxed_break(&alloc, word);
    }
    if at(cursor, Kind::Continue) {
        let word = ended_word(cursor, Kind::Continue)?;
        return boxed_continue(&alloc, word);
    }
    if at(cursor, Kind::State) {
        let word = token(cursor, Kind::State)?;
        let name = ended_word(cursor, Kind::Name)?;
        return boxed_change(&alloc, word, name);
    }
    if at(cursor, Kind::Return) {
        return return_statement(alloc, cursor, limit);
    }
    expression_statement(alloc, cursor, limit)
}

/// Reads a statement. Its expressions may be nested as deep as the limit, and `depth` is left for blocks,
/// `if`, `else` and loops.
#[cycle(nesting)]
fn statement<'a, 't>(
    alloc: Global,
    cursor: &mut Cursor<'a, 't>,
    limit: usize,
    depth: usize,
) -> Result<Box<Stmt<'a>>, Halt>
    ensures { Moves (held statement_view) result cursor.new.left.now
        (specs.statement_at limit depth cursor.old.left.now) }
{
    if at(cursor, Kind::OpenBrace) {
        let block = block(alloc, cursor, limit, depth)?;
        return boxed_nested(alloc, block);
    }
    if at(cursor, Kind::Semicolon) {
        sign(cursor, Kind::Semicolon)?;
        return boxed_empty(&alloc);
    }
    if at(cursor, Kind::If) {
        return if_statement(alloc, cursor, limit, depth);
    }
    if at(cursor, Kind::While) {
        return while_loop(alloc, cursor, limit, depth);
    }
    if at(cursor, Kind::For) {
        return for_loop(alloc, cursor, limit, depth);
    }
    word_statement(alloc, cursor, limit)
}

/// Reads a block. Its expressions may be nested as deep as the limit, and `depth` is left for its brace
/// and what is nested in it.
#[cycle(nesting)]
pub fn block<'a, 't>(
    alloc: Global,
    cursor: &mut Cursor<'a, 't>,
    limit: usize,
    depth: usize,
) -> Result<Box<Block<'a>>, Halt>
    ensures { Moves (held block_view) result cursor.new.left.now
        (specs.block_at limit depth cursor.old.left.now) }
{
    open_sign(cursor, Kind::OpenBrace, depth)?;
    let declarations = declarations(alloc, cursor, limit)?;
    let statements = statements(alloc, cursor, limit, depth - 1)?;
    sign(cursor, Kind::CloseBrace)?;
    boxed_block(&alloc, declarations, statements)
}

/// Reads statements, one after another.
#[cycle(nesting)]
fn statements<'a, 't>(
    alloc: Global,
    cursor: &mut Cursor<'a, 't>,
    limit: usize,
    depth: usize,
) -> Result<Vec<Stmt<'a>>, Halt>
    ensures { Moves statement_views result cursor.new.left.now
        (steps.statement_row_at limit depth cursor.old.left.now) }
{
    let mut found = Vec::new(alloc);
    while at_statement(cursor) {
        let next = statement(alloc, cursor, limit, depth)?;
        added(&mut found, next)?;
    }
    Ok(found)
}

/// Reads an `if`, with the `else` that belongs to it.
#[cycle(nesting)]
fn if_statement<'a, 't>(
    alloc: Global,
    cursor: &mut Cursor<'a, 't>,
    limit: usize,
    depth: usize,
) -> Result<Box<Stmt<'a>>, Halt>
    ensures { Moves (held statement_view) result cursor.new.left.now
        (specs.if_at limit (specs.statements_inside limit depth) cursor.old.left.now) }
{
    open_sign(cursor, Kind::If, depth)?;
    let condition = condition(alloc, cursor, limit)?;
    let first = statement(alloc, cursor, limit, depth - 1)?;
    otherwise(alloc, cursor, limit, depth - 1, condition, first)
}

/// Reads the `else` of an `if`, where one stands after its first statement. That statement has taken
/// each `else` that it can, so one that is left belongs to this `if`.
#[cycle(nesting)]
#[tactic(auto, unfolding(crate::specs::reading::StatementSteps::if_rest))]
fn otherwise<'a, 't>(
    alloc: Global,
    cursor: &mut Cursor<'a, 't>,
    limit: usize,
    depth: usize,
    condition: Box<Expr<'a>>,
    first: Box<Stmt<'a>>,
) -> Result<Box<Stmt<'a>>, Halt>
    ensures { Moves (held statement_view) result cursor.new.left.now
        (steps.if_rest limit depth (boxed condition.entry) (statement_view first.entry.value)
        cursor.old.left.now) }
{
    if !at(cursor, Kind::Else) {
        return boxed_if(alloc, condition, first);
    }
    sign(cursor, Kind::Else)?;
    let second = statement(alloc, cursor, limit, depth)?;
    boxed_if_else(alloc, condition, first, second)
}

/// Reads a `while`.
#[cycle(nesting)]
fn while_loop<'a, 't>(
    alloc: Global,
    cursor: &mut Cursor<'a, 't>,
    limit: usize,
    depth: usize,
) -> Result<Box<Stmt<'a>>, Halt>
    ensures { Moves (held statement_view) result cursor.new.left.now
        (specs.while_at limit (specs.statements_inside limit depth) cursor.old.left.now) }
{
    let word = open_token(cursor, Kind::While, depth)?;
    let condition = condition(alloc, cursor, limit)?;
    let body = statement(alloc, cursor, limit, depth - 1)?;
    boxed_while(alloc, word, condition, body)
}

/// Reads a `for`.
#[cycle(nesting)]
fn for_loop<'a, 't>(
    alloc: Global,
    cursor: &mut Cursor<'a, 't>,
    limit: usize,
    depth: usize,
) -> Result<Box<Stmt<'a>>, Halt>
    ensures { Moves (held statement_view) result cursor.new.left.now
        (specs.for_at limit (specs.statements_inside limit depth) cursor.old.left.now) }
{
    let word = open_token(cursor, Kind::For, depth)?;
    let header = header(alloc, cursor, limit)?;
    let body = statement(alloc, cursor, limit, depth - 1)?;
    boxed_for(alloc, word, header, body)
}
