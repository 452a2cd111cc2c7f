//! The readers of expressions.

ghost use Rattle.std.specs.Prelude.{◌≡◌, ◌≤◌, ◌-◌, ◌&&◌};
ghost use Rattle.snl_tree.specs.reading.Readers as readers;
ghost use Rattle.snl_tree.specs.reading.Expressions as specs;
ghost use Rattle.snl_tree.specs.reading.Moves.{Adds, Moves, MovesTo};
ghost use Rattle.snl_syntax.specs.view.Expressions.{view, boxed, pair_of, pairs, argument_of, arguments_of, list_before};

use crate::readers::boxes::expressions::{
    boxed_assignment, boxed_call, boxed_conditional, boxed_constant, boxed_element, boxed_name,
    boxed_parenthesized, boxed_postfix, boxed_prefix, chained, push_term, push_text, push_value,
};
use crate::readers::cursor::{
    Cursor, Halt, at, at_constant, at_operator, at_prefix, before, constant, looseness_here,
    open_operator, open_prefix, open_sign, open_token, operator, sign, token,
};
use crate::readers::kinds::{ASSIGNMENT, BINARY, COMMA, CONDITIONAL, STEP, UNARY};
use snl_syntax::{Argument, Expr, Term};
use snl_text::{Kind, Token};
use std::alloc::Global;

/// Whether an assignment operator may stand after this.
fn is_unary(expr: &Expr) -> bool
    ensures { result ≡ specs.is_unary (view expr.now) }
{
    match expr {
        Expr::Chain(_, _) | Expr::Conditional { .. } | Expr::Assignment { .. } => false,
        Expr::Constant(_)
        | Expr::Parenthesized(_)
        | Expr::Named(_)
        | Expr::Element { .. }
        | Expr::Call(_, _)
        | Expr::Postfix(_, _)
        | Expr::Prefix(_, _) => true,
    }
}

/// Whether an assignment operator is here, after what it may assign to.
fn is_assigned(target: &Expr, cursor: &Cursor) -> bool
    ensures { result ≡ (specs.is_unary (view target.now)
        && readers.starts (specs.is_operator 14) cursor.now.left.now) }
{
    is_unary(target) && at_operator(cursor, ASSIGNMENT)
}

/// Reads what may stand after a primary, `++` or `--`.
#[tactic(auto, unfolding(crate::specs::reading::Expressions::stepped))]
fn stepped<'a, 't>(
    alloc: Global,
    cursor: &mut Cursor<'a, 't>,
    primary: Box<Expr<'a>>,
) -> Result<Box<Expr<'a>>, Halt>
    ensures { Moves boxed result cursor.new.left.now
        (specs.stepped (boxed primary.entry) cursor.old.left.now) }
{
    if !at_operator(cursor, STEP) {
        return Ok(primary);
    }
    let step = operator(cursor, STEP)?;
    boxed_postfix(&alloc, primary, step)
}

/// Reads what holds together so tightly, from [`UNARY`] to [`COMMA`]: a whole expression is the last.
#[cycle(reading)]
#[tactic(auto, using(crate::proofs::code::Forms::level_assignment, crate::proofs::code::Forms::level_conditional, crate::proofs::code::Climbing::level_binary))]
pub fn level<'a, 't>(
    alloc: Global,
    cursor: &mut Cursor<'a, 't>,
    depth: usize,
    looseness: u8,
) -> Result<Box<Expr<'a>>, Halt>
    requires low { 2 ≤ looseness }
    requires high { looseness ≤ 15 }
    ensures { Moves boxed result cursor.new.left.now
        (specs.level_at (specs.inside depth) looseness cursor.old.left.now) }
{
    if looseness == COMMA {
        return expression(alloc, cursor, depth);
    }
    if looseness == ASSIGNMENT {
        return assignment(alloc, cursor, depth);
    }
    if looseness == CONDITIONAL {
        return conditional(alloc, cursor, depth);
    }
    let first = unary(alloc, cursor, depth)?;
    climb(alloc, cursor, depth, first, UNARY, looseness)
}

/// Reads assignments with commas between them.
#[cycle(reading)]
#[tactic(auto, using(crate::proofs::code::Forms::expression_form))]
fn expression<'a, 't>(
    alloc: Global,
    cursor: &mut Cursor<'a, 't>,
    depth: usize,
) -> Result<Box<Expr<'a>>, Halt>
    ensures { Moves boxed result cursor.new.left.now
        (specs.level_at (specs.inside depth) 15 cursor.old.left.now) }
{
    let first = assignment(alloc, cursor, depth)?;
    let terms = terms(alloc, cursor, depth, COMMA)?;
    chained(&alloc, first, terms)
}

/// Reads the binary operators after a tree with their operands: those that are looser than what the tree
/// holds together, up to a looseness. It goes from one operator to the next, and not through every level.
#[cycle(reading)]
fn climb<'a, 't>(
    alloc: Global,
    cursor: &mut Cursor<'a, 't>,
    depth: usize,
    first: Box<Expr<'a>>,
    tightness: u8,
    looseness: u8,
) -> Result<Box<Expr<'a>>, Halt>
    requires low { 2 ≤ tightness }
    requires order { tightness ≤ looseness }
    requires high { looseness ≤ 12 }
    ensures { Moves boxed result cursor.new.left.now
        (specs.climbed depth tightness (looseness - tightness) (boxed first.entry)
        cursor.old.left.now) }
{
    let here = looseness_here(cursor);
    if here <= tightness || looseness < here {
        return Ok(first);
    }
    let terms = terms(alloc, cursor, depth, here)?;
    let chain = chained(&alloc, first, terms)?;
    climb(alloc, cursor, depth, chain, here, looseness)
}

/// Reads the operators of one level, each with the operand after it.
#[cycle(reading)]
#[tactic(auto, using(crate::proofs::code::Loops::found_first, crate::proofs::code::Loops::term_less))]
fn terms<'a, 't>(
    alloc: Global,
    cursor: &mut Cursor<'a, 't>,
    depth: usize,
    looseness: u8,
) -> Result<Vec<Term<'a>>, Halt>
    requires low { 3 ≤ looseness }
    requires high { looseness ≤ 15 }
    ensures { Moves pairs result cursor.new.left.now
        (specs.terms_at looseness (specs.level_at (specs.inside depth) (looseness - 1))
        cursor.old.left.now) }
{
    let mut found = Vec::new(alloc);
    while at_operator(cursor, looseness) {
        term(alloc, cursor, depth, looseness, &mut found)?;
    }
    Ok(found)
}

/// Reads an operator of a level and its operand, and puts them at the end of a row.
#[cycle(reading)]
#[tactic(auto, unfolding(crate::specs::reading::Expressions::term_at))]
fn term<'a, 't>(
    alloc: Global,
    cursor: &mut Cursor<'a, 't>,
    depth: usize,
    looseness: u8,
    row: &mut Vec<Term<'a>>,
) -> Result<(), Halt>
    requires low { 3 ≤ looseness }
    requires high { looseness ≤ 15 }
    ensures { Adds pair_of row.old.items result row.new.items cursor.new.left.now
        (specs.term_at depth looseness cursor.old.left.now) }
{
    let operator = operator(cursor, looseness)?;
    let operand = level(alloc, cursor, depth, looseness - 1)?;
    push_term(row, operator, operand)
}

/// Reads an assignment, or what may stand in its place.
#[cycle(reading)]
#[tactic(auto, using(crate::proofs::code::Forms::assignment_form), unfolding(crate::specs::reading::Expressions::assigned_rest))]
fn assignment<'a, 't>(
    alloc: Global,
    cursor: &mut Cursor<'a, 't>,
    depth: usize,
) -> Result<Box<Expr<'a>>, Halt>
    ensures { Moves boxed result cursor.new.left.now
        (specs.assignment_at (specs.inside depth) cursor.old.left.now) }
{
    let target = conditional(alloc, cursor, depth)?;
    if !is_assigned(&target, cursor) {
        return Ok(target);
    }
    let operator = open_operator(cursor, ASSIGNMENT, depth)?;
    let value = assignment(alloc, cursor, depth - 1)?;
    boxed_assignment(&alloc, target, operator, value)
}

/// Reads a conditional, or what may stand in its place.
#[cycle(reading)]
#[tactic(auto, using(crate::proofs::code::Forms::conditional_form), unfolding(crate::specs::reading::Expressions::conditional_rest))]
fn conditional<'a, 't>(
    alloc: Global,
    cursor: &mut Cursor<'a, 't>,
    depth: usize,
) -> Result<Box<Expr<'a>>, Halt>
    ensures { Moves boxed result cursor.new.left.now
        (specs.conditional_at (specs.inside depth) cursor.old.left.now) }
{
    let condition = level(alloc, cursor, depth, BINARY)?;
    if !at(cursor, Kind::Question) {
        return Ok(condition);
    }
    open_sign(cursor, Kind::Question, depth)?;
    let yes = level(alloc, cursor, depth - 1, COMMA)?;
    sign(cursor, Kind::Colon)?;
    let no = conditional(alloc, cursor, depth - 1)?;
    boxed_conditional(&alloc, condition, yes, no)
}

/// Reads prefix operators and what they stand before.
#[cycle(reading)]
#[tactic(auto, using(crate::proofs::code::Forms::unary_form))]
fn unary<'a, 't>(
    alloc: Global,
    cursor: &mut Cursor<'a, 't>,
    depth: usize,
) -> Result<Box<Expr<'a>>, Halt>
    ensures { Moves boxed result cursor.new.left.now
        (specs.unary_at (specs.inside depth) cursor.old.left.now) }
{
    if !at_prefix(cursor) {
        let primary = primary(alloc, cursor, depth)?;
        return stepped(alloc, cursor, primary);
    }
    let operator = open_prefix(cursor, depth)?;
    let operand = unary(alloc, cursor, depth - 1)?;
    boxed_prefix(&alloc, operator, operand)
}

/// Reads a constant, an expression in parentheses, or what begins with a name.
#[cycle(reading)]
#[tactic(auto, using(crate::proofs::code::Forms::primary_form))]
fn primary<'a, 't>(
    alloc: Global,
    cursor: &mut Cursor<'a, 't>,
    depth: usize,
) -> Result<Box<Expr<'a>>, Halt>
    ensures { Moves boxed result cursor.new.left.now
        (specs.primary_at (specs.inside depth) cursor.old.left.now) }
{
    if at_constant(cursor) {
        let token = constant(cursor)?;
        return boxed_constant(&alloc, token);
    }
    if at(cursor, Kind::OpenParenthesis) {
        return parenthesized(alloc, cursor, depth);
    }
    named(alloc, cursor, depth)
}

/// Reads an expression in parentheses.
#[cycle(reading)]
#[tactic(auto, using(crate::proofs::code::Forms::parenthesized_form))]
fn parenthesized<'a, 't>(
    alloc: Global,
    cursor: &mut Cursor<'a, 't>,
    depth: usize,
) -> Result<Box<Expr<'a>>, Halt>
    ensures { Moves boxed result cursor.new.left.now
        (specs.parenthesized_at (specs.inside depth) cursor.old.left.now) }
{
    open_sign(cursor, Kind::OpenParenthesis, depth)?;
    let inner = level(alloc, cursor, depth - 1, COMMA)?;
    sign(cursor, Kind::CloseParenthesis)?;
    boxed_parenthesized(&alloc, inner)
}

/// Reads a name, with a subscript or a call's arguments after it.
#[cycle(reading)]
#[tactic(auto, using(crate::proofs::code::Forms::named_form), unfolding(crate::specs::reading::Expressions::named_rest))]
fn named<'a, 't>(
    alloc: Global,
    cursor: &mut Cursor<'a, 't>,
    depth: usize,
) -> Result<Box<Expr<'a>>, Halt>
    ensures { Moves boxed result cursor.new.left.now
        (specs.named_at (specs.inside depth) cursor.old.left.now) }
{
    let name = token(cursor, Kind::Name)?;
    if at(cursor, Kind::OpenBracket) {
        return element(alloc, cursor, depth, name);
    }
    if at(cursor, Kind::OpenParenthesis) {
        return call(alloc, cursor, depth, name);
    }
    boxed_name(&alloc, name)
}

/// Reads the subscript after a name.
#[cycle(reading)]
#[tactic(auto, unfolding(crate::specs::reading::Expressions::element_rest))]
fn element<'a, 't>(
    alloc: Global,
    cursor: &mut Cursor<'a, 't>,
    depth: usize,
    name: Token<'a>,
) -> Result<Box<Expr<'a>>, Halt>
    ensures { Moves boxed result cursor.new.left.now
        (specs.element_rest depth name.entry cursor.old.left.now) }
{
    let bracket = open_token(cursor, Kind::OpenBracket, depth)?;
    let index = level(alloc, cursor, depth - 1, COMMA)?;
    sign(cursor, Kind::CloseBracket)?;
    boxed_element(&alloc, name, bracket, index)
}

/// Reads the arguments after the name of a call, in their parentheses.
#[cycle(reading)]
#[tactic(auto, unfolding(crate::specs::reading::Expressions::call_rest))]
fn call<'a, 't>(
    alloc: Global,
    cursor: &mut Cursor<'a, 't>,
    depth: usize,
    name: Token<'a>,
) -> Result<Box<Expr<'a>>, Halt>
    ensures { Moves boxed result cursor.new.left.now
        (specs.call_rest depth name.entry cursor.old.left.now) }
{
    open_sign(cursor, Kind::OpenParenthesis, depth)?;
    let all = arguments(alloc, cursor, depth - 1)?;
    sign(cursor, Kind::CloseParenthesis)?;
    boxed_call(&alloc, name, all)
}

/// Reads the arguments of a call, with so much depth left inside of its parentheses.
#[cycle(reading)]
#[tactic(auto, using(crate::proofs::code::Forms::arguments_form), unfolding(crate::specs::reading::Expressions::more_after))]
fn arguments<'a, 't>(
    alloc: Global,
    cursor: &mut Cursor<'a, 't>,
    depth: usize,
) -> Result<Vec<Argument<'a>>, Halt>
    ensures { Moves arguments_of result cursor.new.left.now
        (specs.arguments_at (specs.readers (specs.inside depth)) cursor.old.left.now) }
{
    let mut found = Vec::new(alloc);
    if !before(cursor, Kind::CloseParenthesis) {
        return Ok(found);
    }
    argument(alloc, cursor, depth, &mut found)?;
    more_arguments(alloc, cursor, depth, &mut found)?;
    Ok(found)
}

/// Reads commas and the arguments after them, and puts those at the end of a row.
#[cycle(reading)]
#[tactic(auto, using(crate::proofs::code::Loops::after_more, crate::proofs::code::Loops::after_all, crate::proofs::code::Loops::after_stuck, crate::proofs::code::Loops::argument_less))]
fn more_arguments<'a, 't>(
    alloc: Global,
    cursor: &mut Cursor<'a, 't>,
    depth: usize,
    row: &mut Vec<Argument<'a>>,
) -> Result<(), Halt>
    ensures { MovesTo (arguments_of row.new) result cursor.new.left.now
        (specs.more_after (specs.readers (specs.inside depth)) (list_before row.old.items)
        cursor.old.left.now) }
{
    while at(cursor, Kind::Comma) {
        sign(cursor, Kind::Comma)?;
        argument(alloc, cursor, depth, row)?;
    }
    Ok(())
}

/// Reads an argument, a string or an assignment, and puts it at the end of a row.
#[cycle(reading)]
#[tactic(auto, using(crate::proofs::code::Forms::argument_form))]
fn argument<'a, 't>(
    alloc: Global,
    cursor: &mut Cursor<'a, 't>,
    depth: usize,
    row: &mut Vec<Argument<'a>>,
) -> Result<(), Halt>
    ensures { Adds argument_of row.old.items result row.new.items cursor.new.left.now
        (specs.argument_at (specs.readers (specs.inside depth)) cursor.old.left.now) }
{
    if at(cursor, Kind::Text) {
        let text = token(cursor, Kind::Text)?;
        return push_text(row, text);
    }
    let value = assignment(alloc, cursor, depth)?;
    push_value(row, value)
}
