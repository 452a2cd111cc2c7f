//! The readers of clauses, states, state sets and programs.

ghost use Rattle.std.specs.Prelude.{◌≡◌, ◌<◌, IfOk};
ghost use Rattle.snl_tree.specs.reading.Sequences as sequences;
ghost use Rattle.snl_syntax.specs.view.Shown.{shown, held};
ghost use Rattle.snl_syntax.specs.Kinds.{is};
ghost use Rattle.snl_tree.specs.reading.Readers as readers;
ghost use Rattle.snl_tree.specs.reading.Expressions.{inside, level_at, is_no_close};
ghost use Rattle.snl_tree.specs.reading.Programs as specs;
ghost use Rattle.snl_tree.specs.reading.Moves.{Adds, Moves, MovesToken};
ghost use Rattle.snl_syntax.specs.view.Expressions.{boxed};
ghost use Rattle.snl_syntax.specs.view.Statements.{block_view};
ghost use Rattle.snl_syntax.specs.view.Programs.{Carries, target_view, clause_view, clause_views, state_view, state_views, state_set_view, state_set_views, program_view};

use crate::readers::boxes::programs::{
    boxed_program, push_clause, push_state, push_state_set, source_parts,
};
use crate::readers::cursor::{Cursor, Halt, at, before, sign, token};
use crate::readers::definitions::definitions;
use crate::readers::expressions::level;
use crate::readers::functions::program_parts;
use crate::readers::kinds::COMMA;
use crate::readers::options::parts;
use crate::readers::statements::block;
use snl_syntax::{Block, Clause, Expr, Program, State, StateSet, Target};
use snl_text::{Kind, Lexed, Token};
use std::alloc::Global;

/// Reads where a clause leads.
#[tactic(auto, unfolding(crate::specs::reading::Programs::target_at))]
fn target<'a, 't>(cursor: &mut Cursor<'a, 't>) -> Result<Target<'a>, Halt>
    ensures { Moves target_view result cursor.new.left.now (specs.target_at cursor.old.left.now) }
{
    if at(cursor, Kind::State) {
        sign(cursor, Kind::State)?;
        let name = token(cursor, Kind::Name)?;
        return Ok(Target::State(name));
    }
    sign(cursor, Kind::Exit)?;
    Ok(Target::Exit)
}

/// Reads an expression, where something other than a closing parenthesis is here.
fn maybe_expression<'a, 't>(
    alloc: Global,
    cursor: &mut Cursor<'a, 't>,
    depth: usize,
) -> Result<Option<Box<Expr<'a>>>, Halt>
    ensures { Moves (shown boxed) result cursor.new.left.now
        (sequences.maybe is_no_close (level_at (inside depth) 15) cursor.old.left.now) }
{
    if !before(cursor, Kind::CloseParenthesis) {
        return Ok(None);
    }
    let expr = level(alloc, cursor, depth, COMMA)?;
    Ok(Some(expr))
}

/// Reads the parentheses of a clause.
#[tactic(auto, unfolding(crate::specs::reading::Programs::condition_at))]
fn condition<'a, 't>(
    alloc: Global,
    cursor: &mut Cursor<'a, 't>,
    depth: usize,
) -> Result<Option<Box<Expr<'a>>>, Halt>
    ensures { Moves (shown boxed) result cursor.new.left.now
        (specs.condition_at depth cursor.old.left.now) }
{
    sign(cursor, Kind::OpenParenthesis)?;
    let condition = maybe_expression(alloc, cursor, depth)?;
    sign(cursor, Kind::CloseParenthesis)?;
    Ok(condition)
}

/// Reads a clause, and puts it at the end of a row.
fn clause<'a, 't>(
    alloc: Global,
    cursor: &mut Cursor<'a, 't>,
    depth: usize,
    row: &mut Vec<Clause<'a>>,
) -> Result<(), Halt>
    ensures { Adds clause_view row.old.items result row.new.items cursor.new.left.now
        (specs.clause_at depth cursor.old.left.now) }
{
    let word = token(cursor, Kind::When)?;
    let condition = condition(alloc, cursor, depth)?;
    let block = block(alloc, cursor, depth, depth)?;
    let target = target(cursor)?;
    push_clause(row, word, condition, block, target)
}

/// Reads the clauses of a state.
fn clauses<'a, 't>(
    alloc: Global,
    cursor: &mut Cursor<'a, 't>,
    depth: usize,
) -> Result<Vec<Clause<'a>>, Halt>
    requires { 0 < depth }
    ensures { Moves clause_views result cursor.new.left.now
        (specs.clauses_at depth cursor.old.left.now) }
{
    let mut found = Vec::new(alloc);
    while at(cursor, Kind::When) {
        clause(alloc, cursor, depth, &mut found)?;
    }
    Ok(found)
}

/// Reads an entry block, where it is here.
#[tactic(auto, unfolding(crate::specs::reading::Programs::entry_at))]
fn entry<'a, 't>(
    alloc: Global,
    cursor: &mut Cursor<'a, 't>,
    depth: usize,
) -> Result<Option<Box<Block<'a>>>, Halt>
    ensures { Moves (shown (held block_view)) result cursor.new.left.now
        (specs.entry_at depth cursor.old.left.now) }
{
    if !at(cursor, Kind::Entry) {
        return Ok(None);
    }
    sign(cursor, Kind::Entry)?;
    let body = block(alloc, cursor, depth, depth)?;
    Ok(Some(body))
}

/// Reads an exit block, where it is here.
#[tactic(auto, unfolding(crate::specs::reading::Programs::exit_at))]
fn exit<'a, 't>(
    alloc: Global,
    cursor: &mut Cursor<'a, 't>,
    depth: usize,
) -> Result<Option<Box<Block<'a>>>, Halt>
    ensures { Moves (shown (held block_view)) result cursor.new.left.now
        (specs.exit_at depth cursor.old.left.now) }
{
    if !at(cursor, Kind::Exit) {
        return Ok(None);
    }
    sign(cursor, Kind::Exit)?;
    let body = block(alloc, cursor, depth, depth)?;
    Ok(Some(body))
}

/// Reads a state, and puts it at the end of a row.
fn state<'a, 't>(
    alloc: Global,
    cursor: &mut Cursor<'a, 't>,
    depth: usize,
    row: &mut Vec<State<'a>>,
) -> Result<(), Halt>
    requires { 0 < depth }
    ensures { Adds state_view row.old.items result row.new.items cursor.new.left.now
        (specs.state_at depth cursor.old.left.now) }
{
    let word = token(cursor, Kind::State)?;
    let name = token(cursor, Kind::Name)?;
    sign(cursor, Kind::OpenBrace)?;
    let definitions = parts(alloc, cursor, depth)?;
    let entry = entry(alloc, cursor, depth)?;
    let clauses = clauses(alloc, cursor, depth)?;
    let exit = exit(alloc, cursor, depth)?;
    sign(cursor, Kind::CloseBrace)?;
    push_state(row, word, name, definitions, entry, clauses, exit)
}

/// Reads the states of a state set.
fn states<'a, 't>(
    alloc: Global,
    cursor: &mut Cursor<'a, 't>,
    depth: usize,
) -> Result<Vec<State<'a>>, Halt>
    requires { 0 < depth }
    ensures { Moves state_views result cursor.new.left.now
        (specs.states_at depth cursor.old.left.now) }
{
    let mut found = Vec::new(alloc);
    state(alloc, cursor, depth, &mut found)?;
    while at(cursor, Kind::State) {
        state(alloc, cursor, depth, &mut found)?;
    }
    Ok(found)
}

/// Reads a state set, and puts it at the end of a row.
fn state_set<'a, 't>(
    alloc: Global,
    cursor: &mut Cursor<'a, 't>,
    depth: usize,
    row: &mut Vec<StateSet<'a>>,
) -> Result<(), Halt>
    requires { 0 < depth }
    ensures { Adds state_set_view row.old.items result row.new.items cursor.new.left.now
        (specs.state_set_at depth cursor.old.left.now) }
{
    let word = token(cursor, Kind::StateSet)?;
    let name = token(cursor, Kind::Name)?;
    sign(cursor, Kind::OpenBrace)?;
    let definitions = definitions(alloc, cursor, depth)?;
    let states = states(alloc, cursor, depth)?;
    sign(cursor, Kind::CloseBrace)?;
    push_state_set(row, word, name, definitions, states)
}

/// Reads the state sets of a program.
fn state_sets<'a, 't>(
    alloc: Global,
    cursor: &mut Cursor<'a, 't>,
    depth: usize,
) -> Result<Vec<StateSet<'a>>, Halt>
    requires { 0 < depth }
    ensures { Moves state_set_views result cursor.new.left.now
        (specs.state_sets_at depth cursor.old.left.now) }
{
    let mut found = Vec::new(alloc);
    state_set(alloc, cursor, depth, &mut found)?;
    while at(cursor, Kind::StateSet) {
        state_set(alloc, cursor, depth, &mut found)?;
    }
    Ok(found)
}

/// Reads the macros of a program, where they are here.
#[tactic(auto, unfolding(crate::specs::reading::Programs::macros_at))]
fn macros<'a, 't>(cursor: &mut Cursor<'a, 't>) -> Result<Option<Token<'a>>, Halt>
    ensures { MovesToken result cursor.new.left.now (specs.macros_at cursor.old.left.now) }
{
    if !at(cursor, Kind::OpenParenthesis) {
        return Ok(None);
    }
    sign(cursor, Kind::OpenParenthesis)?;
    let text = token(cursor, Kind::Text)?;
    sign(cursor, Kind::CloseParenthesis)?;
    Ok(Some(text))
}

/// Reads a program, of a source with these embedded pieces and files.
pub fn program<'a, 't>(
    alloc: Global,
    cursor: &mut Cursor<'a, 't>,
    depth: usize,
    lexed: &Lexed<'a>,
) -> Result<Box<Program<'a>>, Halt>
    requires { 0 < depth }
    ensures tree { Moves (held program_view) result cursor.new.left.now
        (specs.program_at depth cursor.old.left.now) }
    ensures carried { IfOk result (λ b. Carries b.value lexed.now) }
{
    let word = token(cursor, Kind::Program)?;
    let name = token(cursor, Kind::Name)?;
    let macros = macros(cursor)?;
    let definitions = program_parts(alloc, cursor, depth)?;
    let entry = entry(alloc, cursor, depth)?;
    let state_sets = state_sets(alloc, cursor, depth)?;
    let exit = exit(alloc, cursor, depth)?;
    let source = source_parts(alloc, lexed)?;
    boxed_program(
        &alloc,
        word,
        name,
        macros,
        definitions,
        entry,
        state_sets,
        exit,
        source,
    )
}
