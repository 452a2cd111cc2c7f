//! The sites in statements.

ghost use Rattle.std.specs.Prelude.{◌≡◌, [], ◌∷◌, ◌++◌, map, true, OnOk};
ghost use Rattle.std.specs.List.{flat_map};
ghost use Rattle.snl_syntax.specs.view.Expressions.{boxed};
ghost use Rattle.snl_syntax.specs.view.Declarations.{declaration_view};
ghost use Rattle.snl_syntax.specs.view.Lists.{statement_list};
ghost use Rattle.snl_syntax.specs.view.Statements.{statement_view, header_view, block_view};
ghost use Rattle.snl_syntax.specs.view.Shown.{shown};
ghost use Rattle.snl_resolve.specs.Seen.{sight_of};
ghost use Rattle.snl_names.specs.Numbered.{number_of};
ghost use Rattle.snl_names.specs.Sites as spec;

use crate::declarations::{note_declaration, note_if_there, note_value};
use crate::expressions::note_expression;
use crate::scoping::block_scope;
use crate::sights::Sight;
use snl_names::{Numbered, Purpose, Room, Site, pushed};
use snl_syntax::{Block, Declaration, Expr, Header, Stmt};
use snl_text::Token;
use std::alloc::{AllocError, Global};

/// What stands round statements, beside what is in sight there.
#[derive(Clone, Copy)]
pub struct Around<'n, 'a> {
    /// Where they stand.
    pub room: Room,
    /// The names of the states of their state set.
    pub states: &'n Numbered<'a>,
}

/// Notes the sites between the parentheses of a `for`.
fn note_header<'a>(
    header: &Header<'a>,
    sight: &Sight<'_, 'a>,
    sites: &mut Vec<Site<'a>>,
) -> Result<(), AllocError>
    ensures { OnOk result (sites.new.items ≡ sites.old.items
        ++ spec.in_header (sight_of sight.now) (header_view header.now)) }
{
    note_if_there(&header.start, sight, sites)?;
    note_if_there(&header.condition, sight, sites)?;
    note_if_there(&header.step, sight, sites)
}

/// Notes the sites in the declarations of a block.
fn note_declarations<'a>(
    declarations: &[Declaration<'a>],
    sight: &Sight<'_, 'a>,
    sites: &mut Vec<Site<'a>>,
) -> Result<(), AllocError>
    ensures { OnOk result (sites.new.items ≡ sites.old.items
        ++ flat_map (spec.in_declaration (sight_of sight.now) true)
        (map declaration_view declarations.now)) }
{
    for declared in declarations {
        note_declaration(declared, sight, true, sites)?;
    }
    Ok(())
}

/// Notes a `break` or `continue`.
fn note_leave<'a>(
    word: Token<'a>,
    is_in_loop: bool,
    sites: &mut Vec<Site<'a>>,
) -> Result<(), AllocError>
    ensures { OnOk result (sites.new.items ≡ sites.old.items
        ++ Site.LoopExit word.entry is_in_loop ∷ []) }
{
    pushed(sites, Site::LoopExit { word, is_in_loop })
}

/// Notes a state statement and its target.
fn note_move<'a>(
    around: &Around<'_, 'a>,
    word: Token<'a>,
    name: Token<'a>,
    sites: &mut Vec<Site<'a>>,
) -> Result<(), AllocError>
    ensures { OnOk result (sites.new.items ≡ sites.old.items
        ++ Site.StateChange word.entry (spec.is_clause around.now.room)
        ∷ Site.Target name.entry (number_of around.now.states.now name.entry.text.now)
        (spec.is_clause around.now.room) ∷ []) }
{
    let is_in_clause = around.room.is_clause();
    pushed(sites, Site::StateChange { word, is_in_clause })?;
    note_target(around.states, name, is_in_clause, sites)
}

/// Whether a `return` may stand in a place: in a function, with a value where the function has one.
fn may_return(value: &Option<Box<Expr>>, room: Room) -> bool
    ensures { result ≡ spec.may_return room (shown boxed value.now) }
{
    match room {
        Room::Function(has_value) => has_value == value.is_some(),
        _ => false,
    }
}

/// Notes a `return`, and the sites in its value.
fn note_return<'a>(
    value: &Option<Box<Expr<'a>>>,
    room: Room,
    word: Token<'a>,
    sight: &Sight<'_, 'a>,
    sites: &mut Vec<Site<'a>>,
) -> Result<(), AllocError>
    ensures { OnOk result (sites.new.items ≡ sites.old.items
        ++ Site.Return word.entry (spec.may_return room (shown boxed value.now))
        ∷ spec.maybe (spec.in_value (sight_of sight.now)) (shown boxed value.now)) }
{
    let may_stand = may_return(value, room);
    pushed(sites, Site::Return { word, may_stand })?;
    note_if_there(value, sight, sites)
}

/// Notes the target of a clause or of a state statement. Fails only where memory ends.
pub fn note_target<'a>(
    states: &Numbered<'a>,
    name: Token<'a>,
    may_stand: bool,
    sites: &mut Vec<Site<'a>>,
) -> Result<(), AllocError>
    ensures { OnOk result (sites.new.items ≡ sites.old.items
        ++ Site.Target name.entry (number_of states.now name.entry.text.now) may_stand ∷ []) }
{
    let state = states.find(name);
    pushed(
        sites,
        Site::Target {
            name,
            state,
            may_stand,
        },
    )
}

/// Notes the sites in a statement, in a loop or not.
#[cycle(statement)]
fn note_statement<'a>(
    alloc: Global,
    statement: &Stmt<'a>,
    around: &Around<'_, 'a>,
    sight: &Sight<'_, 'a>,
    in_loop: bool,
    sites: &mut Vec<Site<'a>>,
) -> Result<(), AllocError>
    ensures { OnOk result (sites.new.items ≡ sites.old.items
        ++ spec.in_statement around.now.room around.now.states.now (sight_of sight.now) in_loop
        (statement_view statement.now)) }
{
    match statement {
        Stmt::Empty => Ok(()),
        Stmt::Block(block) => note_block(alloc, block, around, sight, in_loop, sites),
        Stmt::Expression(value) => { note_expression(value, false, sight, Purpose::Dropped, sites) }
        Stmt::Break(word) | Stmt::Continue(word) => note_leave(*word, in_loop, sites),
        Stmt::State { word, name } => note_move(around, *word, *name, sites),
        Stmt::Return { word, value } => note_return(value, around.room, *word, sight, sites),
        Stmt::If { condition, first } => {
            note_value(condition, sight, sites)?;
            note_statement(alloc, first, around, sight, in_loop, sites)
        }
        Stmt::IfElse {
            condition,
            first,
            second,
        } => {
            note_value(condition, sight, sites)?;
            note_statement(alloc, first, around, sight, in_loop, sites)?;
            note_statement(alloc, second, around, sight, in_loop, sites)
        }
        Stmt::While {
            condition,
            body,
            ..
        } => {
            note_value(condition, sight, sites)?;
            note_statement(alloc, body, around, sight, true, sites)
        }
        Stmt::For { header, body, .. } => {
            note_header(header, sight, sites)?;
            note_statement(alloc, body, around, sight, true, sites)
        }
    }
}

/// Notes the sites in statements.
#[cycle(statement)]
fn note_statements<'a>(
    alloc: Global,
    statements: &[Stmt<'a>],
    around: &Around<'_, 'a>,
    sight: &Sight<'_, 'a>,
    in_loop: bool,
    sites: &mut Vec<Site<'a>>,
) -> Result<(), AllocError>
    ensures { OnOk result (sites.new.items ≡ sites.old.items
        ++ spec.in_statements around.now.room around.now.states.now (sight_of sight.now) in_loop
        (statement_list (map statement_view statements.now))) }
{
    for statement in statements {
        note_statement(alloc, statement, around, sight, in_loop, sites)?;
    }
    Ok(())
}

/// Notes the sites in a block. Fails only where memory ends.
#[cycle(statement)]
pub fn note_block<'a>(
    alloc: Global,
    block: &Block<'a>,
    around: &Around<'_, 'a>,
    outer: &Sight<'_, 'a>,
    in_loop: bool,
    sites: &mut Vec<Site<'a>>,
) -> Result<(), AllocError>
    ensures { OnOk result (sites.new.items ≡ sites.old.items
        ++ spec.in_block around.now.room around.now.states.now (sight_of outer.now) in_loop
        (block_view block.now)) }
{
    let scope = block_scope(alloc, block.declarations.as_slice(), &outer.scopes, sites)?;
    let sight = (&*outer).within(&scope);
    note_declarations(block.declarations.as_slice(), &sight, sites)?;
    let statements = block.statements.as_slice();
    note_statements(alloc, statements, around, &sight, in_loop, sites)
}
