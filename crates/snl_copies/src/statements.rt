//! What statements and blocks do by the names in them.

ghost use Rattle.std.specs.Prelude.{◌≡◌, ◌++◌, map, OnOk};
ghost use Rattle.std.specs.List.{flat_map};
ghost use Rattle.snl_syntax.specs.view.Declarations.{initialiser_view, declarator_view, declaration_view};
ghost use Rattle.snl_syntax.specs.view.Lists.{statement_list};
ghost use Rattle.snl_syntax.specs.view.Shown.{shown, held};
ghost use Rattle.snl_syntax.specs.view.Statements.{header_view, statement_view, block_view};
ghost use Rattle.snl_copies.specs.Code as spec;

use crate::expressions::{push_if_there, push_value, push_values};
use crate::touches::Touch;
use snl_syntax::{Block, Declaration, Declarator, Header, Initialiser, Stmt};
use std::alloc::AllocError;

/// Adds what an initialiser does, if it is there.
#[tactic(auto, using(crate::proofs::CodeLaws::code_of_list))]
fn push_initialiser<'a>(
    initial: &Option<Initialiser<'a>>,
    code: &mut Vec<Touch<'a>>,
) -> Result<(), AllocError>
    ensures { OnOk result (code.new.items ≡ code.old.items
        ++ spec.if_there spec.in_initialiser (shown initialiser_view initial.now)) }
{
    match initial {
        None => Ok(()),
        Some(Initialiser::Single(value)) => push_value(value, code),
        Some(Initialiser::List(values)) => push_values(values.each.as_slice(), code),
    }
}

/// Adds that a variable of a block begins.
fn push_declarator<'a>(
    declarator: &Declarator<'a>,
    code: &mut Vec<Touch<'a>>,
) -> Result<(), AllocError>
    ensures { OnOk result (code.new.items ≡ code.old.items
        ++ spec.in_declarator (declarator_view declarator.now)) }
{
    code.push(Touch::Begins(declarator.name))?;
    push_initialiser(&declarator.initial, code)
}

/// Adds that the variables of a declaration begin.
fn push_declaration<'a>(
    declaration: &Declaration<'a>,
    code: &mut Vec<Touch<'a>>,
) -> Result<(), AllocError>
    ensures { OnOk result (code.new.items ≡ code.old.items
        ++ spec.in_declaration (declaration_view declaration.now)) }
{
    for declarator in &declaration.names {
        push_declarator(declarator, code)?;
    }
    Ok(())
}

/// Adds that the variables of some declarations begin.
fn push_declarations<'a>(
    declarations: &[Declaration<'a>],
    code: &mut Vec<Touch<'a>>,
) -> Result<(), AllocError>
    ensures { OnOk result (code.new.items ≡ code.old.items
        ++ flat_map spec.in_declaration (map declaration_view declarations.now)) }
{
    for declaration in declarations {
        push_declaration(declaration, code)?;
    }
    Ok(())
}

/// Adds what stands between the parentheses of a `for`.
fn push_header<'a>(header: &Header<'a>, code: &mut Vec<Touch<'a>>) -> Result<(), AllocError>
    ensures { OnOk result (code.new.items ≡ code.old.items
        ++ spec.in_header (header_view header.now)) }
{
    push_if_there(&header.start, code)?;
    push_if_there(&header.condition, code)?;
    push_if_there(&header.step, code)
}

/// Adds what a statement does.
#[cycle(statement)]
fn push_statement<'a>(statement: &Stmt<'a>, code: &mut Vec<Touch<'a>>) -> Result<(), AllocError>
    ensures { OnOk result (code.new.items ≡ code.old.items
        ++ spec.in_statement (statement_view statement.now)) }
{
    match statement {
        Stmt::Empty | Stmt::Break(_) | Stmt::Continue(_) => {}
        Stmt::Block(block) => push_block(block, code)?,
        Stmt::Expression(value) => push_value(value, code)?,
        Stmt::State { name, .. } => code.push(Touch::Leads(*name))?,
        Stmt::Return { value, .. } => push_if_there(value, code)?,
        Stmt::If { condition, first } => {
            push_value(condition, code)?;
            push_statement(first, code)?;
        }
        Stmt::IfElse {
            condition,
            first,
            second,
        } => {
            push_value(condition, code)?;
            push_statement(first, code)?;
            push_statement(second, code)?;
        }
        Stmt::While {
            condition,
            body,
            ..
        } => {
            push_value(condition, code)?;
            push_statement(body, code)?;
        }
        Stmt::For { header, body, .. } => {
            push_header(header, code)?;
            push_statement(body, code)?;
        }
    }
    Ok(())
}

/// Adds what statements do.
#[cycle(statement)]
fn push_statements<'a>(statements: &[Stmt<'a>], code: &mut Vec<Touch<'a>>) -> Result<(), AllocError>
    ensures { OnOk result (code.new.items ≡ code.old.items
        ++ spec.in_statements (statement_list (map statement_view statements.now))) }
{
    for statement in statements {
        push_statement(statement, code)?;
    }
    Ok(())
}

/// Adds what a block does. Fails only where memory ends.
#[cycle(statement)]
pub fn push_block<'a>(block: &Block<'a>, code: &mut Vec<Touch<'a>>) -> Result<(), AllocError>
    ensures { OnOk result (code.new.items ≡ code.old.items
        ++ spec.in_block (block_view block.now)) }
{
    push_declarations(block.declarations.as_slice(), code)?;
    push_statements(block.statements.as_slice(), code)
}

/// The same of a block that may be missing. Fails only where memory ends.
pub fn push_maybe_block<'a>(
    block: &Option<Box<Block<'a>>>,
    code: &mut Vec<Touch<'a>>,
) -> Result<(), AllocError>
    ensures { OnOk result (code.new.items ≡ code.old.items
        ++ spec.if_there spec.in_block (shown (held block_view) block.now)) }
{
    match block {
        Some(block) => push_block(block, code),
        None => Ok(()),
    }
}
