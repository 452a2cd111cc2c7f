//! What statements, blocks and declarations do, with variables and by constants.

ghost use Rattle.std.specs.Prelude.{◌≡◌, [], ◌∷◌, ◌++◌, map, OnOk};
ghost use Rattle.std.specs.List.{flat_map};
ghost use Rattle.snl_syntax.specs.view.Declarations.{type_view, initialiser_view, declarator_view, declaration_view};
ghost use Rattle.snl_syntax.specs.view.Lists.{statement_list};
ghost use Rattle.snl_syntax.specs.view.Shown.{shown, held};
ghost use Rattle.snl_syntax.specs.view.Statements.{header_view, statement_view, block_view};
ghost use Rattle.snl_names.specs.UseTables.{declared_at};
ghost use Rattle.snl_lints.specs.declared.touches.Touch.{Touch};
ghost use Rattle.snl_lints.specs.Constants.{lacks_initial};
ghost use Rattle.snl_lints.specs.Touches as spec;

use crate::constants::{lacks_initial, size_of};
use crate::expressions::{
    push_condition, push_if_there, push_maybe_condition, push_value, push_values,
};
use crate::touches::{Touch, ValueDomain, add, push_lacking};
use snl_names::UseTable;
use snl_resolve::range_of;
use snl_syntax::{Block, Declaration, Declarator, Header, Initialiser, Stmt, TypeName};
use snl_text::Token;
use std::alloc::AllocError;

/// Adds what an initialiser does, if it is there.
#[tactic(auto, using(crate::proofs::TouchLaws::touches_of_list))]
fn push_initialiser<'a>(
    initial: &Option<Initialiser<'a>>,
    uses: &UseTable,
    found: &mut Vec<Touch<'a>>,
) -> Result<(), AllocError>
    ensures { OnOk result (found.new.items ≡ found.old.items
        ++ spec.if_there (spec.in_initialiser (declared_at uses.now))
        (shown initialiser_view initial.now)) }
{
    match initial {
        None => Ok(()),
        Some(Initialiser::Single(value)) => push_value(value, uses, found),
        Some(Initialiser::List(values)) => push_values(values.each.as_slice(), uses, found),
    }
}

/// Adds that a variable is declared, and what it can hold.
fn push_declared<'a>(
    found: &mut Vec<Touch<'a>>,
    name: Token<'a>,
    holding: ValueDomain,
) -> Result<(), AllocError>
    ensures { OnOk result (found.new.items ≡ found.old.items
        ++ (Touch.Declares name.entry ∷ Touch.Holds name.entry holding ∷ [])) }
{
    add(found, Touch::Declares(name))?;
    add(found, Touch::Holds(name, holding))
}

/// Adds what a variable begins with, and whether its type lacks that.
fn push_initial<'a>(
    initial: &Option<Initialiser<'a>>,
    name: Token<'a>,
    range: Option<(i64, i64)>,
    uses: &UseTable,
    found: &mut Vec<Touch<'a>>,
) -> Result<(), AllocError>
    ensures { OnOk result (found.new.items ≡ found.old.items
        ++ (spec.when_lacking (lacks_initial (declared_at uses.now) range
        (shown initialiser_view initial.now)) name.entry
        ++ spec.if_there (spec.in_initialiser (declared_at uses.now))
        (shown initialiser_view initial.now))) }
{
    push_lacking(found, name, lacks_initial(initial, range, uses))?;
    push_initialiser(initial, uses, found)
}

/// Adds that a variable of a type is declared, and what its initialiser does.
fn push_declarator<'a>(
    declarator: &Declarator<'a>,
    type_name: TypeName<'a>,
    uses: &UseTable,
    found: &mut Vec<Touch<'a>>,
) -> Result<(), AllocError>
    ensures { OnOk result (found.new.items ≡ found.old.items
        ++ spec.in_declarator (declared_at uses.now) (type_view type_name.entry)
        (declarator_view declarator.now)) }
{
    let range = range_of(type_name);
    let holding = ValueDomain {
        range,
        size: size_of(declarator.sizes.as_slice(), uses),
    };
    push_declared(found, declarator.name, holding)?;
    push_initial(&declarator.initial, declarator.name, range, uses, found)
}

/// Adds what a declaration does. Fails only where memory ends.
pub fn push_declaration<'a>(
    declaration: &Declaration<'a>,
    uses: &UseTable,
    found: &mut Vec<Touch<'a>>,
) -> Result<(), AllocError>
    ensures { OnOk result (found.new.items ≡ found.old.items
        ++ spec.in_declaration (declared_at uses.now) (declaration_view declaration.now)) }
{
    for declarator in &declaration.names {
        push_declarator(declarator, declaration.type_name, uses, found)?;
    }
    Ok(())
}

/// Adds what declarations do.
fn push_declarations<'a>(
    declarations: &[Declaration<'a>],
    uses: &UseTable,
    found: &mut Vec<Touch<'a>>,
) -> Result<(), AllocError>
    ensures { OnOk result (found.new.items ≡ found.old.items
        ++ flat_map (spec.in_declaration (declared_at uses.now))
        (map declaration_view declarations.now)) }
{
    for declaration in declarations {
        push_declaration(declaration, uses, found)?;
    }
    Ok(())
}

/// Adds what stands between the parentheses of a `for`.
fn push_header<'a>(
    header: &Header<'a>,
    uses: &UseTable,
    found: &mut Vec<Touch<'a>>,
) -> Result<(), AllocError>
    ensures { OnOk result (found.new.items ≡ found.old.items
        ++ spec.in_header (declared_at uses.now) (header_view header.now)) }
{
    push_if_there(&header.start, uses, found)?;
    push_maybe_condition(&header.condition, uses, found)?;
    push_if_there(&header.step, uses, found)
}

/// Adds what a statement does.
#[cycle(statement)]
fn push_statement<'a>(
    statement: &Stmt<'a>,
    uses: &UseTable,
    found: &mut Vec<Touch<'a>>,
) -> Result<(), AllocError>
    ensures { OnOk result (found.new.items ≡ found.old.items
        ++ spec.in_statement (declared_at uses.now) (statement_view statement.now)) }
{
    match statement {
        Stmt::Empty | Stmt::Break(_) | Stmt::Continue(_) | Stmt::State { .. } => {}
        Stmt::Block(block) => push_block(block, uses, found)?,
        Stmt::Expression(value) => push_value(value, uses, found)?,
        Stmt::Return { value, .. } => push_if_there(value, uses, found)?,
        Stmt::If { condition, first } => {
            push_condition(condition, uses, found)?;
            push_statement(first, uses, found)?;
        }
        Stmt::IfElse {
            condition,
            first,
            second,
        } => {
            push_condition(condition, uses, found)?;
            push_statement(first, uses, found)?;
            push_statement(second, uses, found)?;
        }
        Stmt::While {
            condition,
            body,
            ..
        } => {
            push_condition(condition, uses, found)?;
            push_statement(body, uses, found)?;
        }
        Stmt::For { header, body, .. } => {
            push_header(header, uses, found)?;
            push_statement(body, uses, found)?;
        }
    }
    Ok(())
}

/// Adds what statements do.
#[cycle(statement)]
fn push_statements<'a>(
    statements: &[Stmt<'a>],
    uses: &UseTable,
    found: &mut Vec<Touch<'a>>,
) -> Result<(), AllocError>
    ensures { OnOk result (found.new.items ≡ found.old.items
        ++ spec.in_statements (declared_at uses.now)
        (statement_list (map statement_view statements.now))) }
{
    for statement in statements {
        push_statement(statement, uses, found)?;
    }
    Ok(())
}

/// Adds what a block does. Fails only where memory ends.
#[cycle(statement)]
pub fn push_block<'a>(
    block: &Block<'a>,
    uses: &UseTable,
    found: &mut Vec<Touch<'a>>,
) -> Result<(), AllocError>
    ensures { OnOk result (found.new.items ≡ found.old.items
        ++ spec.in_block (declared_at uses.now) (block_view block.now)) }
{
    push_declarations(block.declarations.as_slice(), uses, found)?;
    push_statements(block.statements.as_slice(), uses, found)
}

/// The same of a block that may be missing. Fails only where memory ends.
pub fn push_maybe_block<'a>(
    block: &Option<Box<Block<'a>>>,
    uses: &UseTable,
    found: &mut Vec<Touch<'a>>,
) -> Result<(), AllocError>
    ensures { OnOk result (found.new.items ≡ found.old.items
        ++ spec.if_there (spec.in_block (declared_at uses.now))
        (shown (held block_view) block.now)) }
{
    match block {
        Some(block) => push_block(block, uses, found),
        None => Ok(()),
    }
}
