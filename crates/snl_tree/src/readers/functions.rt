//! The readers of functions (SNL Reference, "Function Definitions"), and of the definitions of a program among which
//! they stand. A declaration and a function both begin with a type and a name: so that far both are read alike, and
//! then a parenthesis tells them apart.

ghost use Rattle.std.specs.Prelude.{◌<◌, Some, None};
ghost use Rattle.snl_tree.specs.reading.Sequences as sequences;
ghost use Rattle.snl_syntax.specs.view.Shown.{shown};
ghost use Rattle.snl_tree.specs.reading.Functions as specs;
ghost use Rattle.snl_tree.specs.reading.Readers.{made};
ghost use Rattle.snl_tree.specs.reading.Moves.{Adds, Moves};
ghost use Rattle.snl_syntax.specs.view.Declarations.{type_view};
ghost use Rattle.snl_syntax.specs.view.Functions.{parameter_view, parameter_views, parameters_view};
ghost use Rattle.snl_syntax.specs.view.Definitions.{definition_view, definition_views};

use crate::readers::boxes::definitions::push_variables;
use crate::readers::boxes::functions::push_function;
use crate::readers::cursor::{Cursor, Halt, at, sign, token};
use crate::readers::declarations::{at_declaration, declarator_of, declarators_of, type_name};
use crate::readers::definitions::other;
use crate::readers::options::setting;
use crate::readers::parts::at_program_part;
use crate::readers::room::pushed;
use crate::readers::statements::block;
use snl_syntax::{Def, Parameter, Parameters, TypeName};
use snl_text::{Kind, Token};
use std::alloc::Global;

/// Reads a parameter.
#[tactic(auto, unfolding(crate::specs::reading::Functions::parameter_at))]
fn parameter<'a, 't>(cursor: &mut Cursor<'a, 't>) -> Result<Parameter<'a>, Halt>
    ensures { Moves parameter_view result cursor.new.left.now
        (specs.parameter_at cursor.old.left.now) }
{
    let type_name = type_name(cursor)?;
    let name = token(cursor, Kind::Name)?;
    Ok(Parameter { type_name, name })
}

/// Reads a comma and the parameter after it.
fn next_parameter<'a, 't>(cursor: &mut Cursor<'a, 't>) -> Result<Parameter<'a>, Halt>
    ensures { Moves parameter_view result cursor.new.left.now
        (sequences.behind Kind.Comma specs.parameter_at cursor.old.left.now) }
{
    sign(cursor, Kind::Comma)?;
    let next = parameter(cursor)?;
    Ok(next)
}

/// Reads parameters with commas between them.
fn parameter_row<'a, 't>(
    alloc: Global,
    cursor: &mut Cursor<'a, 't>,
) -> Result<Vec<Parameter<'a>>, Halt>
    ensures { Moves parameter_views result cursor.new.left.now
        (specs.parameter_row_at cursor.old.left.now) }
{
    let mut found = Vec::new(alloc);
    let first = parameter(cursor)?;
    pushed(&mut found, first)?;
    while at(cursor, Kind::Comma) {
        let next = next_parameter(cursor)?;
        pushed(&mut found, next)?;
    }
    Ok(found)
}

/// Reads what stands between the parentheses of a function: parameters, `void`, or nothing.
fn parameters<'a, 't>(alloc: Global, cursor: &mut Cursor<'a, 't>) -> Result<Parameters<'a>, Halt>
    ensures { Moves parameters_view result cursor.new.left.now
        (specs.parameters_at cursor.old.left.now) }
{
    if at(cursor, Kind::Void) {
        sign(cursor, Kind::Void)?;
        let each = Vec::new(alloc);
        return Ok(Parameters { void: true, each });
    }
    if !at_declaration(cursor) {
        let each = Vec::new(alloc);
        return Ok(Parameters { void: false, each });
    }
    let each = parameter_row(alloc, cursor)?;
    Ok(Parameters { void: false, each })
}

/// Reads a function from its parameters on, and puts it at the end of a row.
fn function<'a, 't>(
    alloc: Global,
    cursor: &mut Cursor<'a, 't>,
    depth: usize,
    row: &mut Vec<Def<'a>>,
    type_name: Option<TypeName<'a>>,
    name: Token<'a>,
) -> Result<(), Halt>
    ensures { Adds definition_view row.old.items result row.new.items cursor.new.left.now
        (made (specs.function_of (shown type_view type_name.entry) name.entry)
        (specs.function_rest_at depth) cursor.old.left.now) }
{
    sign(cursor, Kind::OpenParenthesis)?;
    let parameters = parameters(alloc, cursor)?;
    sign(cursor, Kind::CloseParenthesis)?;
    let body = block(alloc, cursor, depth, depth)?;
    push_function(alloc, row, type_name, name, parameters, body)
}

/// Reads a declaration from behind its first name on, and puts it at the end of a row.
#[tactic(auto, using(crate::proofs::code::FunctionForms::variables_form))]
fn variables<'a, 't>(
    alloc: Global,
    cursor: &mut Cursor<'a, 't>,
    depth: usize,
    row: &mut Vec<Def<'a>>,
    type_name: TypeName<'a>,
    name: Token<'a>,
) -> Result<(), Halt>
    ensures { Adds definition_view row.old.items result row.new.items cursor.new.left.now
        (made (specs.variables_of (type_view type_name.entry) name.entry)
        (specs.variable_rest_at depth) cursor.old.left.now) }
{
    let first = declarator_of(alloc, cursor, depth, name)?;
    let names = declarators_of(alloc, cursor, depth, first)?;
    sign(cursor, Kind::Semicolon)?;
    push_variables(row, type_name, names)
}

/// Reads a function with a value, or a declaration, and puts it at the end of a row.
#[tactic(auto, using(crate::proofs::code::FunctionForms::typed_form))]
fn typed<'a, 't>(
    alloc: Global,
    cursor: &mut Cursor<'a, 't>,
    depth: usize,
    row: &mut Vec<Def<'a>>,
) -> Result<(), Halt>
    ensures { Adds definition_view row.old.items result row.new.items cursor.new.left.now
        (made specs.typed (specs.typed_at depth) cursor.old.left.now) }
{
    let type_name = type_name(cursor)?;
    let name = token(cursor, Kind::Name)?;
    if at(cursor, Kind::OpenParenthesis) {
        return function(alloc, cursor, depth, row, Some(type_name), name);
    }
    variables(alloc, cursor, depth, row, type_name, name)
}

/// Reads a function without a value, and puts it at the end of a row.
#[tactic(auto, using(crate::proofs::code::FunctionForms::void_form))]
fn void<'a, 't>(
    alloc: Global,
    cursor: &mut Cursor<'a, 't>,
    depth: usize,
    row: &mut Vec<Def<'a>>,
) -> Result<(), Halt>
    ensures { Adds definition_view row.old.items result row.new.items cursor.new.left.now
        (made (λ x. specs.function_of None x.0 x.1) (specs.void_at depth) cursor.old.left.now) }
{
    sign(cursor, Kind::Void)?;
    let name = token(cursor, Kind::Name)?;
    function(alloc, cursor, depth, row, None, name)
}

/// Reads a definition, an option or a function, and puts it at the end of a row.
#[tactic(auto, using(crate::proofs::code::FunctionForms::program_part_cases))]
fn program_part<'a, 't>(
    alloc: Global,
    cursor: &mut Cursor<'a, 't>,
    depth: usize,
    row: &mut Vec<Def<'a>>,
) -> Result<(), Halt>
    ensures { Adds definition_view row.old.items result row.new.items cursor.new.left.now
        (specs.program_part_at depth cursor.old.left.now) }
{
    if at(cursor, Kind::Void) {
        return void(alloc, cursor, depth, row);
    }
    if at_declaration(cursor) {
        return typed(alloc, cursor, depth, row);
    }
    if at(cursor, Kind::OptionWord) {
        return setting(cursor, row);
    }
    other(alloc, cursor, depth, row)
}

/// Reads the definitions, options and functions of a program.
pub fn program_parts<'a, 't>(
    alloc: Global,
    cursor: &mut Cursor<'a, 't>,
    depth: usize,
) -> Result<Vec<Def<'a>>, Halt>
    requires { 0 < depth }
    ensures { Moves definition_views result cursor.new.left.now
        (specs.program_parts_at depth cursor.old.left.now) }
{
    let mut found = Vec::new(alloc);
    while at_program_part(cursor) {
        program_part(alloc, cursor, depth, &mut found)?;
    }
    Ok(found)
}
