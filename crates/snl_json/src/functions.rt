//! The rows of functions.

ghost use Rattle.std.specs.Prelude.{◌≡◌, map, IfOk, OnOk};
ghost use Rattle.snl_syntax.specs.view.Declarations.{type_view};
ghost use Rattle.snl_syntax.specs.view.Functions.{parameter_view, parameters_view, function_view};
ghost use Rattle.snl_syntax.specs.view.Shown.{shown};
ghost use Rattle.snl_syntax.specs.view.Statements.{block_view};
ghost use Rattle.snl_json.specs.Rows.{made, with_list, with_maybe, maybe_last};
ghost use Rattle.snl_json.specs.Declarations.{with_type};
ghost use Rattle.snl_json.specs.Functions as spec;

use crate::declarations::put_type;
use crate::rows::{Part, last, put_empty, put_first, put_four, put_two};
use crate::statements::put_block;
use serde_json::Value;
use snl_syntax::{Block, Function, Parameter, Parameters, TypeName};
use snl_text::Token;
use std::alloc::{AllocError, Global};

/// Puts the rows of a parameter behind others.
fn put_parameter<'a>(
    alloc: Global,
    parameter: &Parameter<'a>,
    rows: &mut Vec<Value>,
) -> Result<(), AllocError>
    ensures { OnOk result (made rows.new.items
        ≡ spec.with_parameter (parameter_view parameter.now) (made rows.old.items)) }
{
    put_type(alloc, parameter.type_name, rows)?;
    put_two(
        alloc,
        "ParameterTree",
        last(rows.as_slice()),
        Part::Word(parameter.name),
        rows,
    )
}

/// Puts the rows of what stands in the parentheses of a function behind others.
fn put_parameters<'a>(
    alloc: Global,
    parameters: &Parameters<'a>,
    rows: &mut Vec<Value>,
) -> Result<(), AllocError>
    ensures { OnOk result (made rows.new.items
        ≡ spec.with_parameters (parameters_view parameters.now) (made rows.old.items)) }
{
    put_each_parameter(alloc, parameters.each.as_slice(), rows)?;
    put_two(
        alloc,
        "ParametersTree",
        Part::Flag(parameters.void),
        last(rows.as_slice()),
        rows,
    )
}

/// Puts the row of the words of a type that may be missing behind others; how a row names it.
fn put_maybe_type<'a>(
    alloc: Global,
    type_name: Option<TypeName<'a>>,
    rows: &mut Vec<Value>,
) -> Result<Part<'a>, AllocError>
    ensures { IfOk result (λ p.
        (p ≡ maybe_last (shown type_view type_name.entry) (made rows.new.items))
        × (made rows.new.items ≡ with_maybe with_type (shown type_view type_name.entry)
        (made rows.old.items))) }
{
    match type_name {
        Some(there) => {
            put_type(alloc, there, rows)?;
            Ok(last(rows.as_slice()))
        }
        None => Ok(Part::Missing),
    }
}

/// Puts the rows of the body of a function behind others, of which the last one is that of its parameters, and the row of the function.
fn put_body<'a>(
    alloc: Global,
    body: &Block<'a>,
    words: Part<'a>,
    name: Token<'a>,
    rows: &mut Vec<Value>,
) -> Result<(), AllocError>
    ensures { OnOk result (made rows.new.items ≡ spec.with_body words.entry name.entry
        (block_view body.now) (made rows.old.items)) }
{
    let parameters = last(rows.as_slice());
    put_block(alloc, body, rows)?;
    let body = last(rows.as_slice());
    put_four(
        alloc,
        "FunctionTree",
        words,
        Part::Word(name),
        parameters,
        body,
        rows,
    )
}

/// Puts the rows of a function behind others. Fails only where memory ends.
pub fn put_function<'a>(
    alloc: Global,
    function: &Function<'a>,
    rows: &mut Vec<Value>,
) -> Result<(), AllocError>
    ensures { OnOk result (made rows.new.items
        ≡ spec.with_function (function_view function.now) (made rows.old.items)) }
{
    let words = put_maybe_type(alloc, function.type_name, rows)?;
    put_parameters(alloc, &function.parameters, rows)?;
    put_body(alloc, &function.body, words, function.name, rows)
}

/// Puts the rows of parameters behind others, the last one first.
fn put_each_parameter<'a>(
    alloc: Global,
    parameters: &[Parameter<'a>],
    rows: &mut Vec<Value>,
) -> Result<(), AllocError>
    ensures { OnOk result (made rows.new.items
        ≡ with_list spec.with_parameter (map parameter_view parameters.now) (made rows.old.items)) }
{
    put_empty(alloc, "nil", rows)?;
    for number in (0..parameters.len()).rev() {
        let others = last(rows.as_slice());
        put_parameter(alloc, &parameters[number], rows)?;
        put_first(alloc, others, rows)?;
    }
    Ok(())
}
