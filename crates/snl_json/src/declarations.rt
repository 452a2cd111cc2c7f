//! The rows of declarations.

ghost use Rattle.std.specs.Prelude.{◌≡◌, [], ◌∷◌, false, map, codes, IfOk, OnOk};
ghost use Rattle.snl_syntax.specs.view.Expressions.{boxed};
ghost use Rattle.snl_syntax.specs.view.Declarations.{type_view, value_list, values_view, initialiser_view, declarator_view, declaration_view};
ghost use Rattle.snl_syntax.specs.view.Shown.{shown};
ghost use Rattle.snl_json.specs.Rows.{made, with_row, with_list, with_maybe, maybe_last};
ghost use Rattle.snl_json.specs.Rows.{last as spec_last};
ghost use Rattle.snl_json.specs.Expressions.{with_expression};
ghost use Rattle.snl_json.specs.Declarations as spec;

use crate::expressions::put_expression;
use crate::rows::{Part, last, maybe_word, put_empty, put_first, put_one, put_three, put_two};
use serde_json::Value;
use snl_syntax::{Declaration, Declarator, Expr, Initialiser, TypeName, Values};
use std::alloc::{AllocError, Global};

/// Puts the row of the words of a type behind others. Fails only where memory ends.
pub fn put_type<'a>(
    alloc: Global,
    type_name: TypeName<'a>,
    rows: &mut Vec<Value>,
) -> Result<(), AllocError>
    ensures { OnOk result (made rows.new.items
        ≡ spec.with_type (type_view type_name.entry) (made rows.old.items)) }
{
    put_two(
        alloc,
        "TypeTree",
        Part::Word(type_name.word),
        maybe_word(type_name.second),
        rows,
    )
}

/// Puts the row of a value with a comma behind it, that of the last row, in front of others.
fn put_value(alloc: Global, others: Part<'_>, rows: &mut Vec<Value>) -> Result<(), AllocError>
    ensures { OnOk result (made rows.new.items ≡ with_row (codes "value_before")
        (spec_last (made rows.old.items) ∷ others.entry ∷ []) (made rows.old.items)) }
{
    let value = last(rows.as_slice());
    put_two(alloc, "value_before", value, others, rows)
}

/// Puts the rows of values with a comma behind each in front of others, the last one first.
fn put_before<'a>(
    alloc: Global,
    values: &[Box<Expr<'a>>],
    rows: &mut Vec<Value>,
) -> Result<(), AllocError>
    ensures { OnOk result (made rows.new.items
        ≡ spec.with_before (map boxed values.now) (made rows.old.items)) }
{
    for number in (0..values.len()).rev() {
        let others = last(rows.as_slice());
        put_expression(alloc, &values[number], rows)?;
        put_value(alloc, others, rows)?;
    }
    Ok(())
}

/// Puts the rows of values behind others, with no comma behind the last one.
#[tactic(auto, using(crate::proofs::Forms::apart_made, crate::proofs::Lists::none_rows))]
fn put_apart<'a>(
    alloc: Global,
    values: &[Box<Expr<'a>>],
    rows: &mut Vec<Value>,
) -> Result<(), AllocError>
    ensures { OnOk result (made rows.new.items
        ≡ spec.with_values (value_list (map boxed values.now) false) (made rows.old.items)) }
{
    match values.split_last() {
        Some((value, front)) => {
            put_expression(alloc, value, rows)?;
            put_one(alloc, "last_value", last(rows.as_slice()), rows)?;
            put_before(alloc, front, rows)
        }
        None => put_empty(alloc, "no_values", rows),
    }
}

/// Puts the rows of the values of a list in braces behind others.
#[tactic(auto, using(crate::proofs::Lists::comma_rows))]
fn put_values<'a>(
    alloc: Global,
    values: &Values<'a>,
    rows: &mut Vec<Value>,
) -> Result<(), AllocError>
    ensures { OnOk result (made rows.new.items
        ≡ spec.with_values (values_view values.now) (made rows.old.items)) }
{
    if values.comma {
        put_empty(alloc, "no_values", rows)?;
        put_before(alloc, values.each.as_slice(), rows)
    } else {
        put_apart(alloc, values.each.as_slice(), rows)
    }
}

/// Puts the rows of what a variable begins with behind others.
fn put_initialiser<'a>(
    alloc: Global,
    initial: &Initialiser<'a>,
    rows: &mut Vec<Value>,
) -> Result<(), AllocError>
    ensures { OnOk result (made rows.new.items
        ≡ spec.with_initialiser (initialiser_view initial.now) (made rows.old.items)) }
{
    match initial {
        Initialiser::Single(value) => {
            put_expression(alloc, value, rows)?;
            put_one(alloc, "single", last(rows.as_slice()), rows)
        }
        Initialiser::List(values) => {
            put_values(alloc, values, rows)?;
            put_one(alloc, "listed", last(rows.as_slice()), rows)
        }
    }
}

/// The same where it may be missing; how a row names it.
fn put_maybe_initialiser<'a>(
    alloc: Global,
    initial: &Option<Initialiser<'a>>,
    rows: &mut Vec<Value>,
) -> Result<Part<'a>, AllocError>
    ensures { IfOk result (λ p.
        (p ≡ maybe_last (shown initialiser_view initial.now) (made rows.new.items))
        × (made rows.new.items ≡ with_maybe spec.with_initialiser
        (shown initialiser_view initial.now) (made rows.old.items))) }
{
    match initial {
        Some(there) => {
            put_initialiser(alloc, there, rows)?;
            Ok(last(rows.as_slice()))
        }
        None => Ok(Part::Missing),
    }
}

/// Puts the rows of a declared name behind others.
fn put_declarator<'a>(
    alloc: Global,
    declarator: &Declarator<'a>,
    rows: &mut Vec<Value>,
) -> Result<(), AllocError>
    ensures { OnOk result (made rows.new.items
        ≡ spec.with_declarator (declarator_view declarator.now) (made rows.old.items)) }
{
    put_sizes(alloc, declarator.sizes.as_slice(), rows)?;
    let sizes = last(rows.as_slice());
    let initial = put_maybe_initialiser(alloc, &declarator.initial, rows)?;
    put_three(
        alloc,
        "DeclaratorTree",
        Part::Word(declarator.name),
        sizes,
        initial,
        rows,
    )
}

/// Puts the rows of a declaration behind others. Fails only where memory ends.
pub fn put_declaration<'a>(
    alloc: Global,
    declaration: &Declaration<'a>,
    rows: &mut Vec<Value>,
) -> Result<(), AllocError>
    ensures { OnOk result (made rows.new.items
        ≡ spec.with_declaration (declaration_view declaration.now) (made rows.old.items)) }
{
    put_type(alloc, declaration.type_name, rows)?;
    let words = last(rows.as_slice());
    put_declarators(alloc, declaration.names.as_slice(), rows)?;
    put_two(alloc, "DeclarationTree", words, last(rows.as_slice()), rows)
}

/// Puts the rows of the sizes of a declared name behind others, the last one first.
fn put_sizes<'a>(
    alloc: Global,
    sizes: &[Box<Expr<'a>>],
    rows: &mut Vec<Value>,
) -> Result<(), AllocError>
    ensures { OnOk result (made rows.new.items
        ≡ with_list with_expression (map boxed sizes.now) (made rows.old.items)) }
{
    put_empty(alloc, "nil", rows)?;
    for number in (0..sizes.len()).rev() {
        let others = last(rows.as_slice());
        put_expression(alloc, &sizes[number], rows)?;
        put_first(alloc, others, rows)?;
    }
    Ok(())
}

/// Puts the rows of declared names behind others, the last one first.
fn put_declarators<'a>(
    alloc: Global,
    declarators: &[Declarator<'a>],
    rows: &mut Vec<Value>,
) -> Result<(), AllocError>
    ensures { OnOk result (made rows.new.items
        ≡ with_list spec.with_declarator (map declarator_view declarators.now)
        (made rows.old.items)) }
{
    put_empty(alloc, "nil", rows)?;
    for number in (0..declarators.len()).rev() {
        let others = last(rows.as_slice());
        put_declarator(alloc, &declarators[number], rows)?;
        put_first(alloc, others, rows)?;
    }
    Ok(())
}
