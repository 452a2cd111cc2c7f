//! Rows, and how they are put behind others.

ghost use Rattle.std.specs.Prelude.{◌≡◌, [], ◌∷◌, ◌++◌, codes, string_bytes, IfOk, OnOk};
ghost use Rattle.serde_json.specs.Data.{string};
ghost use Rattle.serde_json.specs.View.{view, items_view};
ghost use Rattle.snl_json.specs.Rows as spec;
ghost use Rattle.snl_json.specs.Rows.{made};

use crate::kinds::kind_name;
use serde_json::Value;
use snl_text::Token;
use std::alloc::{AllocError, Global};

/// A part of a row.
#[derive(Clone, Copy)]
pub enum Part<'a> {
    /// The tree of the row with this number.
    Tree(usize),
    /// Something that may be missing, and is.
    Missing,
    /// Whether something is written in the source.
    Flag(bool),
    /// A token.
    Word(Token<'a>),
}

/// The tree of the last row.
#[tactic(auto, unfolding(crate::specs::Rows::last))]
pub fn last<'a>(rows: &[Value]) -> Part<'a>
    ensures { result ≡ spec.last (made rows.now) }
{
    Part::Tree(rows.len())
}

/// A token that may be missing.
pub fn maybe_word<'a>(word: Option<Token<'a>>) -> Part<'a>
    ensures { result ≡ spec.maybe_word word.entry }
{
    match word {
        Some(token) => Part::Word(token),
        None => Part::Missing,
    }
}

/// Bytes as letters. Fails only where memory ends.
fn letters(alloc: Global, text: &[u8]) -> Result<String, AllocError>
    ensures { IfOk result (λ s. string_bytes s ≡ spec.letters text.now) }
{
    let mut said = String::new(alloc);
    for byte in text {
        said.push(char::from(*byte))?;
    }
    Ok(said)
}

/// A token: its kind, its text and its place. Fails only where memory ends.
#[tactic(auto, unfolding(crate::specs::Rows::token_data))]
fn token_value(alloc: Global, token: Token<'_>) -> Result<Value, AllocError>
    ensures { IfOk result (λ v. view v ≡ spec.token_data token.entry) }
{
    let kind = Value::try_from_str(alloc, kind_name(token.kind))?;
    let text = Value::String(letters(alloc, token.text)?);
    let offset = Value::from(token.pos.offset as usize);
    let file = Value::from(token.pos.file as usize);
    let line = Value::from(token.pos.line as usize);
    Ok(Value::Array(vec![in alloc; kind, text, offset, file, line]?))
}

/// A part of a row. Fails only where memory ends.
#[tactic(auto, unfolding(crate::specs::Rows::part_data))]
fn part_value(alloc: Global, part: Part<'_>) -> Result<Value, AllocError>
    ensures { IfOk result (λ v. view v ≡ spec.part_data part.entry) }
{
    match part {
        Part::Tree(number) => Ok(Value::from(number)),
        Part::Missing => Ok(Value::Null),
        Part::Flag(is_written) => Ok(Value::Bool(is_written)),
        Part::Word(token) => token_value(alloc, token),
    }
}

/// Puts a value at the end of a list. Fails only where memory ends.
fn put(value: Value, values: &mut Vec<Value>) -> Result<(), AllocError>
    ensures { OnOk result (values.new.items ≡ values.old.items ++ value ∷ []) }
{
    values.push(value)?;
    Ok(())
}

/// Puts a part at the end of a row. Fails only where memory ends.
fn put_part(alloc: Global, part: Part<'_>, row: &mut Vec<Value>) -> Result<(), AllocError>
    ensures { OnOk result (made row.new.items
        ≡ made row.old.items ++ spec.part_data part.entry ∷ []) }
{
    put(part_value(alloc, part)?, row)
}

/// Puts parts at the end of a row. Fails only where memory ends.
fn put_parts(alloc: Global, parts: &[Part<'_>], row: &mut Vec<Value>) -> Result<(), AllocError>
    ensures { OnOk result (made row.new.items
        ≡ made row.old.items ++ spec.parts_listed parts.now) }
{
    for part in parts {
        put_part(alloc, *part, row)?;
    }
    Ok(())
}

/// Puts a row behind others. Fails only where memory ends.
#[tactic(auto, unfolding(crate::specs::Rows::with_row))]
fn put_row(
    alloc: Global,
    form: &str,
    parts: &[Part<'_>],
    rows: &mut Vec<Value>,
) -> Result<(), AllocError>
    ensures { OnOk result (made rows.new.items
        ≡ spec.with_row form.now parts.now (made rows.old.items)) }
{
    let mut row = Vec::new(alloc);
    put(Value::try_from_str(alloc, form)?, &mut row)?;
    put_parts(alloc, parts, &mut row)?;
    put(Value::Array(row), rows)
}

/// Puts a row without parts behind others.
pub fn put_empty(alloc: Global, form: &str, rows: &mut Vec<Value>) -> Result<(), AllocError>
    ensures { OnOk result (made rows.new.items
        ≡ spec.with_row form.now [] (made rows.old.items)) }
{
    put_row(alloc, form, &[], rows)
}

/// Puts a row of a part behind others.
pub fn put_one<'a>(
    alloc: Global,
    form: &str,
    first: Part<'a>,
    rows: &mut Vec<Value>,
) -> Result<(), AllocError>
    ensures { OnOk result (made rows.new.items ≡ spec.with_row form.now
        (first.entry ∷ []) (made rows.old.items)) }
{
    put_row(alloc, form, &[first], rows)
}

/// Puts a row of two parts behind others.
pub fn put_two<'a>(
    alloc: Global,
    form: &str,
    first: Part<'a>,
    second: Part<'a>,
    rows: &mut Vec<Value>,
) -> Result<(), AllocError>
    ensures { OnOk result (made rows.new.items ≡ spec.with_row form.now
        (first.entry ∷ second.entry ∷ []) (made rows.old.items)) }
{
    put_row(alloc, form, &[first, second], rows)
}

/// Puts a row of three parts behind others.
pub fn put_three<'a>(
    alloc: Global,
    form: &str,
    first: Part<'a>,
    second: Part<'a>,
    third: Part<'a>,
    rows: &mut Vec<Value>,
) -> Result<(), AllocError>
    ensures { OnOk result (made rows.new.items ≡ spec.with_row form.now
        (first.entry ∷ second.entry ∷ third.entry ∷ []) (made rows.old.items)) }
{
    put_row(alloc, form, &[first, second, third], rows)
}

/// Puts a row of four parts behind others.
pub fn put_four<'a>(
    alloc: Global,
    form: &str,
    first: Part<'a>,
    second: Part<'a>,
    third: Part<'a>,
    fourth: Part<'a>,
    rows: &mut Vec<Value>,
) -> Result<(), AllocError>
    ensures { OnOk result (made rows.new.items ≡ spec.with_row form.now
        (first.entry ∷ second.entry ∷ third.entry ∷ fourth.entry ∷ []) (made rows.old.items)) }
{
    put_row(alloc, form, &[first, second, third, fourth], rows)
}

/// Puts a row of six parts behind others.
pub fn put_six<'a>(
    alloc: Global,
    form: &str,
    first: Part<'a>,
    second: Part<'a>,
    third: Part<'a>,
    fourth: Part<'a>,
    fifth: Part<'a>,
    sixth: Part<'a>,
    rows: &mut Vec<Value>,
) -> Result<(), AllocError>
    ensures { OnOk result (made rows.new.items ≡ spec.with_row form.now
        (first.entry ∷ second.entry ∷ third.entry ∷ fourth.entry ∷ fifth.entry ∷ sixth.entry ∷ [])
        (made rows.old.items)) }
{
    put_row(
        alloc,
        form,
        &[first, second, third, fourth, fifth, sixth],
        rows,
    )
}

/// Puts a row of seven parts behind others.
pub fn put_seven<'a>(
    alloc: Global,
    form: &str,
    first: Part<'a>,
    second: Part<'a>,
    third: Part<'a>,
    fourth: Part<'a>,
    fifth: Part<'a>,
    sixth: Part<'a>,
    seventh: Part<'a>,
    rows: &mut Vec<Value>,
) -> Result<(), AllocError>
    ensures { OnOk result (made rows.new.items ≡ spec.with_row form.now
        (first.entry ∷ second.entry ∷ third.entry ∷ fourth.entry ∷ fifth.entry ∷ sixth.entry
        ∷ seventh.entry ∷ []) (made rows.old.items)) }
{
    put_row(
        alloc,
        form,
        &[first, second, third, fourth, fifth, sixth, seventh],
        rows,
    )
}

/// Puts the row of the list that begins with the tree of the last row, behind the tree that the others are. Fails only where memory
/// ends.
pub fn put_first(alloc: Global, others: Part<'_>, rows: &mut Vec<Value>) -> Result<(), AllocError>
    ensures { OnOk result (made rows.new.items ≡ spec.with_row (codes "cons")
        (spec.last (made rows.old.items) ∷ others.entry ∷ []) (made rows.old.items)) }
{
    let first = last(rows.as_slice());
    put_two(alloc, "cons", first, others, rows)
}
