//! What expressions are worth in every run, and what variables cannot hold of it.

ghost use Rattle.std.specs.Prelude.{◌≡◌, map};
ghost use Rattle.std.specs.List.{list_any};
ghost use Rattle.snl_names.specs.Constants.{predefined};
ghost use Rattle.snl_names.specs.Scopes.{size_by};
ghost use Rattle.snl_names.specs.Types.{is_in};
ghost use Rattle.snl_names.specs.UseTables.{declared_at};
ghost use Rattle.snl_syntax.specs.view.Declarations.{initialiser_view};
ghost use Rattle.snl_syntax.specs.view.Expressions.{view, boxed, pair_of};
ghost use Rattle.snl_syntax.specs.view.Lists.{term_list};
ghost use Rattle.snl_syntax.specs.view.Shown.{shown};
ghost use Rattle.snl_lints.specs.Constants as spec;

use crate::touches::ValueDomain;
use snl_names::constants::{chosen, joined, of_token, prefixed, worth};
use snl_names::{Constant, Size, UseTable, predefined};
use snl_syntax::{Expr, Initialiser, Term};
use snl_text::Token;

/// What a name is worth: it is constant where it is predefined and has no declaration.
fn worth_of_name(name: Token, uses: &UseTable) -> Constant
    ensures { result ≡ spec.unless_declared (declared_at uses.now name.entry.pos.offset)
        (predefined name.entry.text.now) }
{
    match uses.declared(name.pos.offset as usize) {
        Some(_) => Constant::Varies,
        None => worth(predefined(name.text)),
    }
}

/// What an expression is worth in every run.
#[cycle(worth)]
pub fn worth_of<'a>(expression: &Expr<'a>, uses: &UseTable) -> Constant
    ensures { result ≡ spec.worth_of (declared_at uses.now) (view expression.now) }
{
    match expression {
        Expr::Constant(token) => of_token(*token),
        Expr::Parenthesized(inner) => worth_of(inner, uses),
        Expr::Named(name) => worth_of_name(*name, uses),
        Expr::Prefix(operator, operand) => prefixed(operator.kind, worth_of(operand, uses)),
        Expr::Chain(first, terms) => worth_of_chain(terms.as_slice(), uses, worth_of(first, uses)),
        Expr::Conditional { condition, yes, no } => chosen(
            worth_of(condition, uses),
            worth_of(yes, uses),
            worth_of(no, uses),
        ),
        Expr::Element { .. } | Expr::Call(..) | Expr::Postfix(..) | Expr::Assignment { .. } => {
            Constant::Varies
        }
    }
}

/// What operators and their operands make of what stands to the left of them.
#[cycle(worth)]
fn worth_of_chain<'a>(terms: &[Term<'a>], uses: &UseTable, first: Constant) -> Constant
    ensures { result ≡ spec.worth_chain (declared_at uses.now) (term_list (map pair_of terms.now))
        first }
{
    let mut left = first;
    for term in terms {
        left = joined(term.operator.kind, left, worth_of(&term.operand, uses));
    }
    left
}

/// What a constant says as the size of an array.
fn size_by(constant: Constant) -> Size
    ensures { result ≡ size_by constant }
{
    match constant {
        Constant::Worth(number) => match usize::try_from(number) {
            Ok(0) | Err(_) => Size::Wrong,
            Ok(count) => {
                if count <= 1024 {
                    Size::Array(count as u32)
                } else {
                    Size::TooLong
                }
            }
        },
        _ => Size::Wrong,
    }
}

/// What the sizes after a declared name say.
pub fn size_of<'a>(sizes: &[Box<Expr<'a>>], uses: &UseTable) -> Size
    ensures { result ≡ spec.size_of (declared_at uses.now) (map boxed sizes.now) }
{
    match sizes {
        [] => Size::Scalar,
        [size] => size_by(worth_of(size, uses)),
        _ => Size::Wrong,
    }
}

/// Whether a type has a number; one that is not supported counts as `long`.
fn is_in(range: Option<(i64, i64)>, number: i64) -> bool
    ensures { result ≡ is_in range number }
{
    match range {
        Some((least, greatest)) => least <= number && number <= greatest,
        None => true,
    }
}

/// Whether a constant is a number that a type lacks.
fn lacks(range: Option<(i64, i64)>, constant: Constant) -> bool
    ensures { result ≡ spec.lacks range constant }
{
    match constant {
        Constant::Worth(number) => !is_in(range, number),
        _ => false,
    }
}

/// Whether a type lacks some of these values.
fn lacks_some<'a>(values: &[Box<Expr<'a>>], range: Option<(i64, i64)>, uses: &UseTable) -> bool
    ensures { result ≡ list_any (λ e. spec.lacks range (spec.worth_of (declared_at uses.now) e))
        (map boxed values.now) }
{
    for value in values {
        if lacks(range, worth_of(value, uses)) {
            return true;
        }
    }
    false
}

/// Whether the type of a variable lacks what it begins with.
#[tactic(auto, using(crate::proofs::ConstantLaws::lacks_of_list))]
pub fn lacks_initial<'a>(
    initial: &Option<Initialiser<'a>>,
    range: Option<(i64, i64)>,
    uses: &UseTable,
) -> bool
    ensures { result ≡ spec.lacks_initial (declared_at uses.now) range
        (shown initialiser_view initial.now) }
{
    match initial {
        None => false,
        Some(Initialiser::Single(value)) => lacks(range, worth_of(value, uses)),
        Some(Initialiser::List(values)) => lacks_some(values.each.as_slice(), range, uses),
    }
}

/// Whether a number counts no element of an array of so many.
fn is_outside(size: usize, number: i64) -> bool
    ensures { result ≡ spec.is_outside size number }
{
    match usize::try_from(number) {
        Ok(element) => size <= element,
        Err(_) => true,
    }
}

/// Whether a variable with elements has none of this number.
fn misses(size: Size, number: i64) -> bool
    ensures { result ≡ spec.misses size number }
{
    match size {
        Size::Array(count) => is_outside(count as usize, number),
        _ => false,
    }
}

/// Whether a variable is known, and its type lacks a number.
pub fn lacks_number(held: Option<ValueDomain>, number: i64) -> bool
    ensures { result ≡ spec.lacks_number held number }
{
    match held {
        Some(held) => !is_in(held.range, number),
        None => false,
    }
}

/// Whether a variable is known, and has no element of a number.
pub fn misses_element(held: Option<ValueDomain>, number: i64) -> bool
    ensures { result ≡ spec.misses_element held number }
{
    match held {
        Some(held) => misses(held.size, number),
        None => false,
    }
}
