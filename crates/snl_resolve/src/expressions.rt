//! The sites in expressions.

ghost use Rattle.std.specs.Prelude.{◌≡◌, ◌∷◌, ◌++◌, true, map, OnOk};
ghost use Rattle.snl_syntax.specs.view.Expressions.{view, pair_of, list_before};
ghost use Rattle.snl_syntax.specs.view.Lists.{term_list};
ghost use Rattle.snl_syntax.specs.Expressions.{no_arguments, call, postfix, prefix};
ghost use Rattle.snl_names.specs.Calls as calls;
ghost use Rattle.snl_names.specs.Calls.{unless};
ghost use Rattle.snl_names.specs.Purposes.{inner};
ghost use Rattle.snl_names.specs.Scopes.{meaning};
ghost use Rattle.snl_names.specs.Sites as spec;
ghost use Rattle.snl_resolve.specs.Seen.{sight_of};

use crate::sights::Sight;
use crate::tokens::{note_call, note_change, note_constant, note_format, note_prefix, note_use};
use snl_names::{Purpose, Site, builtin_of, is_word, word_at};
use snl_syntax::{Argument, Expr, Term};
use snl_text::Token;
use std::alloc::AllocError;

/// Notes the sites in an expression that stands in a clause's condition or not, for a purpose.
/// Fails only where memory ends.
#[cycle(expression)]
pub fn note_expression<'a>(
    expression: &Expr<'a>,
    in_condition: bool,
    sight: &Sight<'_, 'a>,
    purpose: Purpose,
    sites: &mut Vec<Site<'a>>,
) -> Result<(), AllocError>
    ensures { OnOk result (sites.new.items ≡ sites.old.items
        ++ spec.in_expression in_condition (sight_of sight.now) purpose (view expression.now)) }
{
    let inner = purpose.inner();
    match expression {
        Expr::Constant(token) => note_constant(purpose, *token, sites),
        Expr::Named(name) => note_use(&sight.scopes, purpose, *name, false, sites),
        Expr::Parenthesized(part) => {
            note_expression(part, in_condition, sight, purpose.in_parentheses(), sites)
        }
        Expr::Element { name, index, .. } => {
            note_element(index, in_condition, sight, purpose, *name, sites)
        }
        Expr::Call(name, arguments) => {
            let arguments = arguments.as_slice();
            note_called(arguments, in_condition, sight, purpose, *name, sites)
        }
        Expr::Postfix(target, operator) => {
            note_changed(target, in_condition, sight, purpose, *operator, sites)
        }
        Expr::Prefix(operator, operand) => {
            note_prefixed(operand, in_condition, sight, purpose, *operator, sites)
        }
        Expr::Chain(first, terms) => {
            note_expression(first, in_condition, sight, inner, sites)?;
            note_terms(terms.as_slice(), in_condition, sight, inner, sites)
        }
        Expr::Conditional { condition, yes, no } => {
            note_expression(condition, in_condition, sight, inner, sites)?;
            note_expression(yes, in_condition, sight, inner, sites)?;
            note_expression(no, in_condition, sight, inner, sites)
        }
        Expr::Assignment {
            target,
            operator,
            value,
        } => {
            note_changed(target, in_condition, sight, purpose, *operator, sites)?;
            note_expression(value, in_condition, sight, inner, sites)
        }
    }
}

/// Notes the use of an element, and the sites in its subscript.
#[cycle(expression)]
fn note_element<'a>(
    index: &Expr<'a>,
    in_condition: bool,
    sight: &Sight<'_, 'a>,
    purpose: Purpose,
    name: Token<'a>,
    sites: &mut Vec<Site<'a>>,
) -> Result<(), AllocError>
    ensures { OnOk result (sites.new.items ≡ sites.old.items
        ++ Site.Use purpose name.entry (meaning (sight_of sight.now).scopes name.entry) true
        ∷ spec.in_expression in_condition (sight_of sight.now) (inner purpose) (view index.now)) }
{
    note_use(&sight.scopes, purpose, name, true, sites)?;
    note_expression(index, in_condition, sight, purpose.inner(), sites)
}

/// Notes a call, and the sites in its arguments.
#[cycle(expression)]
fn note_called<'a>(
    arguments: &[Argument<'a>],
    in_condition: bool,
    sight: &Sight<'_, 'a>,
    purpose: Purpose,
    name: Token<'a>,
    sites: &mut Vec<Site<'a>>,
) -> Result<(), AllocError>
    ensures { OnOk result (sites.new.items ≡ sites.old.items
        ++ spec.in_expression in_condition (sight_of sight.now) purpose
        (call name.entry (list_before arguments.now no_arguments))) }
{
    let inside = note_call(arguments, sight, purpose, in_condition, name, sites)?;
    let word = word_at(builtin_of(name.text));
    note_arguments(arguments, in_condition, sight, inside, word, sites)
}

/// Notes an operator that changes its target, and the sites in the target.
#[cycle(expression)]
fn note_changed<'a>(
    target: &Expr<'a>,
    in_condition: bool,
    sight: &Sight<'_, 'a>,
    purpose: Purpose,
    operator: Token<'a>,
    sites: &mut Vec<Site<'a>>,
) -> Result<(), AllocError>
    ensures { OnOk result (sites.new.items ≡ sites.old.items
        ++ spec.in_expression in_condition (sight_of sight.now) purpose
        (postfix (view target.now) operator.entry)) }
{
    note_change(purpose, target, operator, sites)?;
    note_expression(target, in_condition, sight, purpose.target(), sites)
}

/// Notes a prefix operator, and the sites in its operand.
#[cycle(expression)]
fn note_prefixed<'a>(
    operand: &Expr<'a>,
    in_condition: bool,
    sight: &Sight<'_, 'a>,
    purpose: Purpose,
    operator: Token<'a>,
    sites: &mut Vec<Site<'a>>,
) -> Result<(), AllocError>
    ensures { OnOk result (sites.new.items ≡ sites.old.items
        ++ spec.in_expression in_condition (sight_of sight.now) purpose
        (prefix operator.entry (view operand.now))) }
{
    let inside = note_prefix(operand, purpose, operator, sites)?;
    note_expression(operand, in_condition, sight, inside, sites)
}

/// Notes the sites in the operands of a chain but the first.
#[cycle(expression)]
fn note_terms<'a>(
    terms: &[Term<'a>],
    in_condition: bool,
    sight: &Sight<'_, 'a>,
    purpose: Purpose,
    sites: &mut Vec<Site<'a>>,
) -> Result<(), AllocError>
    ensures { OnOk result (sites.new.items ≡ sites.old.items
        ++ spec.in_terms in_condition (sight_of sight.now) purpose (term_list
        (map pair_of terms.now))) }
{
    for term in terms {
        note_expression(&term.operand, in_condition, sight, purpose, sites)?;
    }
    Ok(())
}

/// Notes the sites in the arguments of a call, so many up to the one that may be the word `ASYNC`.
#[cycle(expression)]
fn note_arguments<'a>(
    arguments: &[Argument<'a>],
    in_condition: bool,
    sight: &Sight<'_, 'a>,
    purpose: Purpose,
    word: usize,
    sites: &mut Vec<Site<'a>>,
) -> Result<(), AllocError>
    ensures { OnOk result (sites.new.items ≡ sites.old.items
        ++ spec.in_arguments in_condition (sight_of sight.now) purpose word
        (list_before arguments.now no_arguments)) }
{
    let mut left = arguments.len();
    let mut until = word;
    for argument in arguments {
        left -= 1;
        match argument {
            Argument::Value(value) => {
                note_argument(value, in_condition, sight, purpose, until, sites)?;
            }
            Argument::Text(format) => note_format(purpose, *format, left, sites)?,
        }
        until = until.saturating_sub(1);
    }
    Ok(())
}

/// Notes the sites in an argument that is no string. Where one is left up to it, it may be the word `ASYNC`, in which nothing is noted.
#[cycle(expression)]
fn note_argument<'a>(
    value: &Expr<'a>,
    in_condition: bool,
    sight: &Sight<'_, 'a>,
    purpose: Purpose,
    word: usize,
    sites: &mut Vec<Site<'a>>,
) -> Result<(), AllocError>
    ensures { OnOk result (sites.new.items ≡ sites.old.items
        ++ unless (calls.is_word word (view value.now))
        (spec.in_expression in_condition (sight_of sight.now) purpose (view value.now))) }
{
    if is_word(word, value) {
        return Ok(());
    }
    note_expression(value, in_condition, sight, purpose, sites)
}
