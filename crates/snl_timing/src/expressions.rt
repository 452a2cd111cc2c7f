//! Whether each `delay` in an expression is short.

ghost use Rattle.std.specs.Prelude.{[], ◌∷◌, map, IsTrue, Some};
ghost use Rattle.snl_alike.specs.Delays.{DelaysAmong, DelaysBehind, DelaysEach, DelaysIn, DelaysMaybe, DelaysOf, IsShort};
ghost use Rattle.snl_names.specs.declared.builtins.Builtin.TheVariants.{Delay};
ghost use Rattle.snl_syntax.specs.view.Expressions.{view, boxed, pair_of, list_before};
ghost use Rattle.snl_syntax.specs.view.Lists.{term_list};
ghost use Rattle.snl_syntax.specs.view.Shown.{shown};
ghost use Rattle.snl_syntax.specs.Expressions.{call, no_arguments};

use crate::constants::is_short;
use snl_names::{Builtin, builtin_of};
use snl_syntax::{Argument, Expr, Term};
use snl_text::Token;

/// Whether an argument is short; a string is no matter.
fn is_short_argument<'a>(longest: u32, argument: &Argument<'a>) -> bool
    ensures { IsTrue result → DelaysOf (IsShort (Some longest)) (Some Delay)
        (list_before (argument.now ∷ []) no_arguments) }
{
    match argument {
        Argument::Value(value) => is_short(longest, value),
        Argument::Text(_) => true,
    }
}

/// Whether the first argument of a `delay` is short; that of any other call is of no matter.
fn is_short_call<'a>(longest: u32, builtin: Option<Builtin>, arguments: &[Argument<'a>]) -> bool
    ensures { IsTrue result → DelaysOf (IsShort (Some longest)) builtin
        (list_before arguments.now no_arguments) }
{
    match builtin {
        Some(Builtin::Delay) => match arguments {
            [first, ..] => is_short_argument(longest, first),
            _ => true,
        },
        _ => true,
    }
}

/// Whether each `delay` in an expression is short.
#[cycle(expression)]
pub fn are_short_in<'a>(longest: u32, expression: &Expr<'a>) -> bool
    ensures { IsTrue result → DelaysIn (IsShort (Some longest)) (view expression.now) }
{
    match expression {
        Expr::Constant(_) | Expr::Named(_) => true,
        Expr::Parenthesized(part) => are_short_in(longest, part),
        Expr::Element { index, .. } => are_short_in(longest, index),
        Expr::Call(name, arguments) => is_short_called(longest, arguments.as_slice(), *name),
        Expr::Postfix(target, _) => are_short_in(longest, target),
        Expr::Prefix(_, operand) => are_short_in(longest, operand),
        Expr::Chain(first, terms) => {
            are_short_in(longest, first) && are_short_behind(longest, terms.as_slice())
        }
        Expr::Conditional { condition, yes, no } => {
            are_short_in(longest, condition)
                && are_short_in(longest, yes)
                && are_short_in(longest, no)
        }
        Expr::Assignment { target, value, .. } => {
            are_short_in(longest, target) && are_short_in(longest, value)
        }
    }
}

/// The same of a call.
#[cycle(expression)]
fn is_short_called<'a>(longest: u32, arguments: &[Argument<'a>], name: Token<'a>) -> bool
    ensures { IsTrue result → DelaysIn (IsShort (Some longest))
        (call name.entry (list_before arguments.now no_arguments)) }
{
    is_short_call(longest, builtin_of(name.text), arguments) && are_short_among(longest, arguments)
}

/// The same of the operands of a chain but the first.
#[cycle(expression)]
fn are_short_behind<'a>(longest: u32, terms: &[Term<'a>]) -> bool
    ensures { IsTrue result →
        DelaysBehind (IsShort (Some longest)) (term_list (map pair_of terms.now)) }
{
    for term in terms {
        if !are_short_in(longest, &term.operand) {
            return false;
        }
    }
    true
}

/// The same of arguments.
#[cycle(expression)]
fn are_short_among<'a>(longest: u32, arguments: &[Argument<'a>]) -> bool
    ensures { IsTrue result →
        DelaysAmong (IsShort (Some longest)) (list_before arguments.now no_arguments) }
{
    for argument in arguments {
        if !is_short_at(longest, argument) {
            return false;
        }
    }
    true
}

/// The same of one argument.
#[cycle(expression)]
fn is_short_at<'a>(longest: u32, argument: &Argument<'a>) -> bool
    ensures { IsTrue result →
        DelaysAmong (IsShort (Some longest)) (list_before (argument.now ∷ []) no_arguments) }
{
    match argument {
        Argument::Value(value) => are_short_in(longest, value),
        Argument::Text(_) => true,
    }
}

/// The same of an expression that may be missing.
pub fn are_short_maybe<'a>(longest: u32, value: &Option<Box<Expr<'a>>>) -> bool
    ensures { IsTrue result → DelaysMaybe (IsShort (Some longest)) (shown boxed value.now) }
{
    match value {
        Some(value) => are_short_in(longest, value),
        None => true,
    }
}

/// The same of several expressions.
pub fn are_short_each<'a>(longest: u32, values: &[Box<Expr<'a>>]) -> bool
    ensures { IsTrue result → DelaysEach (IsShort (Some longest)) (map boxed values.now) }
{
    for value in values {
        if !are_short_in(longest, value) {
            return false;
        }
    }
    true
}
