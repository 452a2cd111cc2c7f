//! How many operands an expression holds at once. A depth that would leave 64 bits stays at their greatest number.

ghost use Rattle.std.specs.Prelude.{◌≡◌, ◌-◌, ◌^◌, ◌<◌, map, max, option_map};
ghost use Rattle.snl_syntax.specs.Expressions.{no_arguments};
ghost use Rattle.snl_syntax.specs.view.Lists.{term_list};
ghost use Rattle.snl_syntax.specs.view.Expressions.{view, boxed, pair_of, list_before};
ghost use Rattle.snl_syntax.specs.view.Shown.{shown};
ghost use Rattle.snl_emit.specs.Depths as spec;
ghost use Rattle.snl_flat.specs.Depths.{capped};
ghost use Rattle.snl_meaning.specs.Known.{outlines};
ghost use Rattle.snl_meaning.specs.Names.{outline_named};
ghost use Rattle.snl_meaning.specs.Value.{compound_of as compound};
ghost use Rattle.snl_flat.specs.DepthParts as parts;

use snl_meaning::{Joint, Outline, Unary, compound_of, joint_of, sign_of};
use snl_resolve::{Builtin, builtin_of};
use snl_syntax::{Argument, Expr, Term};
use snl_text::{Kind, Token};

/// The larger of two numbers.
pub fn larger(left: usize, right: usize) -> usize
    ensures { result ≡ max left right }
{
    if left < right { right } else { left }
}

/// How many numbers an assignment by this operator holds while its right side is computed.
fn held_by(operator: Kind) -> usize
    ensures { result ≡ spec.held_depth (compound operator) }
{
    match compound_of(operator) {
        None => 0,
        Some(_) => 1,
    }
}

/// How many values are held after an argument, if some were before.
fn held_after(argument: &Argument, held: usize) -> usize
    requires { held < 2 ^ 64 - 1 }
    ensures { result ≡ parts.held_after held argument.now }
{
    match argument {
        Argument::Value(_) => held + 1,
        Argument::Text(_) => held,
    }
}

/// How many operands an expression holds at once, where these functions may be called.
#[cycle(depths)]
pub fn expression_depth(expression: &Expr, functions: &[Outline]) -> usize
    ensures { result
        ≡ capped (spec.expression_depth (outlines functions.now) (view expression.now)) }
{
    match expression {
        Expr::Constant(_) | Expr::Named(_) => 1,
        Expr::Parenthesized(inner) => expression_depth(inner, functions),
        Expr::Element { index, .. } => expression_depth(index, functions),
        Expr::Call(name, arguments) => call_depth(arguments.as_slice(), *name, functions),
        Expr::Postfix(operand, sign) | Expr::Prefix(sign, operand) => sign_depth(
            operand, *sign, functions,
        ),
        Expr::Chain(first, terms) => {
            larger(
                expression_depth(first, functions),
                terms_depth(terms.as_slice(), functions),
            )
        }
        Expr::Conditional { condition, yes, no } => larger(
            expression_depth(condition, functions),
            larger(
                expression_depth(yes, functions),
                expression_depth(no, functions),
            ),
        ),
        Expr::Assignment {
            target,
            operator,
            value,
        } => {
            let alone = expression_depth(value, functions).saturating_add(held_by(operator.kind));
            target_depth(target, alone, alone.saturating_add(1), functions)
        }
    }
}

/// Of a target, with what is done there to a variable, or to an element after its subscript.
#[cycle(depths)]
fn target_depth(target: &Expr, alone: usize, indexed: usize, functions: &[Outline]) -> usize
    ensures { result
        ≡ capped (spec.target_depth (outlines functions.now) (view target.now) alone indexed) }
{
    match target {
        Expr::Parenthesized(inner) => target_depth(inner, alone, indexed, functions),
        Expr::Element { index, .. } => larger(expression_depth(index, functions), indexed),
        _ => alone,
    }
}

/// Of a sign before or after its operand.
#[cycle(depths)]
fn sign_depth(operand: &Expr, sign: Token, functions: &[Outline]) -> usize
    ensures { result
        ≡ capped (parts.sign_depth (outlines functions.now) sign.entry.kind (view operand.now)) }
{
    match sign_of(sign.kind) {
        Unary::ByOne(_) => target_depth(operand, 2, 3, functions),
        Unary::OfValue(_) => expression_depth(operand, functions),
    }
}

/// Of an operator with its operand.
#[cycle(depths)]
fn term_depth(term: &Term, functions: &[Outline]) -> usize
    ensures { result ≡ capped (parts.term_depth (outlines functions.now) (pair_of term.now)) }
{
    let depth = expression_depth(&term.operand, functions);
    match joint_of(term.operator.kind) {
        Joint::Operation(_) => depth.saturating_add(1),
        _ => depth,
    }
}

/// Of the operators of a chain, each with its operand.
#[cycle(depths)]
fn terms_depth(terms: &[Term], functions: &[Outline]) -> usize
    ensures { result
        ≡ capped (spec.terms_depth (outlines functions.now) (term_list (map pair_of terms.now))) }
{
    let mut depth = 0;
    for term in terms {
        depth = larger(depth, term_depth(term, functions));
    }
    depth
}

/// Of a call with its arguments.
#[cycle(depths)]
fn call_depth(arguments: &[Argument], name: Token, functions: &[Outline]) -> usize
    ensures { result
        ≡ capped (parts.call_depth (outlines functions.now) name.entry.text.now
        (list_before arguments.now no_arguments)) }
{
    match builtin_of(name.text) {
        Some(Builtin::Delay) => wait_depth(arguments, functions),
        Some(Builtin::Printf) => print_depth(arguments, functions),
        Some(Builtin::PvPut | Builtin::Ask(_)) => put_depth(arguments, functions),
        None => routine_depth(arguments, name.text, functions),
    }
}

/// How many operands the body of the function of a name holds at once, if there is one among some.
fn body_depth(functions: &[Outline], name: &[u8]) -> Option<usize>
    ensures { result ≡ option_map (λ o. o.depth) (outline_named (outlines functions.now) name.now) }
{
    for function in functions {
        if function.name == name {
            return Some(function.depth);
        }
    }
    None
}

/// Of a call of a function.
#[cycle(depths)]
fn routine_depth(arguments: &[Argument], name: &[u8], functions: &[Outline]) -> usize
    ensures { result ≡ capped (spec.routine_depth (outline_named (outlines functions.now) name.now)
        (spec.arguments_depth (outlines functions.now) 0
        (list_before arguments.now no_arguments))) }
{
    match body_depth(functions, name) {
        Some(depth) => larger(1, larger(values_depth(arguments, functions), depth)),
        None => 1,
    }
}

/// Of `printf`.
#[cycle(depths)]
fn print_depth(arguments: &[Argument], functions: &[Outline]) -> usize
    ensures { result
        ≡ capped (spec.print_depth (outlines functions.now)
        (list_before arguments.now no_arguments)) }
{
    match arguments.first() {
        Some(Argument::Text(_)) => larger(1, values_depth(arguments, functions)),
        _ => 1,
    }
}

/// Of the values of `printf`. Each is computed while those before it are held.
#[cycle(depths)]
#[tactic(auto, using(crate::proofs::DepthLaws::values_step))]
fn values_depth(arguments: &[Argument], functions: &[Outline]) -> usize
    ensures { result
        ≡ capped (spec.arguments_depth (outlines functions.now) 0
        (list_before arguments.now no_arguments)) }
{
    let mut depth = 0;
    let mut held = 0usize;
    for argument in arguments {
        depth = larger(depth, value_depth(argument, held, functions));
        held = held_after(argument, held);
    }
    depth
}

/// Of an argument, while some values are held.
#[cycle(depths)]
fn value_depth(argument: &Argument, held: usize, functions: &[Outline]) -> usize
    ensures { result ≡ capped (parts.value_depth (outlines functions.now) held argument.now) }
{
    match argument {
        Argument::Value(value) => expression_depth(value, functions).saturating_add(held),
        Argument::Text(_) => 0,
    }
}

/// Of `delay`.
#[cycle(depths)]
fn wait_depth(arguments: &[Argument], functions: &[Outline]) -> usize
    ensures { result
        ≡ capped (spec.wait_depth (outlines functions.now)
        (list_before arguments.now no_arguments)) }
{
    match arguments {
        [first, ..] => match first {
            Argument::Value(time) => expression_depth(time, functions),
            Argument::Text(_) => 1,
        },
        [] => 1,
    }
}

/// Of `pvPut`, and of a call that asks.
#[cycle(depths)]
fn put_depth(arguments: &[Argument], functions: &[Outline]) -> usize
    ensures { result
        ≡ capped (spec.put_depth (outlines functions.now)
        (list_before arguments.now no_arguments)) }
{
    match arguments {
        [first, ..] => match first {
            Argument::Value(target) => target_depth(target, 1, 1, functions),
            Argument::Text(_) => 1,
        },
        [] => 1,
    }
}

/// How many operands an expression holds at once that may be missing; 0 where it is.
pub fn maybe_depth(expression: &Option<Box<Expr>>, functions: &[Outline]) -> usize
    ensures { result
        ≡ capped (spec.maybe_depth (outlines functions.now) (shown boxed expression.now)) }
{
    match expression {
        Some(expression) => expression_depth(expression, functions),
        None => 0,
    }
}
