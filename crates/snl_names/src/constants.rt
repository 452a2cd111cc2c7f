//! Constant expressions, and what they are worth.

ghost use Rattle.std.specs.Prelude.{◌≡◌, is_some, map};
ghost use Rattle.snl_arithmetic.specs.Arithmetic.{truth};
ghost use Rattle.snl_syntax.specs.view.Expressions.{view, pair_of};
ghost use Rattle.snl_syntax.specs.view.Lists.{term_list};
ghost use Rattle.snl_names.specs.Constants as spec;
ghost use Rattle.snl_names.specs.Scopes.{is_hidden};
ghost use Rattle.snl_names.specs.Chains.{scopes_of};

use crate::scopes::Scopes;
use snl_arithmetic::{ArithmeticFault, computed, computed_prefix};
use snl_syntax::{Expr, Term};
use snl_text::{Kind, Token, character_value, whole_value};

/// What an expression is worth that is the same in every run.
#[derive(Clone, Copy)]
pub enum Constant {
    /// It is no constant expression.
    Varies,
    /// It is one that faults.
    Faults,
    /// It is one with this number.
    Worth(i64),
}

/// The number of a predefined name (SNL Reference, "Built-in Constants").
pub fn predefined(name: &[u8]) -> Option<i64>
    ensures { result ≡ spec.predefined name.now }
{
    if name == b"TRUE".as_slice() {
        Some(1)
    } else if name == b"FALSE".as_slice() {
        Some(0)
    } else if name == b"pvStatOK".as_slice() {
        Some(0)
    } else if name == b"pvStatERROR".as_slice() {
        Some(-1)
    } else if name == b"pvStatDISCONN".as_slice() {
        Some(-2)
    } else {
        None
    }
}

/// Whether a name stands for a number where no declaration hides it.
pub fn is_predefined(name: &[u8]) -> bool
    ensures { result ≡ is_some (spec.predefined name.now) }
{
    predefined(name).is_some()
}

/// A number, or no constant where there is none.
pub fn worth(value: Option<i64>) -> Constant
    ensures { result ≡ spec.worth value }
{
    match value {
        Some(number) => Constant::Worth(number),
        None => Constant::Varies,
    }
}

fn outcome(computed: Result<i64, ArithmeticFault>) -> Constant
    ensures { result ≡ spec.outcome computed }
{
    match computed {
        Ok(number) => Constant::Worth(number),
        Err(_) => Constant::Faults,
    }
}

/// What a whole number or a character constant is worth. A decimal constant is no constant expression.
pub fn of_token(token: Token) -> Constant
    ensures { result ≡ spec.of_token token.entry.kind token.entry.text.now }
{
    match token.kind {
        Kind::Whole => worth(whole_value(token.text)),
        Kind::Character => match character_value(token.text) {
            Some(byte) => Constant::Worth(i64::from(byte)),
            None => Constant::Varies,
        },
        _ => Constant::Varies,
    }
}

fn of_name<'a>(scopes: &Scopes<'_, 'a>, name: Token<'a>) -> Constant
    ensures { result ≡ spec.of_name (is_hidden (scopes_of scopes.now)) name.entry.text.now }
{
    if scopes.bound(name).is_some() {
        Constant::Varies
    } else {
        worth(predefined(name.text))
    }
}

fn truth(value: bool) -> Constant
    ensures { result ≡ Constant.Worth (truth value) }
{
    Constant::Worth(i64::from(value))
}

/// Whether a constant is not 0, where it is one that does not fault.
fn tested(constant: Constant) -> Constant
    ensures { result ≡ spec.as_truth constant }
{
    match constant {
        Constant::Worth(number) => truth(number != 0),
        other => other,
    }
}

/// What a binary operator makes of constants. It faults only where it computes an operand that does.
pub fn joined(operator: Kind, left: Constant, right: Constant) -> Constant
    ensures { result ≡ spec.joined operator left right }
{
    let number = match (left, right) {
        (Constant::Varies, _) | (_, Constant::Varies) => return Constant::Varies,
        (Constant::Faults, _) => return Constant::Faults,
        (Constant::Worth(number), _) => number,
    };
    match operator {
        Kind::AmpersandAmpersand => {
            if number == 0 {
                Constant::Worth(0)
            } else {
                tested(right)
            }
        }
        Kind::BarBar => {
            if number == 0 {
                tested(right)
            } else {
                Constant::Worth(1)
            }
        }
        _ => match right {
            Constant::Worth(other) => outcome(computed(operator, number, other)),
            other => other,
        },
    }
}

/// What `condition ? yes : no` makes of constants. Only the chosen one may make it fault.
pub fn chosen(condition: Constant, yes: Constant, no: Constant) -> Constant
    ensures { result ≡ spec.chosen condition yes no }
{
    match (condition, yes, no) {
        (_, Constant::Varies, _) | (_, _, Constant::Varies) => Constant::Varies,
        (Constant::Worth(0), _, _) => no,
        (Constant::Worth(_), _, _) => yes,
        (other, _, _) => other,
    }
}

/// What a prefix operator makes of a constant. `++` and `--` make none.
pub fn prefixed(operator: Kind, operand: Constant) -> Constant
    ensures { result ≡ spec.prefixed operator operand }
{
    match (operator, operand) {
        (Kind::PlusPlus | Kind::MinusMinus, _) => Constant::Varies,
        (_, Constant::Worth(number)) => outcome(computed_prefix(operator, number)),
        (_, other) => other,
    }
}

/// What an expression is worth in every run. A name of one of the scopes is no constant, also where
/// it hides a predefined one.
#[cycle(constant)]
pub fn constant_of<'a>(expression: &Expr<'a>, scopes: &Scopes<'_, 'a>) -> Constant
    ensures { result ≡ spec.constant_of (is_hidden (scopes_of scopes.now)) (view expression.now) }
{
    match expression {
        Expr::Constant(token) => of_token(*token),
        Expr::Parenthesized(inner) => constant_of(inner, scopes),
        Expr::Named(name) => of_name(scopes, *name),
        Expr::Prefix(operator, operand) => prefixed(operator.kind, constant_of(operand, scopes)),
        Expr::Chain(first, terms) => {
            chain_of(terms.as_slice(), scopes, constant_of(first, scopes))
        }
        Expr::Conditional { condition, yes, no } => chosen(
            constant_of(condition, scopes),
            constant_of(yes, scopes),
            constant_of(no, scopes),
        ),
        Expr::Element { .. } | Expr::Call(..) | Expr::Postfix(..) | Expr::Assignment { .. } => {
            Constant::Varies
        }
    }
}

/// What operators and their operands make of what stands to the left of them.
#[cycle(constant)]
fn chain_of<'a>(terms: &[Term<'a>], scopes: &Scopes<'_, 'a>, first: Constant) -> Constant
    ensures { result ≡ spec.constant_chain (is_hidden (scopes_of scopes.now)) (term_list
        (map pair_of terms.now)) first }
{
    let mut left = first;
    for term in terms {
        left = joined(term.operator.kind, left, constant_of(&term.operand, scopes));
    }
    left
}
