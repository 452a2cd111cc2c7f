//! Operators that fault by the constants beside them (SNL Reference, "Expressions").

ghost use Rattle.std.specs.Prelude.{◌≡◌};
ghost use Rattle.snl_lints.specs.Constants as spec;

use snl_names::Constant;
use snl_names::constants::{joined, prefixed};
use snl_text::Kind;

/// Whether a constant is one that faults.
fn faults(constant: Constant) -> bool
    ensures { result ≡ spec.faults constant }
{
    matches!(constant, Constant::Faults)
}

/// Whether an operator divides, alone or with an assignment.
fn is_division(operator: Kind) -> bool
    ensures { result ≡ spec.is_division operator }
{
    matches!(
        operator,
        Kind::Slash | Kind::Percent | Kind::SlashEqual | Kind::PercentEqual
    )
}

/// Whether an operator shifts, alone or with an assignment.
fn is_shift(operator: Kind) -> bool
    ensures { result ≡ spec.is_shift operator }
{
    matches!(
        operator,
        Kind::LessLess | Kind::GreaterGreater | Kind::LessLessEqual | Kind::GreaterGreaterEqual
    )
}

/// Whether so many places can be shifted.
fn is_shift_count(number: i64) -> bool
    ensures { result ≡ spec.is_shift_count number }
{
    0 <= number && number < 64
}

/// Whether an operator faults with this number to its right, whatever stands to its left.
pub fn refuses(operator: Kind, right: i64) -> bool
    ensures { result ≡ spec.refuses operator right }
{
    (is_division(operator) && right == 0) || (is_shift(operator) && !is_shift_count(right))
}

/// Whether a binary operator faults by its constants.
pub fn faults_between(operator: Kind, left: Constant, right: Constant) -> bool
    ensures { result ≡ spec.faults_between operator left right }
{
    match (left, right) {
        (Constant::Worth(_), Constant::Worth(_)) => faults(joined(operator, left, right)),
        (Constant::Varies, Constant::Worth(number)) => refuses(operator, number),
        _ => false,
    }
}

/// Whether a prefix operator faults by its constant.
pub fn faults_before(operator: Kind, operand: Constant) -> bool
    ensures { result ≡ spec.faults_before operator operand }
{
    match operand {
        Constant::Worth(_) => faults(prefixed(operator, operand)),
        _ => false,
    }
}

/// Whether an assignment faults by the constant to its right.
pub fn faults_assigned(operator: Kind, right: Constant) -> bool
    ensures { result ≡ spec.faults_assigned operator right }
{
    match right {
        Constant::Worth(number) => refuses(operator, number),
        _ => false,
    }
}
