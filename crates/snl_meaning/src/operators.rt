//! How operators and signs are told apart.

ghost use Rattle.std.specs.Prelude.{◌≡◌};
ghost use Rattle.snl_syntax.specs.view.Expressions.{view};
ghost use Rattle.snl_meaning.specs.Value as spec;

use snl_syntax::Expr;
use snl_text::Kind;

/// How an operator joins what stands left of it and its operand.
#[derive(Clone, Copy)]
pub enum Joint {
    /// `&&`
    And,
    /// `||`
    Or,
    /// `,`
    Sequel,
    /// An operator that computes both of its operands.
    Operation(Kind),
}

/// What a sign before or after an operand does.
#[derive(Clone, Copy)]
pub enum Unary {
    /// `++` and `--`, as the sum or the difference with 1.
    ByOne(Kind),
    /// A prefix operator that makes a number of a number.
    OfValue(Kind),
}

/// How an operator of a chain joins its operand to what stands left of it.
pub fn joint_of(operator: Kind) -> Joint
    ensures { result ≡ spec.joint_of operator }
{
    match operator {
        Kind::AmpersandAmpersand => Joint::And,
        Kind::BarBar => Joint::Or,
        Kind::Comma => Joint::Sequel,
        other => Joint::Operation(other),
    }
}

/// The operator of a compound assignment; none where it is `=`.
pub fn compound_of(operator: Kind) -> Option<Kind>
    ensures { result ≡ spec.compound_of operator }
{
    match operator {
        Kind::PlusEqual => Some(Kind::Plus),
        Kind::MinusEqual => Some(Kind::Minus),
        Kind::StarEqual => Some(Kind::Star),
        Kind::SlashEqual => Some(Kind::Slash),
        Kind::PercentEqual => Some(Kind::Percent),
        Kind::AmpersandEqual => Some(Kind::Ampersand),
        Kind::BarEqual => Some(Kind::Bar),
        Kind::CaretEqual => Some(Kind::Caret),
        Kind::LessLessEqual => Some(Kind::LessLess),
        Kind::GreaterGreaterEqual => Some(Kind::GreaterGreater),
        _ => None,
    }
}

/// What a sign before or after an operand does.
pub fn sign_of(operator: Kind) -> Unary
    ensures { result ≡ spec.sign_of operator }
{
    match operator {
        Kind::PlusPlus => Unary::ByOne(Kind::Plus),
        Kind::MinusMinus => Unary::ByOne(Kind::Minus),
        other => Unary::OfValue(other),
    }
}

/// Whether an expression is a decimal constant, in parentheses or not.
pub fn is_decimal(expression: &Expr) -> bool
    ensures { result ≡ spec.is_decimal (view expression.now) }
{
    match expression {
        Expr::Parenthesized(inner) => is_decimal(inner),
        Expr::Constant(token) => matches!(token.kind, Kind::Decimal),
        _ => false,
    }
}
