ghost use Rattle.std.specs.Prelude.{◌≡◌};
ghost use Rattle.snl_syntax.specs.Kinds as specs;

use snl_text::Kind;

/// Whether a token of this kind is a number or a character constant.
pub fn is_constant(kind: Kind) -> bool
    ensures { result ≡ specs.is_constant kind }
{
    matches!(kind, Kind::Whole | Kind::Decimal | Kind::Character)
}

/// Whether a token of this kind may stand before its operand.
pub fn is_prefix(kind: Kind) -> bool
    ensures { result ≡ specs.is_prefix kind }
{
    matches!(
        kind,
        Kind::Plus | Kind::Minus | Kind::Bang | Kind::Tilde | Kind::PlusPlus | Kind::MinusMinus
    )
}

/// How loosely a sign holds the expression before it: 0 for the brackets of a subscript and a call, 1
/// for `++` and `--`, 3 to 12 for the binary operators, 13 for `?`, 14 for assignments, 15 for the
/// comma, and 16 where the token can't go on with an expression.
pub fn looseness(kind: Kind) -> u8
    ensures { result ≡ specs.looseness kind }
{
    match kind {
        Kind::OpenParenthesis | Kind::OpenBracket => 0,
        Kind::PlusPlus | Kind::MinusMinus => 1,
        Kind::Star | Kind::Slash | Kind::Percent => 3,
        Kind::Plus | Kind::Minus => 4,
        Kind::LessLess | Kind::GreaterGreater => 5,
        Kind::Less | Kind::LessEqual | Kind::Greater | Kind::GreaterEqual => 6,
        Kind::EqualEqual | Kind::BangEqual => 7,
        Kind::Ampersand => 8,
        Kind::Caret => 9,
        Kind::Bar => 10,
        Kind::AmpersandAmpersand => 11,
        Kind::BarBar => 12,
        Kind::Question => 13,
        Kind::Equal
        | Kind::PlusEqual
        | Kind::MinusEqual
        | Kind::StarEqual
        | Kind::SlashEqual
        | Kind::PercentEqual
        | Kind::AmpersandEqual
        | Kind::BarEqual
        | Kind::CaretEqual
        | Kind::LessLessEqual
        | Kind::GreaterGreaterEqual => 14,
        Kind::Comma => 15,
        _ => 16,
    }
}

/// The looseness of `++` and `--` behind a place.
pub const STEP: u8 = 1;
/// The looseness of prefix operators.
pub const UNARY: u8 = 2;
/// The loosest level of binary operators, `||`.
pub const BINARY: u8 = 12;
/// The looseness of a conditional.
pub const CONDITIONAL: u8 = 13;
/// The looseness of assignments.
pub const ASSIGNMENT: u8 = 14;
/// The looseness of the comma, and so of a whole expression.
pub const COMMA: u8 = 15;
