//! What the parts of an expression are for, and the sites of its tokens.

ghost use Rattle.std.specs.Prelude.{◌≡◌};
ghost use Rattle.snl_syntax.specs.view.Expressions.{view};
ghost use Rattle.snl_names.specs.Formats.{conversions_of};
ghost use Rattle.snl_names.specs.Numbered.{is_number};
ghost use Rattle.snl_names.specs.Purposes as spec;

use crate::builtins::form_of;
use crate::calls::{CallKind, Form, is_place};
use crate::formats::{conversions, unquoted};
use crate::sites::{Purpose, Site};
use snl_syntax::Expr;
use snl_text::{Kind, Token, decimal_value};

impl Purpose {
    /// That of a part that gives a value: an operand, a subscript, a condition.
    pub fn inner(self) -> Purpose
        ensures { result ≡ spec.inner self }
    {
        match self {
            Purpose::Ignored => Purpose::Ignored,
            _ => Purpose::Read,
        }
    }

    /// That of what stands in parentheses.
    pub fn in_parentheses(self) -> Purpose
        ensures { result ≡ spec.in_parentheses self }
    {
        match self {
            Purpose::Delayed | Purpose::Dropped => Purpose::Read,
            other => other,
        }
    }

    /// That of what is assigned to.
    pub fn target(self) -> Purpose
        ensures { result ≡ spec.target self }
    {
        match self {
            Purpose::Ignored => Purpose::Ignored,
            _ => Purpose::Changed,
        }
    }

    /// That of the arguments of a call, by its function and whether they have its form.
    pub fn argument(self, kind: CallKind, is_fitting: bool) -> Purpose
        ensures { result ≡ spec.argument self kind.entry is_fitting }
    {
        match (self, kind, is_fitting) {
            (Purpose::Ignored, _, _) => Purpose::Ignored,
            (_, CallKind::BuiltIn(builtin), true) => argument_of(form_of(builtin)),
            (_, CallKind::Defined(_), true) => Purpose::Read,
            _ => Purpose::Ignored,
        }
    }

    fn is_ignored(self) -> bool
        ensures { result ≡ spec.is_ignored self }
    {
        matches!(self, Purpose::Ignored)
    }

    fn is_dropped(self) -> bool
        ensures { result ≡ spec.is_dropped self }
    {
        matches!(self, Purpose::Dropped)
    }
}

/// What the argument of a call is for, by the form that the call takes.
fn argument_of(form: Form) -> Purpose
    ensures { result ≡ spec.argument_of form }
{
    match form {
        Form::ChannelPlace | Form::PutPlace => Purpose::Channel,
        Form::QueueName => Purpose::Queued,
        Form::FlagName => Purpose::Flagged,
        Form::Seconds => Purpose::Delayed,
        Form::Nothing | Form::Format => Purpose::Read,
    }
}

/// Whether an operator is `++` or `--`.
pub fn is_step(kind: Kind) -> bool
    ensures { result ≡ spec.is_step kind }
{
    matches!(kind, Kind::PlusPlus | Kind::MinusMinus)
}

/// Whether a decimal constant may stand for a purpose.
pub fn is_good_decimal(purpose: Purpose, text: &[u8]) -> bool
    ensures { result ≡ spec.is_good_decimal purpose text.now }
{
    match purpose {
        Purpose::Ignored => true,
        Purpose::Delayed => match decimal_value(text) {
            Some(value) => value.is_exact,
            None => false,
        },
        _ => false,
    }
}

/// The site of a call.
pub fn call_site<'a>(
    purpose: Purpose,
    in_condition: bool,
    name: Token<'a>,
    kind: CallKind<'a>,
    is_fitting: bool,
) -> Site<'a>
    ensures { result ≡ spec.at_call purpose in_condition name.entry kind.entry is_fitting }
{
    let is_ignored = purpose.is_ignored();
    let is_known = kind.is_known();
    Site::Call {
        name,
        is_known: is_known || is_ignored,
        is_fitting: !is_known || is_fitting || is_ignored,
        may_stand: in_condition || !kind.is_delay() || is_ignored,
        has_value: kind.has_value() || purpose.is_dropped() || is_ignored,
        function: kind.place(),
    }
}

/// Whether an expression is a name or an element, in parentheses or not.
fn is_target(expression: &Expr) -> bool
    ensures { result ≡ spec.is_target (view expression.now) }
{
    match expression {
        Expr::Parenthesized(inner) => is_target(inner),
        other => is_place(other),
    }
}

/// The site of an operator that changes its target.
pub fn change_site<'a>(purpose: Purpose, target: &Expr, operator: Token<'a>) -> Site<'a>
    ensures { result ≡ spec.at_change purpose (view target.now) operator.entry }
{
    Site::Change {
        operator,
        is_good: is_target(target) || purpose.is_ignored(),
    }
}

/// Whether a format has as many conversions as there are arguments after it.
fn has_conversions(format: &[u8], count: usize) -> bool
    ensures { result ≡ is_number count (conversions_of format.now) }
{
    match conversions(unquoted(format)) {
        Some(found) => count == found,
        None => false,
    }
}

/// The site of a string as an argument, with so many arguments after it.
pub fn format_site<'a>(purpose: Purpose, format: Token<'a>, count: usize) -> Site<'a>
    ensures { result ≡ spec.at_format purpose format.entry count }
{
    Site::Format {
        text: format,
        is_good: has_conversions(format.text, count) || purpose.is_ignored(),
    }
}
