//! The forms of the arguments of calls.

ghost use Rattle.std.specs.Prelude.{◌≡◌, [], ◌∷◌};
ghost use Rattle.snl_syntax.specs.view.Expressions.{view, list_before};
ghost use Rattle.snl_syntax.specs.Expressions.{no_arguments};
ghost use Rattle.snl_names.specs.Calls as spec;

use crate::builtins::{Builtin, form_of};
use snl_syntax::{Argument, Expr};
use snl_text::{Pos, Token};

/// What a call takes.
#[derive(Clone, Copy)]
pub enum Form {
    /// A variable with a channel, or an element of one.
    ChannelPlace,
    /// The same, and the word `ASYNC` behind it or not.
    PutPlace,
    /// The name of a variable with a queue.
    QueueName,
    /// The name of an event flag.
    FlagName,
    /// An expression in seconds.
    Seconds,
    /// No argument.
    Nothing,
    /// A string, then expressions.
    Format,
}

/// What a call sees of a function of the program.
#[derive(Clone, Copy)]
pub struct Heading<'a> {
    /// Its token has the place of the function.
    pub name: Token<'a>,
    /// How many arguments it takes.
    pub parameters: usize,
    /// Whether it has a value.
    pub has_value: bool,
}

/// What a call calls.
#[derive(Clone, Copy)]
pub enum CallKind<'a> {
    /// No function that is in sight.
    Unknown,
    /// A built-in function.
    BuiltIn(Builtin),
    /// A function of the program.
    Defined(Heading<'a>),
}

impl<'a> CallKind<'a> {
    /// Whether it is known what is called.
    pub fn is_known(self) -> bool
        ensures { result ≡ spec.is_known self.entry }
    {
        !matches!(self, CallKind::Unknown)
    }

    /// Whether it is `delay`, which stands in conditions alone.
    pub fn is_delay(self) -> bool
        ensures { result ≡ spec.is_delay self.entry }
    {
        matches!(self, CallKind::BuiltIn(Builtin::Delay))
    }

    /// Whether the call has a value, or that is not known.
    pub fn has_value(self) -> bool
        ensures { result ≡ spec.has_value self.entry }
    {
        match self {
            CallKind::Defined(heading) => heading.has_value,
            _ => true,
        }
    }

    /// The place of a function of the program.
    pub fn place(self) -> Option<Pos>
        ensures { result ≡ spec.place_called self.entry }
    {
        match self {
            CallKind::Defined(heading) => Some(heading.name.pos),
            _ => None,
        }
    }
}

/// Whether an expression is a name or an element.
pub fn is_place(expression: &Expr) -> bool
    ensures { result ≡ spec.is_place (view expression.now) }
{
    matches!(expression, Expr::Named(_) | Expr::Element { .. })
}

fn is_name(expression: &Expr) -> bool
    ensures { result ≡ spec.is_name (view expression.now) }
{
    matches!(expression, Expr::Named(_))
}

fn are_values(arguments: &[Argument]) -> bool
    ensures { result ≡ spec.are_values (list_before arguments.now no_arguments) }
{
    for argument in arguments {
        if let Argument::Text(_) = argument {
            return false;
        }
    }
    true
}

fn is_text(argument: &Argument) -> bool
    ensures { result ≡ spec.fits Form.Format (list_before (argument.now ∷ []) no_arguments) }
{
    matches!(argument, Argument::Text(_))
}

fn fits_one(form: Form, argument: &Argument) -> bool
    ensures { result ≡ spec.fits form (list_before (argument.now ∷ []) no_arguments) }
{
    match argument {
        Argument::Value(value) => match form {
            Form::ChannelPlace | Form::PutPlace => is_place(value),
            Form::QueueName | Form::FlagName => is_name(value),
            Form::Seconds => true,
            Form::Nothing | Form::Format => false,
        },
        Argument::Text(_) => matches!(form, Form::Format),
    }
}

/// Whether an expression is the token `ASYNC`, which asks `pvPut` not to wait for the answer of its channel (SNL Reference, "pvPut").
fn is_async(expression: &Expr) -> bool
    ensures { result ≡ spec.is_async (view expression.now) }
{
    match expression {
        Expr::Named(name) => name.text == b"ASYNC".as_slice(),
        _ => false,
    }
}

/// Whether an argument and those behind it have the form of a put.
fn fits_put(first: &Argument, behind: &[Argument]) -> bool
    ensures { result ≡ spec.fits Form.PutPlace (list_before (first.now ∷ behind.now) no_arguments) }
{
    match behind {
        [] => fits_one(Form::PutPlace, first),
        [second] => match (first, second) {
            (Argument::Value(place), Argument::Value(word)) => is_place(place) && is_async(word),
            _ => false,
        },
        _ => false,
    }
}

/// Whether arguments have the form that a call takes.
fn fits(form: Form, arguments: &[Argument]) -> bool
    ensures { result ≡ spec.fits form (list_before arguments.now no_arguments) }
{
    match arguments {
        [] => matches!(form, Form::Nothing),
        [argument] => fits_one(form, argument),
        [first, behind @ ..] => match form {
            Form::PutPlace => fits_put(first, behind),
            Form::Format => is_text(first) && are_values(behind),
            _ => false,
        },
    }
}

/// Whether arguments have the form that a call takes; those of an unknown one never have.
#[tactic(auto, using(crate::proofs::FormLaws::count_list))]
pub fn is_fitting(arguments: &[Argument], kind: CallKind) -> bool
    ensures { result ≡ spec.is_fitting kind.entry (list_before arguments.now no_arguments) }
{
    match kind {
        CallKind::Unknown => false,
        CallKind::BuiltIn(builtin) => fits(form_of(builtin), arguments),
        CallKind::Defined(heading) => {
            are_values(arguments) && arguments.len() == heading.parameters
        }
    }
}

fn is_async_argument(argument: &Argument) -> bool
    ensures { result ≡ spec.has_async (list_before (argument.now ∷ []) no_arguments) }
{
    match argument {
        Argument::Value(word) => is_async(word),
        Argument::Text(_) => false,
    }
}

/// Whether the word `ASYNC` stands behind the first argument of a put, as the last one.
pub fn has_async(behind: &[Argument]) -> bool
    ensures { result ≡ spec.has_async (list_before behind.now no_arguments) }
{
    match behind {
        [second] => is_async_argument(second),
        _ => false,
    }
}

/// How many arguments of a call there are up to the one that may be the word `ASYNC`; 0 where none may.
pub fn word_at(builtin: Option<Builtin>) -> usize
    ensures { result ≡ spec.word_at builtin }
{
    match builtin {
        Some(Builtin::PvPut) => 2,
        _ => 0,
    }
}

/// Whether an argument is the word `ASYNC`, where so many are left up to its place.
pub fn is_word(left: usize, argument: &Expr) -> bool
    ensures { result ≡ spec.is_word left (view argument.now) }
{
    left == 1 && is_async(argument)
}
