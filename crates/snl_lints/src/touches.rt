//! What a piece of a program does: with a variable, and by constants.

ghost use Rattle.std.specs.Prelude.{◌≡◌, [], ◌∷◌, ◌++◌, map, OnOk};
ghost use Rattle.snl_syntax.specs.view.Expressions.{view, pair_of, list_before};
ghost use Rattle.snl_syntax.specs.view.Lists.{term_list};
ghost use Rattle.snl_syntax.specs.Expressions.{no_arguments};
ghost use Rattle.snl_lints.specs.Touches as spec;

use snl_names::{Builtin, Constant, Query, Size, has_async, is_step};
use snl_syntax::{Argument, Expr, Term};
use snl_text::{Kind, Token};
use std::alloc::AllocError;

/// What a variable can hold.
#[derive(Clone, Copy)]
pub struct ValueDomain {
    /// The least and the greatest number of its type; none where the type is not supported.
    pub range: Option<(i64, i64)>,
    /// How many elements it has.
    pub size: Size,
}

/// What a piece of a program does, by the token at which it is told.
#[derive(Clone, Copy)]
pub enum Touch<'a> {
    /// A variable is declared by this name.
    Declares(Token<'a>),
    /// An `assign` names it, with some channel.
    Assigns(Token<'a>),
    /// A `monitor` names it.
    Monitors(Token<'a>),
    /// A `sync` or a `syncQ` with an event flag names it.
    Flags(Token<'a>),
    /// Its value is read.
    Reads(Token<'a>),
    /// It is set: the target of an assignment, or of `++` or `--`.
    Sets(Token<'a>),
    /// It is put, with the word `ASYNC` or without.
    Puts(Token<'a>, bool),
    /// It is the argument of a function that asks something of a channel, a queue or an event flag.
    Asks(Query, Token<'a>),
    /// A condition is an assignment, with this operator.
    Equals(Token<'a>),
    /// A condition is `a, b`, with this comma.
    Comma(Token<'a>),
    /// A clause leads back to its own state, of this name, and leaves an `entry` or `exit` block out.
    Returns(Token<'a>),
    /// A variable or a parameter is declared by this name, and can hold this.
    Holds(Token<'a>, ValueDomain),
    /// An `assign` names a channel, by this text.
    Names(Token<'a>),
    /// An operator faults by its constants.
    Faults(Token<'a>),
    /// A variable begins with a number that its type lacks.
    Lacks(Token<'a>),
    /// It is given a constant.
    Stores(Token<'a>, i64),
    /// It has a constant subscript.
    Picks(Token<'a>, i64),
}

/// What an expression stands for.
#[derive(Clone, Copy)]
pub enum Role {
    /// Its value.
    Value,
    /// What decides in a clause, an `if`, a `while` or a `for`.
    Condition,
    /// A variable that is set.
    Target,
    /// A channel that is put, with the word `ASYNC` or without.
    Put(bool),
    /// A channel, a queue or an event flag.
    Asked(Query),
}

/// Puts a part at the end of a row. Of any type, since what `push` answers holds the part once more. Fails only where memory ends.
pub fn add<T: Copy>(row: &mut Vec<T>, part: T) -> Result<(), AllocError>
    ensures { OnOk result (row.new.items ≡ row.old.items ++ part ∷ []) }
{
    row.push(part)?;
    Ok(())
}

/// Adds what a name does that stands for this. Fails only where memory ends.
pub fn push_name<'a>(
    found: &mut Vec<Touch<'a>>,
    name: Token<'a>,
    role: Role,
) -> Result<(), AllocError>
    ensures { OnOk result (found.new.items ≡ found.old.items ++ spec.at_name role name.entry) }
{
    let touch = match role {
        Role::Value | Role::Condition => Touch::Reads(name),
        Role::Target => Touch::Sets(name),
        Role::Put(is_async) => Touch::Puts(name, is_async),
        Role::Asked(query) => Touch::Asks(query, name),
    };
    add(found, touch)
}

/// Adds that a condition is an assignment, where it is one. Fails only where memory ends.
pub fn push_assignment<'a>(
    found: &mut Vec<Touch<'a>>,
    operator: Token<'a>,
    role: Role,
) -> Result<(), AllocError>
    ensures { OnOk result (found.new.items ≡ found.old.items
        ++ spec.at_assignment role operator.entry) }
{
    if let Role::Condition = role {
        add(found, Touch::Equals(operator))
    } else {
        Ok(())
    }
}

/// Adds an operator that faults by its constants, where it does. Fails only where memory ends.
pub fn push_faulting<'a>(
    found: &mut Vec<Touch<'a>>,
    operator: Token<'a>,
    is_faulting: bool,
) -> Result<(), AllocError>
    ensures { OnOk result (found.new.items ≡ found.old.items
        ++ spec.when_faulting is_faulting operator.entry) }
{
    if is_faulting {
        add(found, Touch::Faults(operator))
    } else {
        Ok(())
    }
}

/// Adds a variable whose type lacks what it begins with, where it does. Fails only where memory ends.
pub fn push_lacking<'a>(
    found: &mut Vec<Touch<'a>>,
    name: Token<'a>,
    is_lacking: bool,
) -> Result<(), AllocError>
    ensures { OnOk result (found.new.items ≡ found.old.items
        ++ spec.when_lacking is_lacking name.entry) }
{
    if is_lacking {
        add(found, Touch::Lacks(name))
    } else {
        Ok(())
    }
}

/// Adds a subscript that is constant. Fails only where memory ends.
pub fn push_subscript<'a>(
    found: &mut Vec<Touch<'a>>,
    name: Token<'a>,
    subscript: Constant,
) -> Result<(), AllocError>
    ensures { OnOk result (found.new.items ≡ found.old.items
        ++ spec.at_subscript name.entry subscript) }
{
    if let Constant::Worth(number) = subscript {
        add(found, Touch::Picks(name, number))
    } else {
        Ok(())
    }
}

/// The variable that an assignment sets, by its name.
fn target_name<'a>(target: &Expr<'a>) -> Option<Token<'a>>
    ensures { result ≡ spec.target_name (view target.now) }
{
    match target {
        Expr::Parenthesized(inner) => target_name(inner),
        Expr::Named(name) | Expr::Element { name, .. } => Some(*name),
        _ => None,
    }
}

/// Adds a number that is given to a variable.
fn push_number<'a>(
    found: &mut Vec<Touch<'a>>,
    name: Option<Token<'a>>,
    number: i64,
) -> Result<(), AllocError>
    ensures { OnOk result (found.new.items ≡ found.old.items
        ++ spec.stored_in name.entry number) }
{
    if let Some(name) = name {
        add(found, Touch::Stores(name, number))
    } else {
        Ok(())
    }
}

/// Adds a constant that `=` gives to a variable. Fails only where memory ends.
pub fn push_stored<'a>(
    target: &Expr<'a>,
    operator: Kind,
    value: Constant,
    found: &mut Vec<Touch<'a>>,
) -> Result<(), AllocError>
    ensures { OnOk result (found.new.items ≡ found.old.items
        ++ spec.at_stored (view target.now) operator value) }
{
    match (operator, value) {
        (Kind::Equal, Constant::Worth(number)) => {
            push_number(found, target_name(target), number)
        }
        _ => Ok(()),
    }
}

/// Adds a comma, if the operator is one.
fn push_if_comma<'a>(found: &mut Vec<Touch<'a>>, operator: Token<'a>) -> Result<(), AllocError>
    ensures { OnOk result (found.new.items ≡ found.old.items ++ spec.when_comma operator.entry) }
{
    if let Kind::Comma = operator.kind {
        add(found, Touch::Comma(operator))
    } else {
        Ok(())
    }
}

/// Adds the first operator of a chain, if it is a comma.
fn push_first_comma<'a>(terms: &[Term<'a>], found: &mut Vec<Touch<'a>>) -> Result<(), AllocError>
    ensures { OnOk result (found.new.items ≡ found.old.items
        ++ spec.first_comma (term_list (map pair_of terms.now))) }
{
    match terms {
        [first, ..] => push_if_comma(found, first.operator),
        [] => Ok(()),
    }
}

/// Adds that a condition is `a, b`, where it is one. Fails only where memory ends.
pub fn push_comma<'a>(
    terms: &[Term<'a>],
    role: Role,
    found: &mut Vec<Touch<'a>>,
) -> Result<(), AllocError>
    ensures { OnOk result (found.new.items ≡ found.old.items
        ++ spec.at_comma role (term_list (map pair_of terms.now))) }
{
    match role {
        Role::Condition => push_first_comma(terms, found),
        _ => Ok(()),
    }
}

/// Whether the word `ASYNC` stands behind the first argument.
fn is_async_behind<'a>(first: &Argument<'a>, behind: &[Argument<'a>]) -> bool
    ensures { result ≡ spec.is_async_put (list_before (first.now ∷ behind.now) no_arguments) }
{
    match first {
        Argument::Value(_) => has_async(behind),
        Argument::Text(_) => false,
    }
}

/// The same of all arguments of a put.
fn is_async_put(arguments: &[Argument]) -> bool
    ensures { result ≡ spec.is_async_put (list_before arguments.now no_arguments) }
{
    match arguments {
        [first, behind @ ..] => is_async_behind(first, behind),
        [] => false,
    }
}

/// What the arguments of a call stand for.
pub fn role_in(builtin: Option<Builtin>, arguments: &[Argument]) -> Role
    ensures { result ≡ spec.role_in builtin (list_before arguments.now no_arguments) }
{
    match builtin {
        Some(Builtin::PvPut) => Role::Put(is_async_put(arguments)),
        Some(Builtin::Ask(query)) => Role::Asked(query),
        _ => Role::Value,
    }
}

/// What stands behind a prefix operator stands for.
pub fn role_under(operator: Kind) -> Role
    ensures { result ≡ spec.role_under operator }
{
    if is_step(operator) {
        Role::Target
    } else {
        Role::Value
    }
}

impl Role {
    /// That of what stands in parentheses.
    pub fn in_parentheses(self) -> Role
        ensures { result ≡ spec.in_parentheses self }
    {
        match self {
            Role::Condition => Role::Value,
            other => other,
        }
    }
}
