//! What code does by a name.

ghost use Rattle.std.specs.Prelude.{◌≡◌, ◌++◌, OnOk};
ghost use Rattle.snl_copies.specs.Code as spec;

use snl_names::{Builtin, Query, is_step};
use snl_text::{Kind, Token};
use std::alloc::AllocError;

/// What a piece of code does, by a name that stands in it.
#[derive(Clone, Copy)]
pub enum Touch<'a> {
    /// It reads a variable.
    Reads(Token<'a>),
    /// It stores into a variable.
    Writes(Token<'a>),
    /// A variable of a block or a parameter begins, which has this name.
    Begins(Token<'a>),
    /// It calls a function of the program.
    Calls(Token<'a>),
    /// It leads to a state.
    Leads(Token<'a>),
}

/// What an expression stands for.
#[derive(Clone, Copy)]
pub enum Role {
    /// Its value.
    Value,
    /// A variable that is stored into.
    Target,
    /// A channel, a queue or an event flag.
    Handle,
}

/// Adds what a name does that stands for this. Fails only where memory ends.
pub fn push_name<'a>(
    code: &mut Vec<Touch<'a>>,
    name: Token<'a>,
    role: Role,
) -> Result<(), AllocError>
    ensures { OnOk result (code.new.items ≡ code.old.items ++ spec.at_name role name.entry) }
{
    match role {
        Role::Value => code.push(Touch::Reads(name))?,
        Role::Target => code.push(Touch::Writes(name))?,
        Role::Handle => {}
    }
    Ok(())
}

/// Adds that a function of the program is called, where it is not built in. Fails only where memory ends.
pub fn push_call<'a>(
    code: &mut Vec<Touch<'a>>,
    name: Token<'a>,
    builtin: Option<Builtin>,
) -> Result<(), AllocError>
    ensures { OnOk result (code.new.items ≡ code.old.items ++ spec.at_call builtin name.entry) }
{
    if builtin.is_none() {
        code.push(Touch::Calls(name))?;
    }
    Ok(())
}

/// What the arguments of a call stand for.
pub fn role_in(builtin: Option<Builtin>) -> Role
    ensures { result ≡ spec.role_in builtin }
{
    match builtin {
        Some(Builtin::Ask(Query::PvGet | Query::PvGetQ)) => Role::Target,
        Some(Builtin::Ask(_)) => Role::Handle,
        _ => Role::Value,
    }
}

/// What stands behind a prefix operator stands for.
pub fn role_under(operator: Kind) -> Role
    ensures { result ≡ spec.role_under operator }
{
    if is_step(operator) {
        Role::Target
    } else {
        Role::Value
    }
}
