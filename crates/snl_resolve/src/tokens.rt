//! Notes the sites of single tokens in expressions.

ghost use Rattle.std.specs.Prelude.{◌≡◌, [], ◌∷◌, ◌++◌, OnOk, IfOk};
ghost use Rattle.snl_syntax.specs.view.Expressions.{view, list_before};
ghost use Rattle.snl_syntax.specs.Expressions.{no_arguments};
ghost use Rattle.snl_names.specs.Calls as calls;
ghost use Rattle.snl_names.specs.Chains.{scopes_of};
ghost use Rattle.snl_resolve.specs.Seen.{sight_of};
ghost use Rattle.snl_names.specs.Scopes.{meaning};
ghost use Rattle.snl_names.specs.Sights.{called};
ghost use Rattle.snl_names.specs.Purposes as spec;

use crate::sights::Sight;
use snl_names::{
    Purpose, Scopes, Site, call_site, change_site, format_site, is_fitting, is_good_decimal,
    is_step, pushed,
};
use snl_syntax::{Argument, Expr};
use snl_text::{Kind, Token};
use std::alloc::AllocError;

/// Notes a constant, if it is a decimal one. Fails only where memory ends.
pub fn note_constant<'a>(
    purpose: Purpose,
    token: Token<'a>,
    sites: &mut Vec<Site<'a>>,
) -> Result<(), AllocError>
    ensures { OnOk result (sites.new.items ≡ sites.old.items
        ++ spec.at_constant purpose token.entry token.entry.kind) }
{
    match token.kind {
        Kind::Decimal => pushed(
            sites,
            Site::Decimal {
                number: token,
                is_good: is_good_decimal(purpose, token.text),
            },
        ),
        _ => Ok(()),
    }
}

/// Notes the use of a name, with a subscript or not. Fails only where memory ends.
pub fn note_use<'a>(
    scopes: &Scopes<'_, 'a>,
    purpose: Purpose,
    name: Token<'a>,
    has_subscript: bool,
    sites: &mut Vec<Site<'a>>,
) -> Result<(), AllocError>
    ensures { OnOk result (sites.new.items ≡ sites.old.items
        ++ Site.Use purpose name.entry (meaning (scopes_of scopes.now) name.entry) has_subscript
        ∷ []) }
{
    let meaning = scopes.meaning(name);
    pushed(
        sites,
        Site::Use {
            purpose,
            name,
            meaning,
            has_subscript,
        },
    )
}

/// Notes an operator that changes its target. Fails only where memory ends.
pub fn note_change<'a>(
    purpose: Purpose,
    target: &Expr,
    operator: Token<'a>,
    sites: &mut Vec<Site<'a>>,
) -> Result<(), AllocError>
    ensures { OnOk result (sites.new.items ≡ sites.old.items
        ++ spec.at_change purpose (view target.now) operator.entry ∷ []) }
{
    pushed(sites, change_site(purpose, target, operator))
}

/// Notes a prefix operator, if it is `++` or `--`; gives what its operand is for. Fails only where memory ends.
pub fn note_prefix<'a>(
    operand: &Expr,
    purpose: Purpose,
    operator: Token<'a>,
    sites: &mut Vec<Site<'a>>,
) -> Result<Purpose, AllocError>
    ensures purpose { IfOk result (λ inside. inside
        ≡ spec.operand_of purpose (spec.is_step operator.entry.kind)) }
    ensures sites { OnOk result (sites.new.items ≡ sites.old.items
        ++ spec.at_prefix purpose (view operand.now) operator.entry
        (spec.is_step operator.entry.kind)) }
{
    if is_step(operator.kind) {
        note_change(purpose, operand, operator, sites)?;
        return Ok(purpose.target());
    }
    Ok(purpose.inner())
}

/// Notes a call; gives what its arguments are for. Fails only where memory ends.
pub fn note_call<'a>(
    arguments: &[Argument<'a>],
    sight: &Sight<'_, 'a>,
    purpose: Purpose,
    in_condition: bool,
    name: Token<'a>,
    sites: &mut Vec<Site<'a>>,
) -> Result<Purpose, AllocError>
    ensures purpose { IfOk result (λ inside. inside
        ≡ spec.argument purpose (called (sight_of sight.now) name.entry)
        (calls.is_fitting (called (sight_of sight.now) name.entry)
        (list_before arguments.now no_arguments))) }
    ensures sites { OnOk result (sites.new.items ≡ sites.old.items
        ++ spec.at_call purpose in_condition name.entry (called (sight_of sight.now) name.entry)
        (calls.is_fitting (called (sight_of sight.now) name.entry)
        (list_before arguments.now no_arguments)) ∷ []) }
{
    let kind = sight.called(name);
    let fitting = is_fitting(arguments, kind);
    pushed(sites, call_site(purpose, in_condition, name, kind, fitting))?;
    Ok(purpose.argument(kind, fitting))
}

/// Notes a string as an argument, with so many arguments after it. Fails only where memory ends.
pub fn note_format<'a>(
    purpose: Purpose,
    format: Token<'a>,
    count: usize,
    sites: &mut Vec<Site<'a>>,
) -> Result<(), AllocError>
    ensures { OnOk result (sites.new.items ≡ sites.old.items
        ++ spec.at_format purpose format.entry count ∷ []) }
{
    pushed(sites, format_site(purpose, format, count))
}
