//! What is told by constants in an expression: of elements, prefix operators and assignments.

ghost use Rattle.std.specs.Prelude.{◌≡◌, ◌++◌, OnOk};
ghost use Rattle.snl_names.specs.UseTables.{declared_at};
ghost use Rattle.snl_syntax.specs.view.Expressions.{view};
ghost use Rattle.snl_lints.specs.Constants.{worth_of, faults_before, faults_assigned};
ghost use Rattle.snl_lints.specs.Touches as spec;

use crate::constants::worth_of;
use crate::operators::{faults_assigned, faults_before};
use crate::touches::{
    Role, Touch, push_assignment, push_faulting, push_name, push_stored, push_subscript,
};
use snl_names::UseTable;
use snl_syntax::Expr;
use snl_text::{Kind, Token};
use std::alloc::AllocError;

/// Adds what a name does that stands for this, and its subscript where that is constant. Fails only where memory ends.
pub fn push_element<'a>(
    index: &Expr<'a>,
    name: Token<'a>,
    role: Role,
    uses: &UseTable,
    found: &mut Vec<Touch<'a>>,
) -> Result<(), AllocError>
    ensures { OnOk result (found.new.items ≡ found.old.items
        ++ (spec.at_name role name.entry
        ++ spec.at_subscript name.entry (worth_of (declared_at uses.now) (view index.now)))) }
{
    push_name(found, name, role)?;
    push_subscript(found, name, worth_of(index, uses))
}

/// Adds a prefix operator, where it faults by its operand. Fails only where memory ends.
pub fn push_prefix<'a>(
    operand: &Expr<'a>,
    operator: Token<'a>,
    uses: &UseTable,
    found: &mut Vec<Touch<'a>>,
) -> Result<(), AllocError>
    ensures { OnOk result (found.new.items ≡ found.old.items
        ++ spec.when_faulting (faults_before operator.entry.kind
        (worth_of (declared_at uses.now) (view operand.now))) operator.entry) }
{
    let is_faulting = faults_before(operator.kind, worth_of(operand, uses));
    push_faulting(found, operator, is_faulting)
}

/// Adds the constant that an assignment gives to its target, where it does. Fails only where memory ends.
pub fn push_given<'a>(
    target: &Expr<'a>,
    operator: Kind,
    value: &Expr<'a>,
    uses: &UseTable,
    found: &mut Vec<Touch<'a>>,
) -> Result<(), AllocError>
    ensures { OnOk result (found.new.items ≡ found.old.items
        ++ spec.at_stored (view target.now) operator
        (worth_of (declared_at uses.now) (view value.now))) }
{
    push_stored(target, operator, worth_of(value, uses), found)
}

/// Adds the operator of an assignment, where it faults by its value, and where the assignment is a condition. Fails only where memory ends.
pub fn push_operator<'a>(
    value: &Expr<'a>,
    operator: Token<'a>,
    role: Role,
    uses: &UseTable,
    found: &mut Vec<Touch<'a>>,
) -> Result<(), AllocError>
    ensures { OnOk result (found.new.items ≡ found.old.items
        ++ (spec.when_faulting (faults_assigned operator.entry.kind
        (worth_of (declared_at uses.now) (view value.now))) operator.entry
        ++ spec.at_assignment role operator.entry)) }
{
    let is_faulting = faults_assigned(operator.kind, worth_of(value, uses));
    push_faulting(found, operator, is_faulting)?;
    push_assignment(found, operator, role)
}
