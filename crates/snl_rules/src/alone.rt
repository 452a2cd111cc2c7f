//! The rules that a site breaks by itself: its fields tell them.

ghost use Rattle.std.specs.Prelude.{◌≡◌, ◌++◌, not, OnOk};
ghost use Rattle.snl_rules.specs.Rules as spec;

use crate::rules::Rule;
use snl_resolve::{Meaning, Purpose, Site, Size};
use std::alloc::AllocError;

/// Adds a rule, where a test holds. Fails only where memory ends.
pub fn tell_when(test: bool, rule: Rule, found: &mut Vec<Rule>) -> Result<(), AllocError>
    ensures { OnOk result (found.new.items ≡ found.old.items ++ spec.when test rule) }
{
    if test {
        found.push(rule)?;
    }
    Ok(())
}

/// E13: the name is not declared.
fn is_undeclared(purpose: Purpose, meaning: Meaning) -> bool
    ensures { result ≡ spec.is_undeclared purpose meaning }
{
    !matches!(purpose, Purpose::Ignored) && matches!(meaning, Meaning::Nothing)
}

/// E15: an event flag where a value is used, or an event flag or a predefined name where a variable has to stand.
fn is_no_variable(purpose: Purpose, meaning: Meaning) -> bool
    ensures { result ≡ spec.is_no_variable purpose meaning }
{
    match (purpose, meaning) {
        (Purpose::Ignored | Purpose::Flagged, _) => false,
        (_, Meaning::Flag(_)) => true,
        (Purpose::Changed | Purpose::Channel | Purpose::Queued, Meaning::Number) => true,
        _ => false,
    }
}

/// E21: a variable or a predefined name where an event flag has to stand.
fn is_no_flag(purpose: Purpose, meaning: Meaning) -> bool
    ensures { result ≡ spec.is_no_flag purpose meaning }
{
    matches!(
        (purpose, meaning),
        (Purpose::Flagged, Meaning::Variable(_, _) | Meaning::Number)
    )
}

/// Adds what is wrong with a name, other than as an event flag.
fn tell_name(purpose: Purpose, meaning: Meaning, found: &mut Vec<Rule>) -> Result<(), AllocError>
    ensures { OnOk result (found.new.items ≡ found.old.items
        ++ (spec.when (spec.is_undeclared purpose meaning) Rule.Undeclared
        ++ spec.when (spec.is_no_variable purpose meaning) Rule.NoVariable)) }
{
    tell_when(is_undeclared(purpose, meaning), Rule::Undeclared, found)?;
    tell_when(is_no_variable(purpose, meaning), Rule::NoVariable, found)
}

/// Adds what is wrong with a name in an expression.
fn tell_use(purpose: Purpose, meaning: Meaning, found: &mut Vec<Rule>) -> Result<(), AllocError>
    ensures { OnOk result (found.new.items ≡ found.old.items
        ++ (spec.when (spec.is_undeclared purpose meaning) Rule.Undeclared
        ++ spec.when (spec.is_no_variable purpose meaning) Rule.NoVariable
        ++ spec.when (spec.is_no_flag purpose meaning) Rule.NoFlag)) }
{
    tell_name(purpose, meaning, found)?;
    tell_when(is_no_flag(purpose, meaning), Rule::NoFlag, found)
}

/// Adds what is wrong with a declared name.
fn tell_declarator(
    size: Size,
    has_good_initialiser: bool,
    found: &mut Vec<Rule>,
) -> Result<(), AllocError>
    ensures { OnOk result (found.new.items ≡ found.old.items
        ++ (spec.when (spec.is_too_long size) Rule.TooManyElements
        ++ spec.when (spec.is_wrong_size size) Rule.WrongArray
        ++ spec.when (not has_good_initialiser) Rule.BadInitialiser)) }
{
    tell_when(matches!(size, Size::TooLong), Rule::TooManyElements, found)?;
    tell_when(matches!(size, Size::Wrong), Rule::WrongArray, found)?;
    tell_when(!has_good_initialiser, Rule::BadInitialiser, found)
}

/// Adds what is wrong with a call.
fn tell_call(
    is_known: bool,
    is_fitting: bool,
    may_stand: bool,
    has_value: bool,
    found: &mut Vec<Rule>,
) -> Result<(), AllocError>
    ensures { OnOk result (found.new.items ≡ found.old.items
        ++ (spec.when (not is_known) Rule.UnknownFunction
        ++ spec.when (not is_fitting) Rule.WrongArguments
        ++ spec.when (not may_stand) Rule.DelayElsewhere
        ++ spec.when (not has_value) Rule.NoValue)) }
{
    tell_when(!is_known, Rule::UnknownFunction, found)?;
    tell_when(!is_fitting, Rule::WrongArguments, found)?;
    tell_when(!may_stand, Rule::DelayElsewhere, found)?;
    tell_when(!has_value, Rule::NoValue, found)
}

/// Adds what is wrong with a state.
fn tell_state(is_later: bool, has_clauses: bool, found: &mut Vec<Rule>) -> Result<(), AllocError>
    ensures { OnOk result (found.new.items ≡ found.old.items
        ++ (spec.when is_later Rule.StateTwice ++ spec.when (not has_clauses) Rule.NoClauses)) }
{
    tell_when(is_later, Rule::StateTwice, found)?;
    tell_when(!has_clauses, Rule::NoClauses, found)
}

/// Adds the rules that a site breaks by itself (SNL Reference: each rule in the section of its
/// construct). Fails only where memory ends.
pub fn tell_alone(site: &Site, found: &mut Vec<Rule>) -> Result<(), AllocError>
    ensures { OnOk result (found.new.items ≡ found.old.items ++ spec.alone site.now) }
{
    match site {
        Site::Declaration { is_later, .. } => tell_when(*is_later, Rule::DeclaredTwice, found),
        Site::Typed { is_supported, .. } => tell_when(!*is_supported, Rule::WrongType, found),
        Site::Declarator {
            size,
            has_good_initialiser,
            ..
        } => tell_declarator(*size, *has_good_initialiser, found),
        Site::Defined { meaning, .. } => tell_name(Purpose::Changed, *meaning, found),
        Site::QueueSize { is_good, .. } => tell_when(!*is_good, Rule::QueueSize, found),
        Site::Setting { refused, .. } => tell_when(refused.is_some(), Rule::UnknownOption, found),
        Site::Use {
            purpose,
            meaning,
            ..
        } => tell_use(*purpose, *meaning, found),
        Site::Decimal { is_good, .. } => tell_when(!*is_good, Rule::WrongDecimal, found),
        Site::Call {
            is_known,
            is_fitting,
            may_stand,
            has_value,
            ..
        } => tell_call(*is_known, *is_fitting, *may_stand, *has_value, found),
        Site::Function { is_taken, .. } => tell_when(*is_taken, Rule::DeclaredTwice, found),
        Site::Return { may_stand, .. } => tell_when(!*may_stand, Rule::ReturnElsewhere, found),
        Site::Format { is_good, .. } => tell_when(!*is_good, Rule::BadFormat, found),
        Site::Change { is_good, .. } => tell_when(!*is_good, Rule::NotAssignable, found),
        Site::LoopExit { is_in_loop, .. } => tell_when(!*is_in_loop, Rule::OutsideLoop, found),
        Site::StateChange { is_in_clause, .. } => tell_when(
            !*is_in_clause,
            Rule::StateElsewhere,
            found,
        ),
        Site::Target {
            state,
            may_stand,
            ..
        } => tell_when(*may_stand && state.is_none(), Rule::NoState, found),
        Site::Clause { is_blocked, .. } => tell_when(*is_blocked, Rule::NeverReached, found),
        Site::State {
            is_later,
            has_clauses,
            ..
        } => tell_state(*is_later, *has_clauses, found),
        Site::StateSet { is_later, .. } => tell_when(*is_later, Rule::StateSetTwice, found),
    }
}
