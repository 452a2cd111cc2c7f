//! The steps of a part of a condition.

use crate::steps::Step;
use snl_links::Link;
use snl_meaning::{Offsets, Places, Variable, is_decimal};
use snl_resolve::{Builtin, Constant, Query, Scopes, UseTable, builtin_of, constant_of};
use snl_syntax::{Argument, Expr, Term};
use snl_text::{Kind, Token, decimal_value};
use std::alloc::AllocError;

/// Adds a step.
fn add(steps: &mut Vec<Step>, step: Step) -> Result<(), AllocError> {
    steps.push(step)?;
    Ok(())
}

/// What names in a condition mean.
#[derive(Clone, Copy)]
pub(crate) struct ExpressionNames<'n> {
    /// The declarations that they mean.
    pub uses: &'n UseTable,
    /// The variables of the copy of the state set.
    pub places: &'n Places,
    /// The event flags.
    pub flags: &'n Offsets,
    /// The links of the program.
    pub links: &'n [Link],
}

impl ExpressionNames<'_> {
    /// The variable that a name means.
    pub(crate) fn variable(self, name: Token) -> Option<Variable> {
        let declared = self.uses.declared(name.pos.offset as usize)?;
        self.places.variable(declared.offset as usize)
    }

    /// The event flag that a name means.
    fn flag(self, name: Token) -> Option<usize> {
        let declared = self.uses.declared(name.pos.offset as usize)?;
        let number = self.flags.number(declared.offset as usize);
        if number < self.flags.len() {
            Some(number)
        } else {
            None
        }
    }

    /// The link that begins at an element of the variable that a name means.
    fn link(self, name: Token, index: usize) -> Option<usize> {
        let declared = self.uses.declared(name.pos.offset as usize)?;
        self.links.iter().position(|link| link.variable.offset == declared.offset
            && link.first == index)
    }
}

/// The first of some arguments, where it is an expression.
pub(crate) fn first_value<'e, 'a>(arguments: &'e [Argument<'a>]) -> Option<&'e Expr<'a>> {
    match arguments {
        [first, ..] => match first {
            Argument::Value(value) => Some(value),
            Argument::Text(_) => None,
        },
        [] => None,
    }
}

/// A decimal constant in milliseconds, also in parentheses.
fn milliseconds(expression: &Expr) -> Option<i64> {
    match expression {
        Expr::Constant(token) => {
            let value = decimal_value(token.text)?;
            i64::try_from(value.thousandths).ok()
        }
        Expr::Parenthesized(inner) => milliseconds(inner),
        _ => None,
    }
}

/// The element that a name or a name with a constant subscript means: the name and the number of the element.
fn element_of<'a>(expression: &Expr<'a>) -> Option<(Token<'a>, usize)> {
    match expression {
        Expr::Parenthesized(inner) => element_of(inner),
        Expr::Named(name) => Some((*name, 0)),
        Expr::Element { name, index, .. } => match constant_of(index, &Scopes::Outside) {
            Constant::Worth(number) => Some((*name, usize::try_from(number).ok()?)),
            Constant::Varies | Constant::Faults => None,
        },
        _ => None,
    }
}

/// The step of a question about an event flag.
fn flag_step(query: Query, name: Token, names: ExpressionNames) -> Option<Step> {
    match query {
        Query::EfTest | Query::EfTestAndClear | Query::EfClear => {
            Some(Step::Flag(names.flag(name)?))
        }
        _ => None,
    }
}

/// The step of a question about a link; one that is not there is answered by 0.
fn link_step(query: Query, name: Token, index: usize, names: ExpressionNames) -> Option<Step> {
    let Some(link) = names.link(name, index) else {
        return match query {
            Query::PvConnected | Query::PvPutComplete | Query::PvGetQ => Some(Step::Number(0)),
            _ => None,
        };
    };
    match query {
        Query::PvConnected => Some(Step::Connected(link)),
        Query::PvPutComplete => Some(Step::Answered(link)),
        Query::PvGetQ => Some(Step::Queued(link)),
        _ => None,
    }
}

/// The step of a question about what an expression names.
fn asked_of<'a>(query: Query, expression: &Expr<'a>, names: ExpressionNames) -> Option<Step> {
    let (name, index) = element_of(expression)?;
    match flag_step(query, name, names) {
        Some(step) => Some(step),
        None => link_step(query, name, index, names),
    }
}

/// The step of a question.
fn query_step<'a>(query: Query, arguments: &[Argument<'a>], names: ExpressionNames) -> Step {
    match query {
        Query::PvChannelCount => Step::Count(false),
        Query::PvConnectCount => Step::Count(true),
        _ => match first_value(arguments) {
            Some(first) => asked_of(query, first, names).unwrap_or(Step::Unknown),
            None => Step::Unknown,
        },
    }
}

/// Adds the steps of how long a `delay` is. Answers whether that counts seconds.
#[cycle(code)]
pub(crate) fn push_length<'a>(
    argument: &Expr<'a>,
    names: ExpressionNames,
    steps: &mut Vec<Step>,
) -> Result<bool, AllocError> {
    if is_decimal(argument) {
        steps.push(Step::Number(milliseconds(argument).unwrap_or(0)))?;
        return Ok(false);
    }
    push_steps(argument, names, steps)?;
    Ok(true)
}

/// Adds the steps of a call of `delay`.
#[cycle(code)]
fn push_delay<'a>(
    arguments: &[Argument<'a>],
    names: ExpressionNames,
    steps: &mut Vec<Step>,
) -> Result<(), AllocError> {
    for argument in arguments {
        if let Argument::Value(length) = argument {
            let in_seconds = push_length(length, names, steps)?;
            return add(steps, Step::Delay(in_seconds));
        }
    }
    add(steps, Step::Unknown)
}

/// Adds the steps of a call.
#[cycle(code)]
fn push_call<'a>(
    name: &Token<'a>,
    arguments: &[Argument<'a>],
    names: ExpressionNames,
    steps: &mut Vec<Step>,
) -> Result<(), AllocError> {
    match builtin_of(name.text) {
        Some(Builtin::Delay) => push_delay(arguments, names, steps),
        Some(Builtin::Ask(query)) => add(steps, query_step(query, arguments, names)),
        _ => add(steps, Step::Unknown),
    }
}

/// The step of a constant.
fn constant_step<'a>(expression: &Expr<'a>) -> Step {
    match constant_of(expression, &Scopes::Outside) {
        Constant::Worth(number) => Step::Number(number),
        Constant::Varies | Constant::Faults => Step::Unknown,
    }
}

/// The step of a name alone: the first element of a variable, or a predefined number.
fn name_step<'a>(expression: &Expr<'a>, name: Token, names: ExpressionNames) -> Step {
    match names.variable(name) {
        Some(variable) => Step::Word(variable.place),
        None => constant_step(expression),
    }
}

/// Adds the steps of operands and the operators in front of them.
#[cycle(code)]
fn push_terms<'a>(
    terms: &[Term<'a>],
    names: ExpressionNames,
    steps: &mut Vec<Step>,
) -> Result<(), AllocError> {
    for term in terms {
        push_steps(&term.operand, names, steps)?;
        steps.push(Step::Operator(term.operator.kind))?;
    }
    Ok(())
}

/// Adds the step of an element, behind those of its subscript.
#[cycle(code)]
fn push_element<'a>(
    name: &Token<'a>,
    index: &Expr<'a>,
    names: ExpressionNames,
    steps: &mut Vec<Step>,
) -> Result<(), AllocError> {
    push_steps(index, names, steps)?;
    let step = match names.variable(*name) {
        Some(variable) => Step::Element(variable.place, variable.size),
        None => Step::Unknown,
    };
    add(steps, step)
}

/// Adds the steps of an operand, and that of the sign in front of it.
#[cycle(code)]
fn push_signed<'a>(
    operand: &Expr<'a>,
    sign: Kind,
    names: ExpressionNames,
    steps: &mut Vec<Step>,
) -> Result<(), AllocError> {
    push_steps(operand, names, steps)?;
    add(steps, Step::Sign(sign))
}

/// Whether a sign changes its operand.
fn changes(sign: Kind) -> bool {
    matches!(sign, Kind::PlusPlus | Kind::MinusMinus)
}

/// Adds the steps of an expression. What changes something is not known. The only error is that memory ends.
#[cycle(code)]
pub(crate) fn push_steps<'a>(
    expression: &Expr<'a>,
    names: ExpressionNames,
    steps: &mut Vec<Step>,
) -> Result<(), AllocError> {
    match expression {
        Expr::Constant(_) => add(steps, constant_step(expression)),
        Expr::Parenthesized(inner) => push_steps(inner, names, steps),
        Expr::Named(name) => add(steps, name_step(expression, *name, names)),
        Expr::Element { name, index, .. } => push_element(name, index, names, steps),
        Expr::Call(name, arguments) => push_call(name, arguments.as_slice(), names, steps),
        Expr::Prefix(sign, operand) if !changes(sign.kind) => {
            push_signed(operand, sign.kind, names, steps)
        }
        Expr::Chain(first, terms) => {
            push_steps(first, names, steps)?;
            push_terms(terms.as_slice(), names, steps)
        }
        Expr::Conditional { condition, yes, no } => {
            push_steps(condition, names, steps)?;
            push_steps(yes, names, steps)?;
            push_steps(no, names, steps)?;
            add(steps, Step::Choice)
        }
        Expr::Prefix(_, _) | Expr::Postfix(_, _) | Expr::Assignment { .. } => {
            add(steps, Step::Unknown)
        }
    }
}
