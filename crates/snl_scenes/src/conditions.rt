//! The parts of conditions, as the person wrote them: what stands between `&&` and `||`, with the values of its variables.

use crate::codes::{ExpressionNames, first_value, push_length, push_steps};
use crate::named::{Values, values_of};
use crate::sources::{Joint, Source, Span};
use crate::steps::Step;
use crate::texts::{TextPiece, pieces_of};
use snl_resolve::{Builtin, builtin_of};
use snl_syntax::{Expr, Term};
use snl_text::{Kind, Token};
use std::alloc::{AllocError, Global};

/// What is told of a part.
#[derive(Clone, Copy, PartialEq, Eq)]
pub(crate) enum Test {
    /// Whether it holds.
    Holds,
    /// How long its `delay` lasts yet; whether its length counts seconds.
    Lasts(bool),
}

/// A part of a condition.
#[derive(Drop)]
pub(crate) struct Part {
    /// What joins it with the part in front of it.
    pub joint: Joint,
    pub pieces: Vec<TextPiece>,
    pub test: Test,
    /// The steps of what it is worth, or of how long its `delay` is.
    pub steps: Vec<Step>,
}

/// How a token changes how deep the next one stands.
fn deeper(depth: usize, kind: Kind) -> usize {
    match kind {
        Kind::OpenParenthesis | Kind::OpenBracket => depth.saturating_add(1),
        Kind::CloseParenthesis | Kind::CloseBracket => depth.saturating_sub(1),
        _ => depth,
    }
}

/// What joins two parts, where a token does.
fn joint_of(kind: Kind) -> Option<Joint> {
    match kind {
        Kind::AmpersandAmpersand => Some(Joint::And),
        Kind::BarBar => Some(Joint::Or),
        _ => None,
    }
}

/// Which tokens the parts of a condition have, by its own. The only error is that memory ends.
fn spans_of(alloc: Global, tokens: &[Token], whole: Span) -> Result<Vec<Span>, AllocError> {
    let mut spans = Vec::new(alloc);
    let mut depth = 0usize;
    let mut rest = whole;
    for (place, token) in tokens.iter().enumerate() {
        depth = deeper(depth, token.kind);
        if depth == 0 {
            if let Some(joint) = joint_of(token.kind) {
                let past = whole.first.saturating_add(place);
                spans.push(Span {
                    past,
                    end: token.pos.offset as usize,
                    ..rest
                })?;
                rest.joint = joint;
                rest.first = past.saturating_add(1);
            }
        }
    }
    spans.push(rest)?;
    Ok(spans)
}

/// Whether operands are joined by `&&` or `||`.
fn are_joined<'a>(terms: &[Term<'a>]) -> bool {
    match terms {
        [first, ..] => joint_of(first.operator.kind).is_some(),
        [] => false,
    }
}

/// How many parts operands have.
#[cycle(count)]
fn operand_count<'a>(terms: &[Term<'a>]) -> usize {
    let mut count = 0usize;
    for term in terms {
        count = count.saturating_add(part_count(&term.operand));
    }
    count
}

/// How many parts a condition has: the operands of `&&` and `||`.
#[cycle(count)]
fn part_count<'a>(expression: &Expr<'a>) -> usize {
    match expression {
        Expr::Chain(first, terms) if are_joined(terms.as_slice()) => {
            part_count(first).saturating_add(operand_count(terms.as_slice()))
        }
        _ => 1,
    }
}

/// The argument of a call of `delay`.
fn delay_in<'e, 'a>(expression: &'e Expr<'a>) -> Option<&'e Expr<'a>> {
    match expression {
        Expr::Parenthesized(inner) => delay_in(inner),
        Expr::Call(name, arguments) => match builtin_of(name.text) {
            Some(Builtin::Delay) => first_value(arguments.as_slice()),
            _ => None,
        },
        _ => None,
    }
}

/// Adds the steps of what is told of a part, and answers what that is.
fn push_test<'a>(
    expression: &Expr<'a>,
    names: ExpressionNames,
    steps: &mut Vec<Step>,
) -> Result<Test, AllocError> {
    match delay_in(expression) {
        Some(length) => {
            let in_seconds = push_length(length, names, steps)?;
            Ok(Test::Lasts(in_seconds))
        }
        None => {
            push_steps(expression, names, steps)?;
            Ok(Test::Holds)
        }
    }
}

/// A part of a condition. The only error is that memory ends.
fn part_of<'a>(
    alloc: Global,
    expression: &Expr<'a>,
    source: &Source,
    span: Span,
    names: ExpressionNames,
) -> Result<Part, AllocError> {
    let values: Values = values_of(alloc, expression, names)?;
    let pieces = pieces_of(alloc, source, span, &values)?;
    let mut steps = Vec::new(alloc);
    let test = push_test(expression, names, &mut steps)?;
    Ok(Part {
        joint: span.joint,
        pieces,
        test,
        steps,
    })
}

/// Adds the next part of a condition, by the tokens of all.
fn push_part<'a>(
    alloc: Global,
    expression: &Expr<'a>,
    source: &Source,
    spans: &[Span],
    names: ExpressionNames,
    parts: &mut Vec<Part>,
) -> Result<(), AllocError> {
    if let Some(span) = spans.get(parts.len()) {
        parts.push(part_of(alloc, expression, source, *span, names)?)?;
    }
    Ok(())
}

/// Adds the parts of operands.
#[cycle(part)]
fn push_operands<'a>(
    alloc: Global,
    terms: &[Term<'a>],
    source: &Source,
    spans: &[Span],
    names: ExpressionNames,
    parts: &mut Vec<Part>,
) -> Result<(), AllocError> {
    for term in terms {
        push_parts(alloc, &term.operand, source, spans, names, parts)?;
    }
    Ok(())
}

/// Adds the parts of a condition, in the order of their tokens.
#[cycle(part)]
fn push_parts<'a>(
    alloc: Global,
    expression: &Expr<'a>,
    source: &Source,
    spans: &[Span],
    names: ExpressionNames,
    parts: &mut Vec<Part>,
) -> Result<(), AllocError> {
    match expression {
        Expr::Chain(first, terms) if are_joined(terms.as_slice()) => {
            push_parts(alloc, first, source, spans, names, parts)?;
            push_operands(alloc, terms.as_slice(), source, spans, names, parts)
        }
        _ => push_part(alloc, expression, source, spans, names, parts),
    }
}

/// The parts of the condition of the clause whose word `when` stands at an offset. Where its tokens do not fall into as many parts, it is
/// one. The only error is that memory ends.
pub(crate) fn parts_of<'a>(
    alloc: Global,
    condition: &Expr<'a>,
    source: &Source,
    word: usize,
    names: ExpressionNames,
) -> Result<Vec<Part>, AllocError> {
    let whole = source.condition(word);
    let spans = spans_of(alloc, source.tokens(whole), whole)?;
    let mut parts = Vec::new(alloc);
    if spans.len() == part_count(condition) {
        push_parts(
            alloc,
            condition,
            source,
            spans.as_slice(),
            names,
            &mut parts,
        )?;
    } else {
        push_part(alloc, condition, source, &[whole], names, &mut parts)?;
    }
    Ok(parts)
}
