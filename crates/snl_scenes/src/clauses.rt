//! What each clause of a state waits for.

use crate::conditions::{Part, Test};
use crate::names::{ClauseNames, StateNames};
use crate::sources::Joint;
use crate::steps::{Sight, worth};
use crate::texts::TextPiece;
use crate::values::{push_count, push_number, push_seconds};
use snl_output::push_all;
use std::alloc::{AllocError, Global};

/// Adds a piece of a part, with its value where that is known.
fn push_piece(
    alloc: Global,
    out: &mut Vec<u8>,
    piece: &TextPiece,
    sight: Sight,
) -> Result<(), AllocError> {
    out.extend_from_slice(piece.text.as_slice())?;
    if piece.value.is_empty() {
        return Ok(());
    }
    if let Some(number) = worth(alloc, sight, piece.value.as_slice())? {
        out.push(b'=')?;
        push_number(out, number)?;
    }
    Ok(())
}

/// Adds whether a part holds.
fn push_holds(out: &mut Vec<u8>, value: Option<i64>) -> Result<(), AllocError> {
    out.extend_from_slice(match value {
        Some(0) => b": no",
        Some(_) => b": yes",
        None => b": not known",
    })
}

/// Adds how long a delay lasts yet.
fn push_lasts(
    out: &mut Vec<u8>,
    sight: Sight,
    length: Option<i64>,
    in_seconds: bool,
) -> Result<(), AllocError> {
    let due = match length {
        Some(length) => sight.due(length, in_seconds),
        None => None,
    };
    match due {
        Some(due) if due > sight.ms => {
            out.extend_from_slice(b": ")?;
            push_seconds(out, due - sight.ms)?;
            out.extend_from_slice(b" more")
        }
        Some(_) => out.extend_from_slice(b": yes"),
        None => out.extend_from_slice(b": not known"),
    }
}

/// What stands between a part and the one in front of it.
fn joint_text(joint: Joint) -> &'static [u8] {
    match joint {
        Joint::First => b"",
        Joint::And => b" && ",
        Joint::Or => b" || ",
    }
}

/// Adds a part of a condition, with values, and whether it holds.
fn push_part(
    alloc: Global,
    out: &mut Vec<u8>,
    part: &Part,
    sight: Sight,
) -> Result<(), AllocError> {
    out.extend_from_slice(joint_text(part.joint))?;
    for piece in &part.pieces {
        push_piece(alloc, out, piece, sight)?;
    }
    let value = worth(alloc, sight, part.steps.as_slice())?;
    match part.test {
        Test::Holds => push_holds(out, value),
        Test::Lasts(in_seconds) => push_lasts(out, sight, value, in_seconds),
    }
}

/// Adds a clause of a state.
fn push_clause(
    alloc: Global,
    out: &mut Vec<u8>,
    state: &[u8],
    number: usize,
    clause: &ClauseNames,
    sight: Sight,
) -> Result<(), AllocError> {
    push_count(out, b"clause ", number, b" of ")?;
    out.extend_from_slice(state)?;
    push_count(out, b", line ", clause.line, b": ")?;
    if clause.parts.is_empty() {
        out.extend_from_slice(b"no condition: yes")?;
    }
    for part in &clause.parts {
        push_part(alloc, out, part, sight)?;
    }
    push_all(out, &[b"\n"])
}

/// Adds what each clause of a state waits for, a line each.
pub(crate) fn push_clauses(
    alloc: Global,
    out: &mut Vec<u8>,
    state: &StateNames,
    sight: Sight,
) -> Result<(), AllocError> {
    for (place, clause) in state.clauses.iter().enumerate() {
        let number = place.saturating_add(1);
        push_clause(alloc, out, state.name.as_slice(), number, clause, sight)?;
    }
    Ok(())
}
