//! The answer of `cover`, as a text: what no run showed.

use crate::coverage::Coverage;
use crate::missed::{Gaps, Missed, Share};
use snl_outline::StateOutline;
use snl_output::{push_all, push_told};
use std::alloc::{AllocError, Global};

/// Adds the line of the source, and ends with a text.
fn push_line(out: &mut Vec<u8>, line: usize, end: &[u8]) -> Result<(), AllocError> {
    push_told(out, b" (line ", line as u64, b")")?;
    push_all(out, &[end, b"\n"])
}

/// Adds a state that was never entered.
fn push_state(out: &mut Vec<u8>, set: &[u8], state: &StateOutline) -> Result<(), AllocError> {
    push_all(out, &[b"never entered: ", set, b" ", state.name.as_slice()])?;
    let end: &[u8] = if state.is_reached {
        b""
    } else {
        b": it cannot be reached"
    };
    push_line(out, state.line, end)
}

/// Adds a clause of a state that was never taken; `left` tells whether it fired, and its block left for another state.
fn push_clause(
    out: &mut Vec<u8>,
    set: &[u8],
    state: &StateOutline,
    clause: usize,
    left: bool,
) -> Result<(), AllocError> {
    let Some(arrow) = state.clauses.get(clause) else {
        return Ok(());
    };
    let name = state.name.as_slice();
    push_all(out, &[b"never taken: ", set, b" ", name])?;
    push_told(out, b" ", (clause as u64).saturating_add(1), b" to ")?;
    out.extend_from_slice(arrow.target.as_slice())?;
    let end: &[u8] = if left {
        b"; its block always left for another state"
    } else {
        b""
    };
    push_line(out, arrow.line, end)
}

/// Adds a channel that was never put to.
fn push_channel(out: &mut Vec<u8>, coverage: &Coverage, number: usize) -> Result<(), AllocError> {
    let Some(put) = coverage.puts.get(number) else {
        return Ok(());
    };
    push_all(
        out,
        &[
            b"never put: ",
            put.channel.as_slice(),
            b" (",
            put.variable.as_slice(),
        ],
    )?;
    push_told(out, b", line ", put.line as u64, b")\n")
}

/// Adds something that was missed.
fn push_missed(out: &mut Vec<u8>, coverage: &Coverage, missed: Missed) -> Result<(), AllocError> {
    let (number, state) = match missed {
        Missed::State(set, state) | Missed::Clause(set, state, _) => (set, state),
        Missed::Channel(number) => return push_channel(out, coverage, number),
    };
    let Some(set) = coverage.chart.outline.sets.get(number) else {
        return Ok(());
    };
    let Some(chart) = set.states.get(state) else {
        return Ok(());
    };
    match missed {
        Missed::Clause(_, _, clause) => {
            let left = coverage.left(number, state, clause) > 0;
            push_clause(out, set.name.as_slice(), chart, clause, left)
        }
        _ => push_state(out, set.name.as_slice(), chart),
    }
}

/// Adds how much was seen of what there is.
fn push_share(out: &mut Vec<u8>, share: Share, what: &[u8]) -> Result<(), AllocError> {
    push_told(out, b"", share.seen, b" of ")?;
    push_told(out, b"", share.all, what)
}

/// The answer as text: what was missed, a line each, and a last line with the sums. Fails only where memory ran out.
pub fn coverage_text(
    alloc: Global,
    coverage: &Coverage,
    gaps: &Gaps,
) -> Result<Vec<u8>, AllocError> {
    let mut out = Vec::new(alloc);
    if coverage.begun() == 0 {
        out.extend_from_slice(b"the program never began\n")?;
    }
    for missed in &gaps.missed {
        push_missed(&mut out, coverage, *missed)?;
    }
    push_share(&mut out, gaps.clauses, b" clauses taken, ")?;
    push_share(&mut out, gaps.states, b" states entered, ")?;
    push_share(&mut out, gaps.channels, b" channels put\n")?;
    Ok(out)
}
