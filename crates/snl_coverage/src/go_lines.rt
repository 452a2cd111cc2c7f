//! The lines that the clauses of a program have in a run, but for their times.

ghost use Rattle.std.specs.Prelude.{◌≡◌, ◌++◌, IfOk, OnOk};
ghost use Rattle.std.specs.List.{flat_map};
ghost use Rattle.snl_outline.specs.Shapes.{outlined_set, outlined_state, targets_in};
ghost use Rattle.snl_coverage.specs.Shapes as spec;

use crate::charts::Chart;
use snl_heard::go_end;
use snl_names::pushed;
use snl_outline::{ClauseOutline, SetOutline, StateOutline};
use std::alloc::{AllocError, Global};

/// Adds those of the clauses of a state.
fn push_arrow_texts(
    alloc: Global,
    set: &[u8],
    from: &[u8],
    arrows: &[ClauseOutline],
    texts: &mut Vec<Vec<u8>>,
) -> Result<(), AllocError>
    ensures { OnOk result (spec.bytes_of texts.new.items ≡ spec.bytes_of texts.old.items
        ++ spec.arrow_texts set.now from.now (targets_in arrows.now)) }
{
    for arrow in arrows {
        let text = go_end(alloc, set, from, arrow.target.as_slice())?;
        pushed(texts, text)?;
    }
    Ok(())
}

/// Adds those of a state.
fn push_state_texts(
    alloc: Global,
    set: &[u8],
    state: &StateOutline,
    texts: &mut Vec<Vec<u8>>,
) -> Result<(), AllocError>
    ensures { OnOk result (spec.bytes_of texts.new.items ≡ spec.bytes_of texts.old.items
        ++ spec.state_texts set.now (outlined_state state.now)) }
{
    let from = state.name.as_slice();
    push_arrow_texts(alloc, set, from, state.clauses.as_slice(), texts)
}

/// Adds those of a state set.
fn push_set_texts(
    alloc: Global,
    set: &SetOutline,
    texts: &mut Vec<Vec<u8>>,
) -> Result<(), AllocError>
    ensures { OnOk result (spec.bytes_of texts.new.items ≡ spec.bytes_of texts.old.items
        ++ spec.set_texts (outlined_set set.now)) }
{
    for state in set.states.as_slice() {
        push_state_texts(alloc, set.name.as_slice(), state, texts)?;
    }
    Ok(())
}

/// What follows the time in the line of a transition by each clause of a program, in order. The only error is that memory ends.
pub(crate) fn go_texts(alloc: Global, chart: &Chart) -> Result<Vec<Vec<u8>>, AllocError>
    ensures { IfOk result (λ texts. spec.bytes_of texts.items
        ≡ spec.go_texts (spec.charted chart.now)) }
{
    let mut texts = Vec::new(alloc);
    for set in chart.outline.sets.as_slice() {
        push_set_texts(alloc, set, &mut texts)?;
    }
    Ok(texts)
}
