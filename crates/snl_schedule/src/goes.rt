//! The lines of transitions, but for their times: they are made when a program is loaded.

ghost use Rattle.std.specs.Prelude.{◌≡◌, map, option_map, IfOk, IfSome, Some};
ghost use Rattle.std.specs.Bool.{OnTrue};
ghost use Rattle.snl_output.specs.Texts.{text_in};
ghost use Rattle.snl_schedule.specs.Goes as spec;

use crate::plans::{ClausePlan, Destination, StatePlan};
use snl_output::{Text, go_text};
use std::alloc::{AllocError, Global};

/// How many bytes a short name has at most. A line with a longer one is not kept: so the lines take no more memory than so much
/// for each clause.
const SHORT: usize = 64;

/// The line of a clause's transition, but for its time.
#[derive(Drop)]
pub struct Go {
    /// Where the clause leads.
    pub target: Destination,
    /// What follows the time in the line, with its newline; None where a name in it is long.
    pub text: Option<Text>,
}

/// The lines of a state set.
#[derive(Drop)]
pub struct Goes {
    /// By state, then by clause.
    pub rows: Vec<Vec<Go>>,
}

/// Whether a clause leads there.
fn is_same(one: Destination, other: Destination) -> bool
    ensures { OnTrue result (one ≡ other) }
{
    match (one, other) {
        (Destination::State(one), Destination::State(other)) => one == other,
        (Destination::Exit, Destination::Exit) => true,
        _ => false,
    }
}

/// The name of a state by its number; empty where there is none.
pub fn name_at(states: &[StatePlan], state: usize) -> &[u8]
    ensures { result.now ≡ spec.name_at states.now state }
{
    match states.get(state) {
        Some(state) => state.name.as_slice(),
        None => &[],
    }
}

/// The name of where a clause leads.
pub fn target_name(states: &[StatePlan], target: Destination) -> &[u8]
    ensures { result.now ≡ spec.target_name states.now target }
{
    match target {
        Destination::State(state) => name_at(states, state),
        Destination::Exit => b"exit",
    }
}

/// Whether a name is short.
fn is_short(name: &[u8]) -> bool
    ensures { result ≡ spec.is_short name.now }
{
    name.len() <= SHORT
}

/// What follows the time in the line of a transition, if that is kept.
fn short_text(alloc: Global, set: &[u8], from: &[u8], to: &[u8]) -> Result<Option<Text>, AllocError>
    ensures { IfOk result (λ kept. option_map text_in kept
        ≡ spec.kept_text set.now from.now to.now) }
{
    if is_short(set) && is_short(from) && is_short(to) {
        let text = go_text(alloc, set, from, to)?;
        return Ok(Some(text));
    }
    Ok(None)
}

/// The line of a clause, in a state set and a state of these names.
fn go_for(
    alloc: Global,
    set: &[u8],
    states: &[StatePlan],
    from: &[u8],
    clause: ClausePlan,
) -> Result<Go, AllocError>
    ensures { IfOk result (λ go. spec.kept_view go
        ≡ spec.kept_for set.now states.now from.now clause) }
{
    let target = clause.target;
    let text = short_text(alloc, set, from, target_name(states, target))?;
    Ok(Go { target, text })
}

/// The lines of the clauses of a state.
fn goes_in(
    alloc: Global,
    set: &[u8],
    states: &[StatePlan],
    state: &StatePlan,
) -> Result<Vec<Go>, AllocError>
    ensures { IfOk result (λ row. map spec.kept_view row.items
        ≡ spec.kept_in set.now states.now state.now) }
{
    let mut row = Vec::new(alloc);
    let from = state.name.as_slice();
    for clause in state.clauses.as_slice() {
        let go = go_for(alloc, set, states, from, *clause)?;
        row.push(go)?;
    }
    Ok(row)
}

impl Goes {
    /// Those of the states of a state set of this name. The only error is that memory ends.
    pub fn new(alloc: Global, set: &[u8], states: &[StatePlan]) -> Result<Goes, AllocError>
        ensures { IfOk result (λ goes. spec.kept_views goes ≡ spec.kept_of set.now states.now) }
    {
        let mut rows = Vec::new(alloc);
        for state in states {
            let row = goes_in(alloc, set, states, state)?;
            rows.push(row)?;
        }
        Ok(Goes { rows })
    }

    /// What follows the time in the line of the clause of a number, if that clause of the state leads there and its line is kept.
    pub fn text(&self, from: usize, clause: usize, to: Destination) -> Option<&Text>
        ensures { IfSome result (λ t. spec.kept_at self.now from clause
            ≡ Some (to, Some (text_in t.now))) }
    {
        match self.rows.get(from) {
            None => None,
            Some(row) => match row.get(clause) {
                Some(go) if is_same(go.target, to) => go.text.as_ref(),
                _ => None,
            },
        }
    }
}
