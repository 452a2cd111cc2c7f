//! The states, variables and event flags of a moment.

use crate::clauses::push_clauses;
use crate::names::{Legend, SetNames, VariableNames};
use crate::steps::Sight;
use crate::values::push_numbers;
use snl_moments::RunHistory;
use snl_output::{push_all, push_told};
use snl_vm::{SetMemory, Store};
use std::alloc::{AllocError, Global};

/// Adds where a state set came from.
fn push_from(
    out: &mut Vec<u8>,
    set: &SetNames,
    left: Option<(usize, u64)>,
) -> Result<(), AllocError> {
    let Some((from, _)) = left else {
        return Ok(());
    };
    match set.states.get(from) {
        Some(from) => push_all(out, &[b" (from ", from.name.as_slice(), b")"]),
        None => Ok(()),
    }
}

/// Adds the state of a state set, since when it is in it, and where it came from.
fn push_state(
    out: &mut Vec<u8>,
    set: &SetNames,
    copy: &SetMemory,
    left: Option<(usize, u64)>,
) -> Result<(), AllocError> {
    let Some(state) = set.states.get(copy.state) else {
        return Ok(());
    };
    let name = set.name.as_slice();
    push_all(out, &[b"state ", name, b" ", state.name.as_slice()])?;
    push_told(out, b" since ", copy.entered, b"")?;
    push_from(out, set, left)?;
    out.extend_from_slice(b"\n")
}

/// Adds what the clauses of the state wait for that a state set is in, where the program runs.
fn push_awaited(
    alloc: Global,
    out: &mut Vec<u8>,
    set: &SetNames,
    sight: Option<Sight>,
) -> Result<(), AllocError> {
    let Some(sight) = sight else {
        return Ok(());
    };
    match set.states.get(sight.state()) {
        Some(state) => push_clauses(alloc, out, state, sight),
        None => Ok(()),
    }
}

/// What the clauses of a state set are looked at by, where the program runs.
fn sight_of<'s>(
    legend: &'s Legend,
    store: &'s Store,
    set: usize,
    runs_at: Option<u64>,
) -> Option<Sight<'s>> {
    let ms = runs_at?;
    Some(Sight {
        store,
        ties: legend.ties.as_slice(),
        set,
        ms,
    })
}

/// Adds the state of each state set, and, as long as the program runs, what its clauses wait for.
pub(crate) fn push_states<'s>(
    alloc: Global,
    out: &mut Vec<u8>,
    legend: &'s Legend,
    store: &'s Store,
    heard: &RunHistory,
    runs_at: Option<u64>,
) -> Result<(), AllocError> {
    for (number, set) in legend.sets.iter().enumerate() {
        let Some(copy) = store.copies.get(number) else {
            return Ok(());
        };
        let left = heard.left.get(number).copied().unwrap_or(None);
        push_state(out, set, copy, left)?;
        push_awaited(alloc, out, set, sight_of(legend, store, number, runs_at))?;
    }
    Ok(())
}

/// The words of a variable in the copy of a state set.
fn words_of<'s>(store: &'s Store, set: usize, variable: &VariableNames) -> &'s [i64] {
    let Some(copy) = store.copies.get(set) else {
        return &[];
    };
    let end = variable.place.saturating_add(variable.size);
    copy.words
        .as_slice()
        .get(variable.place..end)
        .unwrap_or(&[])
}

/// The variable at a place of the copy of a state set, if it is declared where another one is.
fn same_at<'l>(
    legend: &'l Legend,
    set: usize,
    place: usize,
    offset: usize,
) -> Option<&'l VariableNames> {
    let variable = legend.sets.get(set)?.variables.get(place)?;
    if variable.offset == offset {
        Some(variable)
    } else {
        None
    }
}

/// Whether a variable of the first copy stands in each one, and is the same there. Those that all copies have stand in front of all
/// others, in one order.
fn is_alike(legend: &Legend, store: &Store, place: usize, variable: &VariableNames) -> bool {
    let first = words_of(store, 0, variable);
    for set in 1..legend.sets.len() {
        match same_at(legend, set, place, variable.offset) {
            Some(other) if words_of(store, set, other) == first => {}
            _ => return false,
        }
    }
    true
}

/// Adds a variable, and the state set whose copy it is of, where that counts.
fn push_variable(
    out: &mut Vec<u8>,
    variable: &VariableNames,
    words: &[i64],
    set: &[u8],
) -> Result<(), AllocError> {
    push_all(out, &[b"value ", variable.name.as_slice(), b" ="])?;
    push_numbers(out, words)?;
    if !set.is_empty() {
        push_all(out, &[b" (", set, b")"])?;
    }
    out.extend_from_slice(b"\n")
}

/// Adds the variables that all copies have with the same values.
fn push_common(
    out: &mut Vec<u8>,
    legend: &Legend,
    store: &Store,
    common: &mut Vec<bool>,
) -> Result<(), AllocError> {
    let Some(first) = legend.sets.first() else {
        return Ok(());
    };
    for (place, variable) in first.variables.iter().enumerate() {
        let is_common = is_alike(legend, store, place, variable);
        common.push(is_common)?;
        if is_common {
            push_variable(out, variable, words_of(store, 0, variable), b"")?;
        }
    }
    Ok(())
}

/// Adds the other variables of the copy of a state set.
fn push_own(
    out: &mut Vec<u8>,
    set: &SetNames,
    number: usize,
    store: &Store,
    common: &[bool],
) -> Result<(), AllocError> {
    for (place, variable) in set.variables.iter().enumerate() {
        if !common.get(place).copied().unwrap_or(false) {
            let words = words_of(store, number, variable);
            push_variable(out, variable, words, set.name.as_slice())?;
        }
    }
    Ok(())
}

/// Adds all variables: those that are the same in each copy once, and the others for each state set.
pub(crate) fn push_variables(
    alloc: Global,
    out: &mut Vec<u8>,
    legend: &Legend,
    store: &Store,
) -> Result<(), AllocError> {
    let mut common = Vec::new(alloc);
    push_common(out, legend, store, &mut common)?;
    for (number, set) in legend.sets.iter().enumerate() {
        push_own(out, set, number, store, common.as_slice())?;
    }
    Ok(())
}

/// Adds the event flags.
pub(crate) fn push_flags(
    out: &mut Vec<u8>,
    legend: &Legend,
    store: &Store,
) -> Result<(), AllocError> {
    for (flag, is_set) in legend.flags.iter().zip(store.flags.iter()) {
        let what: &[u8] = if *is_set { b" set\n" } else { b" clear\n" };
        push_all(out, &[b"flag ", flag.as_slice(), what])?;
    }
    Ok(())
}
