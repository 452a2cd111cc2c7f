//! States by their names.

use crate::loader::Scene;
use crate::names::{SetNames, StateNames};
use std::alloc::{AllocError, Global};

/// The state set and the state of a word `SS.STATE`.
fn split(word: &[u8]) -> Option<(&[u8], &[u8])> {
    let point = word.iter().position(|byte| *byte == b'.')?;
    Some((word.get(..point)?, word.get(point.saturating_add(1)..)?))
}

/// The number of a state set by its name.
fn set_named(sets: &[SetNames], name: &[u8]) -> Option<usize> {
    for (number, set) in sets.iter().enumerate() {
        if set.name.as_slice() == name {
            return Some(number);
        }
    }
    None
}

/// The number of a state by its name.
fn state_named(states: &[StateNames], name: &[u8]) -> Option<usize> {
    for (number, state) in states.iter().enumerate() {
        if state.name.as_slice() == name {
            return Some(number);
        }
    }
    None
}

/// The name of a state with its state set, as `SS.STATE`.
fn whole_name(alloc: Global, set: &[u8], state: &[u8]) -> Result<Vec<u8>, AllocError> {
    let mut name = Vec::from_slice(alloc, set)?;
    name.push(b'.')?;
    name.extend_from_slice(state)?;
    Ok(name)
}

/// Adds the names of the states of a state set.
fn push_places(alloc: Global, set: &SetNames, names: &mut Vec<Vec<u8>>) -> Result<(), AllocError> {
    for state in &set.states {
        names.push(whole_name(alloc, set.name.as_slice(), state.name.as_slice())?)?;
    }
    Ok(())
}

impl Scene {
    /// The numbers of the state set and the state that a word `SS.STATE` names; None where there is no such state.
    pub fn place(&self, word: &[u8]) -> Option<(usize, usize)> {
        let (set, state) = split(word)?;
        let sets = self.legend.sets.as_slice();
        let number = set_named(sets, set)?;
        let place = state_named(sets.get(number)?.states.as_slice(), state)?;
        Some((number, place))
    }

    /// The names of all states, as `SS.STATE`. The only error is that memory ends.
    pub fn places(&self, alloc: Global) -> Result<Vec<Vec<u8>>, AllocError> {
        let mut names = Vec::new(alloc);
        for set in &self.legend.sets {
            push_places(alloc, set, &mut names)?;
        }
        Ok(names)
    }
}
