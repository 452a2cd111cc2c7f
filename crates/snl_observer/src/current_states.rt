//! Where the state sets of a requirement stand, by the lines that it writes.

use snl_heard::{behind, word};
use snl_outline::SetOutline;
use std::alloc::{AllocError, Global};

/// A state that must not be: the numbers of its state set and of the state.
#[derive(Clone, Copy, Debug, PartialEq, Eq)]
pub struct ForbiddenState {
    /// The number of the state set, from 0 on, in the order of the source.
    pub set: usize,
    /// The number of the state in its state set, from 0 on.
    pub state: usize,
}

/// Where a state set stands, and since when.
#[derive(Clone, Copy)]
pub(crate) struct At {
    pub(crate) state: usize,
    pub(crate) since: u64,
}

/// A state that must not be and came to be: its number among those, and the time.
#[derive(Clone, Copy)]
struct Hit {
    never: usize,
    ms: u64,
}

/// Where the state sets of a requirement stand.
#[derive(Drop)]
pub(crate) struct Standing {
    names: Vec<SetOutline>,
    /// By state set.
    at: Vec<At>,
    has_begun: bool,
    has_ended: bool,
    /// What must not be.
    never: Vec<ForbiddenState>,
    /// The number of the first of these that came to be, and when.
    hit: Option<Hit>,
}

/// The number that digits at the front of a text spell, behind blanks; one beyond 64 bits counts as the greatest there.
pub(crate) fn ms_of(text: &[u8]) -> u64 {
    let mut ms = 0u64;
    let mut has_digits = false;
    for byte in text {
        if byte.is_ascii_digit() {
            has_digits = true;
            ms = ms.saturating_mul(10).saturating_add((*byte - b'0') as u64);
        } else if has_digits || !matches!(*byte, b' ' | b'\t') {
            return ms;
        }
    }
    ms
}

/// The number of the state set of a name.
fn set_named(names: &[SetOutline], name: &[u8]) -> Option<usize> {
    names.iter().position(|set| set.name.as_slice() == name)
}

/// The number of the state of a name, in a state set.
fn state_named(set: &SetOutline, name: &[u8]) -> Option<usize> {
    set.states
        .iter()
        .position(|other| other.name.as_slice() == name)
}

/// The state of a state set, by their names; None where there is no such.
pub(crate) fn place_named(
    names: &[SetOutline],
    set: &[u8],
    state: &[u8],
) -> Option<ForbiddenState> {
    let number = set_named(names, set)?;
    let state = state_named(names.get(number)?, state)?;
    Some(ForbiddenState { set: number, state })
}

impl Standing {
    /// Nothing has begun. The only error is that memory ends.
    pub(crate) fn new(
        alloc: Global,
        names: Vec<SetOutline>,
        never: Vec<ForbiddenState>,
    ) -> Result<Self, AllocError> {
        let at = vec![in alloc; At { state: 0, since: 0 }; names.len()]?;
        Ok(Standing {
            names,
            at,
            has_begun: false,
            has_ended: false,
            never,
            hit: None,
        })
    }

    /// The number of the first place that must not be and came to be.
    pub(crate) fn hit(&self) -> Option<usize> {
        match self.hit {
            Some(hit) => Some(hit.never),
            None => None,
        }
    }

    /// When it came to be.
    pub(crate) fn hit_at(&self) -> Option<u64> {
        match self.hit {
            Some(hit) => Some(hit.ms),
            None => None,
        }
    }

    /// The place of a number among those that must not be.
    pub(crate) fn place(&self, never: usize) -> Option<ForbiddenState> {
        self.never.get(never).copied()
    }

    /// Its state sets, and where they stand.
    pub(crate) fn sets(&self) -> &[SetOutline] {
        self.names.as_slice()
    }

    /// Where a state set stands.
    pub(crate) fn at(&self, set: usize) -> Option<At> {
        self.at.get(set).copied()
    }

    /// Whether it has begun.
    pub(crate) fn has_begun(&self) -> bool {
        self.has_begun
    }

    /// A state set comes into a state.
    fn enter(&mut self, place: ForbiddenState, ms: u64) {
        if let Some(at) = self.at.get_mut(place.set) {
            *at = At {
                state: place.state,
                since: ms,
            };
        }
        if self.hit.is_some() {
            return;
        }
        if let Some(never) = self.never.iter().position(|never| *never == place) {
            self.hit = Some(Hit { never, ms });
        }
    }

    /// All state sets come into their first states.
    fn begin(&mut self, ms: u64) {
        self.has_begun = true;
        for set in 0..self.names.len() {
            self.enter(ForbiddenState { set, state: 0 }, ms);
        }
    }

    /// Notes a line that the requirement wrote.
    pub(crate) fn note(&mut self, line: &[u8]) {
        let ms = ms_of(line);
        let rest = behind(line);
        let about = behind(rest);
        match word(rest) {
            b"start" => self.begin(ms),
            b"go" => {
                let to = word(behind(behind(about)));
                if let Some(place) = place_named(self.names.as_slice(), word(about), to) {
                    self.enter(place, ms);
                }
            }
            b"exit" => self.has_ended = true,
            _ => {}
        }
    }

    /// Whether it came to its end by itself.
    pub(crate) fn has_ended(&self) -> bool {
        self.has_ended
    }
}
