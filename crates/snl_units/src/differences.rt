//! Where the units of a trace and those of a file differ, as lines for a user.

use crate::comparison::{Comparison, UnitVerdict, is_compared};
use crate::units::{ChannelUnits, Unit};
use crate::written::push_unit;
use itoa::Buffer;
use std::alloc::AllocError;

/// Adds what the trace says of a channel, and what the file says.
fn push_difference(
    out: &mut Vec<u8>,
    front: &[u8],
    name: &[u8],
    trace: Option<&Unit>,
    file: Option<&Unit>,
) -> Result<(), AllocError> {
    out.extend_from_slice(front)?;
    out.extend_from_slice(b"units: ")?;
    out.extend_from_slice(name)?;
    out.extend_from_slice(b": ")?;
    push_told(out, trace)?;
    out.extend_from_slice(b" in the trace, ")?;
    push_told(out, file)?;
    out.extend_from_slice(b" in the file\n")
}

/// Adds what is said of a channel, or that nothing is.
fn push_told(out: &mut Vec<u8>, unit: Option<&Unit>) -> Result<(), AllocError> {
    match unit {
        Some(unit) => push_unit(out, unit),
        None => out.extend_from_slice(b"nothing"),
    }
}

/// Adds how many channels more there are.
fn push_more(out: &mut Vec<u8>, front: &[u8], more: u64) -> Result<(), AllocError> {
    let mut digits = Buffer::new();
    out.extend_from_slice(front)?;
    out.extend_from_slice(b"units: ")?;
    out.extend_from_slice(digits.format(more).as_bytes())?;
    out.extend_from_slice(b" more in the trace that are not in the file\n")
}

impl Comparison<'_> {
    /// Whether the trace tells a unit.
    fn has_told(&self) -> bool {
        !self.others.is_empty()
            || !self
                .told
                .iter()
                .all(|told| matches!(told, UnitVerdict::Nothing))
    }

    /// Whether the file says something that a trace says.
    fn is_asked(&self) -> bool {
        self.units.iter().any(|one| is_compared(&one.unit))
    }

    /// What the trace says in the place of what the file says at a place; None where that is the same.
    fn other_at(&self, place: usize, one: &ChannelUnits) -> Option<Option<&Unit>> {
        match self.told.get(place)? {
            UnitVerdict::Other(unit) => Some(Some(unit)),
            UnitVerdict::Nothing if is_compared(&one.unit) => Some(None),
            UnitVerdict::Nothing | UnitVerdict::Same => None,
        }
    }

    /// Adds where the trace says something else than the file, or nothing.
    fn push_units(&self, out: &mut Vec<u8>, front: &[u8]) -> Result<(), AllocError> {
        for (place, one) in self.units.iter().enumerate() {
            if let Some(other) = self.other_at(place, one) {
                push_difference(out, front, one.name.as_slice(), other, Some(&one.unit))?;
            }
        }
        Ok(())
    }

    /// Adds what the trace says of which the file says nothing.
    fn push_others(&self, out: &mut Vec<u8>, front: &[u8]) -> Result<(), AllocError> {
        for one in &self.others {
            push_difference(out, front, one.name.as_slice(), Some(&one.unit), None)?;
        }
        if self.unkept > 0 {
            push_more(out, front, self.unkept)?;
        }
        Ok(())
    }

    /// Whether the trace tells other units than the file. Where it tells none, that is not known, and the answer is no.
    pub fn differs(&self) -> bool {
        if !self.has_told() {
            return false;
        }
        let mut place = 0usize;
        for one in self.units {
            if self.other_at(place, one).is_some() {
                return true;
            }
            place = place.saturating_add(1);
        }
        !self.others.is_empty()
    }

    /// Adds where they differ, a line for each channel with something in front; or that the trace tells no unit, where the file has
    /// some. Fails only where memory ran out.
    pub fn push_text(&self, out: &mut Vec<u8>, front: &[u8]) -> Result<(), AllocError> {
        if self.has_told() {
            self.push_units(out, front)?;
            return self.push_others(out, front);
        }
        if self.is_asked() {
            out.extend_from_slice(front)?;
            out.extend_from_slice(b"units: the trace does not say what its numbers stand for\n")?;
        }
        Ok(())
    }
}
