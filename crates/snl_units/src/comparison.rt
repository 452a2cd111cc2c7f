//! What the first comments of a trace say of its units, beside a file of units.

use crate::faults::Refusal;
use crate::parser::line_units;
use crate::same::are_same;
use crate::units::{ChannelUnits, Unit};
use std::alloc::{AllocError, Global};

/// The longest line of a trace.
const LINE_LIMIT: usize = 32_768;

/// How many channels are kept that the trace speaks of, and the file does not.
const OTHERS_KEPT: usize = 1_000;

/// What a trace says of what the file says.
#[derive(Drop)]
pub(crate) enum UnitVerdict {
    /// Nothing yet.
    Nothing,
    /// The same.
    Same,
    /// Something else.
    Other(Unit),
}

/// The units that the first comments of a trace tell, beside those of a file. It takes the bytes of the trace in whatever pieces, up to
/// its first event. Its size does not grow with the trace.
#[derive(Drop)]
pub struct Comparison<'u> {
    alloc: Global,
    pub(crate) units: &'u [ChannelUnits],
    /// By the units of the file.
    pub(crate) told: Vec<UnitVerdict>,
    /// What the trace tells of which the file says nothing.
    pub(crate) others: Vec<ChannelUnits>,
    /// How many more of these there are.
    pub(crate) unkept: u64,
    /// The line that has begun.
    line: Vec<u8>,
    /// Whether an event came.
    is_over: bool,
    /// Whether memory was refused while the trace passed.
    ran_out: bool,
}

/// Whether what is said of a channel changes its numbers, and a trace says it: alarms and times have numbers of their own.
pub(crate) fn is_compared(unit: &Unit) -> bool {
    match unit {
        Unit::Scale(top, bottom) => *top != 1 || *bottom != 1,
        Unit::Enum(_) | Unit::Text(_) => true,
        Unit::Severity | Unit::Time => false,
    }
}

/// A line without the newline and the carriage return that it ends with.
fn without_end(line: &[u8]) -> &[u8] {
    let bare = line.strip_suffix(b"\n").unwrap_or(line);
    bare.strip_suffix(b"\r").unwrap_or(bare)
}

/// The front of a text up to its first newline, and what stands behind that; all and nothing where there is none.
fn next_part(text: &[u8]) -> (&[u8], &[u8]) {
    match text.iter().position(|byte| *byte == b'\n') {
        Some(place) => text.split_at(place.saturating_add(1).min(text.len())),
        None => (text, b""),
    }
}

/// Whether a line says nothing.
fn is_blank(line: &[u8]) -> bool {
    line.iter().all(|byte| *byte == b' ' || *byte == b'\t')
}

impl<'u> Comparison<'u> {
    /// Of a trace of which nothing came yet. Fails only where memory ran out.
    pub fn new(alloc: Global, units: &'u [ChannelUnits]) -> Result<Self, AllocError> {
        let mut told = Vec::with_capacity(alloc, units.len())?;
        for _unit in units {
            told.push(UnitVerdict::Nothing)?;
        }
        Ok(Comparison {
            alloc,
            units,
            told,
            others: Vec::new(alloc),
            unkept: 0,
            line: Vec::new(alloc),
            is_over: false,
            ran_out: false,
        })
    }

    /// Hears the next bytes of the trace.
    pub fn take(&mut self, piece: &[u8]) {
        let mut rest = piece;
        for _ in 0..piece.len() {
            if self.is_over || rest.is_empty() {
                return;
            }
            let (part, behind) = next_part(rest);
            self.take_part(part);
            rest = behind;
        }
    }

    /// Hears bytes of one line.
    fn take_part(&mut self, part: &[u8]) {
        if self.line.len().saturating_add(part.len()) > LINE_LIMIT.saturating_add(2) {
            self.is_over = true;
            return;
        }
        if self.line.extend_from_slice(part).is_err() {
            self.ran_out = true;
        }
        if part.last() == Some(&b'\n') {
            self.end_line();
        }
    }

    /// Hears the line that has ended.
    fn end_line(&mut self) {
        let line = without_end(self.line.as_slice());
        match line {
            [b'#', b' ', words @ ..] => match line_units(self.alloc, words) {
                Ok(units) => self.note(units),
                Err(Refusal::Memory) => self.ran_out = true,
                Err(Refusal::Fault(_)) => {}
            },
            [b'#', ..] => {}
            _ => self.is_over = !is_blank(line),
        }
        self.line.clear();
    }

    /// The place of what the file says by the same word of the same channel.
    fn place_of(&self, units: &ChannelUnits) -> Option<usize> {
        self.units.iter().position(|one| {
            one.unit.kind() == units.unit.kind() && one.name.as_slice() == units.name.as_slice()
        })
    }

    /// Hears what a comment says of a channel.
    fn note(&mut self, units: ChannelUnits) {
        match self.place_of(&units) {
            Some(place) => self.note_at(place, units.unit),
            None if is_compared(&units.unit) => self.note_other(units),
            None => {}
        }
    }

    /// Hears what it says where the file says something, too.
    fn note_at(&mut self, place: usize, unit: Unit) {
        let Some(one) = self.units.get(place) else {
            return;
        };
        let is_same = are_same(&one.unit, &unit);
        if let Some(told) = self.told.get_mut(place) {
            if !is_same {
                *told = UnitVerdict::Other(unit);
            } else if matches!(told, UnitVerdict::Nothing) {
                *told = UnitVerdict::Same;
            }
        }
    }

    /// Hears what it says where the file says nothing.
    fn note_other(&mut self, units: ChannelUnits) {
        if self.others.len() >= OTHERS_KEPT {
            self.unkept = self.unkept.saturating_add(1);
        } else if self.others.push(units).is_err() {
            self.ran_out = true;
        }
    }

    /// Whether memory ran out while the trace passed, so that something is missing.
    pub fn ran_out(&self) -> bool {
        self.ran_out
    }
}
