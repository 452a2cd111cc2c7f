//! The values of a sample, as numbers.

use crate::fields::{first_field, unquoted};
use crate::held::Values;
use crate::numbers::number_of;
use crate::places::Scaled;
use crate::samples::Cause;
use crate::scales::Scale;
use crate::texts::{spelled, trimmed_start, word_of};
use crate::units::Units;
use std::alloc::AllocError;

/// What came of the values of a sample.
pub type Read = Result<bool, Cause>;

/// The values that a text spells are put into `values`, in the units of the channel. Answers whether one of them was rounded, or why it
/// has no number. A text that the units name is one value; an array has the number of its elements first.
pub fn values_of(text: &[u8], units: &Units, values: &mut Values) -> Result<Read, AllocError> {
    values.clear();
    if let Some(value) = units.value_of(text) {
        values.push(value)?;
        return Ok(Ok(false));
    }
    let (first, behind) = word_of(text);
    if first.is_empty() {
        return Ok(Err(Cause::Empty));
    }
    if trimmed_start(behind).is_empty() {
        return one_value(first, units.scale, values);
    }
    array_values(first, behind, units.scale, values)
}

/// The value of a word.
fn one_value(word: &[u8], scale: Scale, values: &mut Values) -> Result<Read, AllocError> {
    match number_of(word, scale) {
        Ok(Scaled { value, is_cut }) => {
            values.push(value)?;
            Ok(Ok(is_cut))
        }
        Err(cause) => Ok(Err(cause)),
    }
}

/// The values of an array, behind how many they are.
fn array_values(
    count: &[u8],
    text: &[u8],
    scale: Scale,
    values: &mut Values,
) -> Result<Read, AllocError> {
    let Some(count) = spelled(count) else {
        return Ok(Err(Cause::NoNumber));
    };
    let mut rest = text;
    let mut is_cut = false;
    for _ in 0..count {
        let (word, behind) = word_of(trimmed_start(rest));
        rest = behind;
        match one_value(word, scale, values)? {
            Ok(cut) => is_cut = is_cut || cut,
            Err(cause) => return Ok(Err(cause)),
        }
    }
    if trimmed_start(rest).is_empty() {
        Ok(Ok(is_cut))
    } else {
        Ok(Err(Cause::NoNumber))
    }
}

/// The values that a text spells with commas between them, in the same way.
pub fn items_of(text: &[u8], units: &Units, values: &mut Values) -> Result<Read, AllocError> {
    values.clear();
    let mut rest = text;
    let mut is_cut = false;
    while let Some((item, behind)) = first_field(rest, b',') {
        rest = behind;
        match one_value(unquoted(item), units.scale, values)? {
            Ok(cut) => is_cut = is_cut || cut,
            Err(cause) => return Ok(Err(cause)),
        }
    }
    let last = unquoted(rest);
    if last.is_empty() {
        return Ok(Err(Cause::Empty));
    }
    match one_value(last, units.scale, values)? {
        Ok(cut) => Ok(Ok(is_cut || cut)),
        Err(cause) => Ok(Err(cause)),
    }
}
