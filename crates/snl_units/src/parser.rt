//! The lines of a file of units.

use crate::faults::{LineFault, Refusal, UnitsFault};
use crate::numbers::{number_of, scale_of};
use crate::quoted::unquoted;
use crate::units::{ChannelUnits, TextNumber, Unit};
use std::alloc::Global;

/// What stands in front of the first mark, and behind it; all and nothing where there is none.
fn cut(text: &[u8], mark: u8) -> (&[u8], Option<&[u8]>) {
    match text.iter().position(|byte| *byte == mark) {
        Some(place) => (&text[..place], Some(&text[place + 1..])),
        None => (text, None),
    }
}

/// Whether all bytes are printable ASCII characters.
fn is_printable(line: &[u8]) -> bool {
    line.iter().all(|byte| 32 <= *byte && *byte <= 126)
}

/// Adds a text with its number, unless it has that already.
fn add_number(numbers: &mut Vec<TextNumber>, text: Vec<u8>, number: i64) -> Result<(), Refusal> {
    match numbers
        .iter()
        .find(|it| it.text.as_slice() == text.as_slice())
    {
        Some(known) if known.number == number => Ok(()),
        Some(_) => Err(Refusal::Fault(LineFault::NamedTwice)),
        None => {
            numbers.push(TextNumber { text, number })?;
            Ok(())
        }
    }
}

/// Adds the text and the number of `TEXT:N`.
fn add_piece(alloc: Global, piece: &[u8], numbers: &mut Vec<TextNumber>) -> Result<(), Refusal> {
    let (text, Some(digits)) = cut(piece, b':') else {
        return Err(Refusal::Fault(LineFault::BadText));
    };
    let number = number_of(digits)?;
    let text = unquoted(alloc, text)?;
    add_number(numbers, text, number)
}

/// The texts and numbers of `TEXT:N,TEXT:N`.
fn numbers_of(alloc: Global, text: &[u8]) -> Result<Vec<TextNumber>, Refusal> {
    let mut numbers = Vec::new(alloc);
    let mut rest = Some(text);
    for _ in 0..text.len().saturating_add(1) {
        let Some(left) = rest else {
            return Ok(numbers);
        };
        let (piece, behind) = cut(left, b',');
        add_piece(alloc, piece, &mut numbers)?;
        rest = behind;
    }
    Ok(numbers)
}

/// The pieces of a pattern between its stars.
fn pieces_of(alloc: Global, text: &[u8]) -> Result<Vec<Vec<u8>>, Refusal> {
    let mut pieces = Vec::new(alloc);
    let mut rest = Some(text);
    for _ in 0..text.len().saturating_add(1) {
        let Some(left) = rest else {
            return Ok(pieces);
        };
        let (piece, behind) = cut(left, b'*');
        pieces.push(unquoted(alloc, piece)?)?;
        rest = behind;
    }
    Ok(pieces)
}

/// The second field of two, the first of which is a name.
fn second<'t>(name: &[u8], behind: Option<&'t [u8]>) -> Result<&'t [u8], LineFault> {
    match behind {
        Some(field) if !name.is_empty() && !field.contains(&b' ') => Ok(field),
        _ => Err(LineFault::FieldCount),
    }
}

/// Whether a name stands alone.
fn alone(name: &[u8], behind: Option<&[u8]>) -> Result<(), LineFault> {
    if name.is_empty() || behind.is_some() {
        Err(LineFault::FieldCount)
    } else {
        Ok(())
    }
}

/// Sees that a name ends so, and has something in front of that.
fn ends(name: &[u8], suffix: &[u8]) -> Result<(), LineFault> {
    if name.len() > suffix.len() && name.ends_with(suffix) {
        Ok(())
    } else {
        Err(LineFault::BadName)
    }
}

/// What `severity` and `time` say of a channel.
fn unit_of_name(word: &[u8], name: &[u8]) -> Result<Unit, LineFault> {
    if word == b"severity".as_slice() {
        ends(name, b".SEVR")?;
        return Ok(Unit::Severity);
    }
    if name != b"CLOCK".as_slice() {
        ends(name, b".TIME")?;
    }
    Ok(Unit::Time)
}

/// What a word says of the channel of a name.
fn unit_of(
    alloc: Global,
    word: &[u8],
    name: &[u8],
    behind: Option<&[u8]>,
) -> Result<Unit, Refusal> {
    match word {
        b"scale" => {
            let (top, bottom) = scale_of(second(name, behind)?)?;
            Ok(Unit::Scale(top, bottom))
        }
        b"enum" => Ok(Unit::Enum(numbers_of(alloc, second(name, behind)?)?)),
        b"text" => Ok(Unit::Text(pieces_of(alloc, second(name, behind)?)?)),
        b"severity" | b"time" => {
            alone(name, behind)?;
            Ok(unit_of_name(word, name)?)
        }
        _ => Err(Refusal::Fault(LineFault::UnknownWord)),
    }
}

/// What a line says that is neither empty nor a comment.
pub(crate) fn line_units(alloc: Global, line: &[u8]) -> Result<ChannelUnits, Refusal> {
    if !is_printable(line) {
        return Err(Refusal::Fault(LineFault::NotAscii));
    }
    let (word, behind) = cut(line, b' ');
    let (name, behind) = cut(behind.unwrap_or(b""), b' ');
    let owned = Vec::from_slice(alloc, name)?;
    match unit_of(alloc, word, name, behind) {
        Ok(unit) => Ok(ChannelUnits { name: owned, unit }),
        Err(refusal) => Err(refusal),
    }
}

/// Whether the same is said of the same channel.
fn is_known(all: &[ChannelUnits], units: &ChannelUnits) -> bool {
    all.iter().any(|it| {
        it.unit.kind() == units.unit.kind() && it.name.as_slice() == units.name.as_slice()
    })
}

/// Adds what a line says, if it says something.
fn add_line(alloc: Global, line: &[u8], all: &mut Vec<ChannelUnits>) -> Result<(), Refusal> {
    if line.is_empty() || line.first() == Some(&b'#') {
        return Ok(());
    }
    let units = line_units(alloc, line)?;
    if is_known(all.as_slice(), &units) {
        return Err(Refusal::Fault(LineFault::NamedTwice));
    }
    all.push(units)?;
    Ok(())
}

/// What a file of units says, in the order of its lines. Fails with the first line that is wrong, or where memory ends.
pub fn units_of(alloc: Global, bytes: &[u8]) -> Result<Vec<ChannelUnits>, UnitsFault> {
    let mut all = Vec::new(alloc);
    let mut rest = Some(bytes);
    let mut number = 0u64;
    for _ in 0..bytes.len().saturating_add(1) {
        let Some(left) = rest else {
            return Ok(all);
        };
        let (line, behind) = cut(left, b'\n');
        number = number.saturating_add(1);
        match add_line(alloc, line, &mut all) {
            Ok(()) => rest = behind,
            Err(Refusal::Fault(fault)) => return Err(UnitsFault::BadLine(number, fault)),
            Err(Refusal::Memory) => return Err(UnitsFault::Memory),
        }
    }
    Ok(all)
}
