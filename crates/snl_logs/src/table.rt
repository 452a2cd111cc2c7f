//! Tables: a heading with a time and the names of channels, and a line for each time.

use crate::fields::{first_field, unquoted};
use crate::rows::Row;
use crate::samples::{LogLine, Stamp};
use crate::stamps::time_of;
use crate::texts::trimmed_end;
use std::alloc::{AllocError, Global};

/// A name without the unit that stands behind it in brackets, as `NAME [mm]`.
fn without_unit(name: &[u8]) -> &[u8] {
    match name.last() {
        Some(b']') => match first_field(name, b'[') {
            Some((front, _unit)) => trimmed_end(front),
            None => name,
        },
        _ => name,
    }
}

/// The names of the columns behind the first one of a heading.
pub fn columns_of(alloc: Global, heading: &[u8], mark: u8) -> Result<Vec<Vec<u8>>, AllocError> {
    let mut columns = Vec::new(alloc);
    let Some((_time, mut rest)) = first_field(trimmed_end(heading), mark) else {
        return Ok(columns);
    };
    while let Some((name, behind)) = first_field(rest, mark) {
        columns.push(Vec::from_slice(alloc, without_unit(unquoted(name)))?)?;
        rest = behind;
    }
    columns.push(Vec::from_slice(alloc, without_unit(unquoted(rest)))?)?;
    Ok(columns)
}

/// What a line of a table says.
pub fn table_line<'l>(columns: &'l [Vec<u8>], line: &'l [u8], mark: u8) -> LogLine<'l> {
    let bare = trimmed_end(line);
    if bare.is_empty() || bare.first() == Some(&b'#') {
        return LogLine::Silent;
    }
    let Some((time, cells)) = first_field(line, mark) else {
        return LogLine::Unknown;
    };
    match time_of(unquoted(time)) {
        Some(time) => LogLine::Row(Row::new(Stamp::At(time), columns, cells, mark)),
        None => LogLine::Unknown,
    }
}
