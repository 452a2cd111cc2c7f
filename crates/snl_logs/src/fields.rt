//! Fields of a line, between commas or tabs.

ghost use Rattle.std.specs.Prelude.{◌<◌, length, IfSome};

use crate::texts::{trimmed_end, trimmed_start};

/// The field in front of the first mark, and what stands behind it.
pub fn first_field(text: &[u8], mark: u8) -> Option<(&[u8], &[u8])>
    ensures { IfSome result (λ cut. length cut.1.now < length text.now) }
{
    let place = text.iter().position(|byte| *byte == mark)?;
    Some((&text[..place], &text[place + 1..]))
}

/// What stands in front of the last mark, and the field behind it.
pub fn last_field(text: &[u8], mark: u8) -> Option<(&[u8], &[u8])> {
    let place = text.iter().rposition(|byte| *byte == mark)?;
    Some((&text[..place], &text[place + 1..]))
}

/// A field without the blanks and quotes round it.
pub fn unquoted(field: &[u8]) -> &[u8] {
    let bare = trimmed_end(trimmed_start(field));
    match bare {
        [b'"', inner @ .., b'"'] => inner,
        _ => bare,
    }
}
