//! What helps at the format of a `printf`.

use crate::arguments::count_of;
use crate::helps::Help;
use snl_names::{conversions, unquoted};
use snl_text::Token;

/// What helps at a conversion, by the bytes behind its `%`.
fn conversion_help(behind: &[u8]) -> Option<&'static [u8]> {
    match behind {
        [b'f' | b'e' | b'g' | b'.' | b'0'..=b'9' | b'-' | b'+', ..] => {
            Some(
                b"no %f, %g, %5d and their like: %d writes a whole number, and a quantity with decimals is counted in a smaller unit",
            )
        }
        [b'l', b'f', ..] => {
            Some(
                b"no %f: %d writes a whole number, and a quantity with decimals is counted in a smaller unit",
            )
        }
        [b's', ..] => Some(b"no %s: %d writes the number that stands for a text"),
        [b'x' | b'X' | b'u' | b'i' | b'o' | b'c', ..] => {
            Some(b"%d and %ld write whole numbers, and no other conversion is known")
        }
        _ => None,
    }
}

/// What helps at the first conversion that has something.
fn first_help(format: &[u8]) -> Option<&'static [u8]> {
    for at in 0..format.len() {
        if format[at] == b'%' {
            if let Some(words) = conversion_help(&format[at + 1..]) {
                return Some(words);
            }
        }
    }
    None
}

/// What stands between how many conversions there are and how many values.
fn conversions_have(count: usize) -> &'static [u8] {
    if count == 1 {
        b" conversion, and values behind it: "
    } else {
        b" conversions, and values behind it: "
    }
}

/// What helps at a format, by the number of its token.
pub fn format_help<'a>(tokens: &[Token<'a>], at: usize) -> Option<Help<'a>> {
    let token = tokens.get(at)?;
    let format = unquoted(token.text);
    match conversions(format) {
        Some(count) if at > 0 => Some(Help::Compared(
            b"the format has ",
            count,
            conversions_have(count),
            count_of(tokens, at - 1).saturating_sub(1),
            b"",
        )),
        Some(_) => None,
        None => match first_help(format) {
            Some(words) => Some(Help::Words(words)),
            None => Some(Help::Words(
                b"the escapes are \\n, \\t, \\\\ and \\\", and % itself is %%",
            )),
        },
    }
}
