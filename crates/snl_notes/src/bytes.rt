//! What helps where a source cannot be cut into tokens, by the bytes that stand there.

use crate::helps::Help;

/// A sign of the preprocessor's.
fn directive_help(rest: &[u8]) -> Option<&'static [u8]> {
    if rest.starts_with(b"#define") {
        Some(
            b"#define is of the C preprocessor: scripts/port FILE > NEW makes a program without, and snl check <(cpp FILE) checks what cpp makes",
        )
    } else if rest.starts_with(b"#include") {
        Some(
            b"#include is of the C preprocessor: scripts/port FILE > NEW makes a program without, and snl check <(cpp FILE) checks what cpp makes",
        )
    } else if rest.starts_with(b"#") {
        Some(
            b"a line with # is of the C preprocessor: scripts/port FILE > NEW makes a program without, and snl check <(cpp FILE) checks what cpp makes",
        )
    } else {
        None
    }
}

/// A blank or a minus that is none of ASCII.
fn blank_help(rest: &[u8]) -> Option<&'static [u8]> {
    if rest.starts_with(b"\xc2\xa0") {
        Some(b"U+00A0 no-break space: write a blank")
    } else if rest.starts_with(b"\xe2\x80\xaf") {
        Some(b"U+202F narrow no-break space: write a blank")
    } else if rest.starts_with(b"\xe2\x80\x8b") {
        Some(b"U+200B zero width space: take it out")
    } else if rest.starts_with(b"\xef\xbb\xbf") {
        Some(b"U+FEFF byte order mark: save the file as UTF-8 without it")
    } else if rest.starts_with(b"\xe2\x80\x93") {
        Some(b"U+2013 en dash: write -")
    } else if rest.starts_with(b"\xe2\x80\x94") {
        Some(b"U+2014 em dash: write -")
    } else if rest.starts_with(b"\xe2\x88\x92") {
        Some(b"U+2212 minus sign: write -")
    } else {
        None
    }
}

/// A quote or another sign that is none of ASCII.
fn quote_help(rest: &[u8]) -> Option<&'static [u8]> {
    if rest.starts_with(b"\xe2\x80\x9c") {
        Some(b"U+201C left double quotation mark: write \"")
    } else if rest.starts_with(b"\xe2\x80\x9d") {
        Some(b"U+201D right double quotation mark: write \"")
    } else if rest.starts_with(b"\xe2\x80\x9e") {
        Some(b"U+201E low double quotation mark: write \"")
    } else if rest.starts_with(b"\xe2\x80\x98") {
        Some(b"U+2018 left single quotation mark: write '")
    } else if rest.starts_with(b"\xe2\x80\x99") {
        Some(b"U+2019 right single quotation mark: write '")
    } else if rest.starts_with(b"\xe2\x89\xa4") {
        Some(b"U+2264 less-than or equal to: write <=")
    } else if rest.starts_with(b"\xe2\x89\xa5") {
        Some(b"U+2265 greater-than or equal to: write >=")
    } else if rest.starts_with(b"\xe2\x89\xa0") {
        Some(b"U+2260 not equal to: write !=")
    } else {
        None
    }
}

/// A sign of ASCII with which nothing begins.
fn sign_help(rest: &[u8]) -> Option<&'static [u8]> {
    if rest.starts_with(b"'") {
        Some(b"between ' stands one character; a text stands between \"")
    } else if rest.starts_with(b"$") {
        Some(b"a macro stands in braces, inside of the quotes of a channel's name: \"{P}:NAME\"")
    } else if rest.starts_with(b".") {
        Some(b"nothing has members: a variable for each")
    } else if rest.starts_with(b"\\") {
        Some(b"a line goes on without \\")
    } else {
        None
    }
}

/// What helps at a byte with which nothing begins, by what stands from there on.
pub fn byte_help(rest: &[u8]) -> Help<'_> {
    if let Some(words) = directive_help(rest) {
        return Help::Words(words);
    }
    if let Some(words) = blank_help(rest) {
        return Help::Words(words);
    }
    if let Some(words) = quote_help(rest) {
        return Help::Words(words);
    }
    if let Some(words) = sign_help(rest) {
        return Help::Words(words);
    }
    match rest.first() {
        Some(byte) => Help::Counted(b"byte ", usize::from(*byte), b": nothing begins with it"),
        None => Help::Words(b"nothing begins with it"),
    }
}

/// Whether a byte may stand in a word that begins like a number.
fn is_of_number(byte: u8) -> bool {
    byte.is_ascii_alphanumeric() || byte == b'.' || byte == b'_'
}

/// Whether a byte is the letter of an exponent.
fn is_exponent(byte: u8) -> bool {
    byte == b'e' || byte == b'E'
}

/// Whether a word that begins like a number has an exponent.
fn has_exponent(rest: &[u8]) -> bool {
    for byte in rest {
        if !is_of_number(*byte) {
            return false;
        }
        if is_exponent(*byte) {
            return true;
        }
    }
    false
}

/// Whether a byte is a letter that C has behind numbers.
fn is_suffix(byte: u8) -> bool {
    matches!(byte, b'f' | b'F' | b'l' | b'L' | b'u' | b'U')
}

/// Whether a word that begins like a number ends with such a letter.
fn has_suffix(rest: &[u8]) -> bool {
    let mut found = false;
    for byte in rest {
        if !is_of_number(*byte) {
            return found;
        }
        found = is_suffix(*byte);
    }
    found
}

/// Whether a number of base 16 begins.
fn is_of_base_16(rest: &[u8]) -> bool {
    rest.starts_with(b"0x") || rest.starts_with(b"0X")
}

/// What helps at a word that begins like a number and is none.
pub fn number_help(rest: &[u8]) -> &'static [u8] {
    if has_exponent(rest) && !is_of_base_16(rest) {
        b"no exponent: count in a smaller unit, by whole numbers, as 1000 for 1.0e-6 in units of 1e-9 (docs/BY_HAND.md, Units)"
    } else if has_suffix(rest) {
        b"no suffix stands behind a number: 15.0 for 15.0f, 0x80 for 0x80U"
    } else if rest.starts_with(b"0") {
        b"a number that begins with 0 has base 8, without the digits 8 and 9: leave the 0 out"
    } else {
        b"a number is at most 9223372036854775807, and a name does not begin with a digit"
    }
}
