//! What helps at messages of a program, by their numbers and the tokens at which they stand.

use crate::calls::{arguments_help, meant, unknown_help};
use crate::formats::format_help;
use crate::helps::Help;
use crate::near::{Sort, nearest_name};
use snl_helps::name_help_at;
use snl_names::is_predefined;
use snl_text::Token;
use std::alloc::{AllocError, Global};

/// What helps at a name that is not declared.
fn undeclared_help<'a>(
    alloc: Global,
    tokens: &[Token<'a>],
    name: &[u8],
) -> Result<Option<Help<'a>>, AllocError> {
    if let Some(words) = name_help_at(name) {
        return Ok(Some(Help::Words(words)));
    }
    let near = nearest_name(alloc, tokens, name, Sort::Declared)?;
    Ok(meant(near))
}

/// What helps at a type.
fn type_help(name: &[u8]) -> &'static [u8] {
    if name == b"string".as_slice() {
        b"a text becomes a number with a legend, as 1 for \"open\" (docs/BY_HAND.md, Units); scripts/port does so"
    } else {
        b"count in a smaller unit, by whole numbers, as 2500 for 2.5 V, in an int or a long (docs/BY_HAND.md, Units); scripts/port does so"
    }
}

/// What helps at an event flag or a predefined name.
fn no_variable_help<'a>(name: &'a [u8]) -> Help<'a> {
    if is_predefined(name) {
        Help::Words(b"the name is predefined and has one value")
    } else {
        Help::Named(b"efTest(", name, b") is the value of an event flag")
    }
}

/// What helps at a message whose help names what it quotes.
fn named_help<'a>(number: u8, name: &'a [u8]) -> Option<Help<'a>> {
    match number {
        11 => Some(Help::Words(type_help(name))),
        15 => Some(no_variable_help(name)),
        20 => Some(Help::Named(b"assign ", name, b" to \"CHANNEL\"; gives it a channel")),
        21 => Some(Help::Named(b"evflag ", name, b"; declares an event flag")),
        23 => Some(Help::Named(b"syncQ ", name, b"; gives it a queue")),
        _ => fixed_help(number),
    }
}

/// What helps at a message whose help is always the same.
fn fixed_help<'a>(number: u8) -> Option<Help<'a>> {
    match number {
        10 => Some(Help::Words(
            b"C has no meaning here: scripts/port FILE > NEW takes it out, and tells what is left to do by hand",
        )),
        12 => Some(Help::Words(
            b"decimals stand in delay alone: count in a smaller unit, by whole numbers",
        )),
        18 => Some(Help::Words(
            b"it stands in the parentheses of a when: when (delay(1)) { .. } state NEXT",
        )),
        26 => Some(Help::Words(
            b"a block of a when ends by state NAME, and may change it; entry, exit and functions may not",
        )),
        29 => Some(Help::Words(
            b"an element has a subscript from 0 on, as x[0], and a variable without elements has none",
        )),
        30 => Some(Help::Words(b"== compares")),
        _ => None,
    }
}

/// What helps at an error with a number, by the number of the token at which it stands. Fails only where memory ends.
pub fn error_help<'a>(
    alloc: Global,
    tokens: &[Token<'a>],
    number: u8,
    at: usize,
) -> Result<Option<Help<'a>>, AllocError> {
    let Some(token) = tokens.get(at) else {
        return Ok(None);
    };
    match number {
        13 => undeclared_help(alloc, tokens, token.text),
        16 => unknown_help(alloc, tokens, at),
        17 => Ok(arguments_help(tokens, at)),
        25 => {
            let near = nearest_name(alloc, tokens, token.text, Sort::State)?;
            Ok(meant(near))
        }
        32 => Ok(format_help(tokens, at)),
        _ => Ok(named_help(number, token.text)),
    }
}
