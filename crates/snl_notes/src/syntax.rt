//! What helps at a token that cannot stand where it does.

use crate::calls::meant;
use crate::helps::Help;
use crate::near::nearest_word;
use crate::tokens::{is_at, is_state, is_type, kind_at, last_open};
use snl_helps::{call_help_at, help_for};
use snl_text::{Kind, Token};
use std::alloc::{AllocError, Global};

/// The keywords with which something begins.
const KEYWORDS: [&[u8]; 20] = [
    b"program",
    b"option",
    b"assign",
    b"monitor",
    b"sync",
    b"syncq",
    b"state",
    b"when",
    b"entry",
    b"exit",
    b"evflag",
    b"int",
    b"long",
    b"short",
    b"char",
    b"unsigned",
    b"while",
    b"else",
    b"return",
    b"break",
];

/// What helps where two tokens stand side by side.
fn pair_help(before: Kind, kind: Kind) -> Option<&'static [u8]> {
    match (before, kind) {
        (Kind::Equal, Kind::Less) => Some(b"the signs of 'at most' are <="),
        (Kind::Equal, Kind::Greater) => Some(b"the signs of 'at least' are >="),
        (Kind::Equal, Kind::Bang) => Some(b"the signs of 'not equal' are !="),
        (Kind::Long, Kind::Long) => Some(b"a long has 64 bits: leave the second word out"),
        (Kind::Comma, Kind::Whole) => {
            Some(
                b"decimals stand behind a point, and in delay alone: count in a smaller unit, by whole numbers",
            )
        }
        (Kind::OpenParenthesis, kind) if is_type(kind) => {
            Some(b"no cast: values are whole numbers, and a variable keeps its type")
        }
        (_, Kind::Text) => {
            Some(
                b"a text names a channel, or is the format of a printf: elsewhere stands a number with a legend, as 1 for \"open\"",
            )
        }
        (_, Kind::Typename) => Some(
            b"no typename: whole numbers, arrays of them and event flags alone",
        ),
        _ => None,
    }
}

/// What helps at a call of C on the line of a token, in front of it.
fn call_help_before(tokens: &[Token], at: usize, line: usize) -> Option<&'static [u8]> {
    for before in (0..at).rev() {
        let token = tokens.get(before)?;
        if (token.pos.line as usize) != line {
            return None;
        }
        if let Some(words) = call_help_at(token.text) {
            return Some(words);
        }
    }
    None
}

/// What helps by the words of the line.
fn line_help(tokens: &[Token], at: usize, line: usize) -> Option<&'static [u8]> {
    match help_for(tokens, at) {
        Some(words) => Some(words),
        None => call_help_before(tokens, at, line),
    }
}

/// Whether the brace of a state is the last that is open in front of a token.
fn is_in_state(tokens: &[Token], at: usize) -> bool {
    match last_open(tokens, at) {
        Some(open) => open > 0 && is_state(tokens, open - 1),
        None => false,
    }
}

/// Whether a statement may end with a token, so that no semicolon is missing behind it.
fn is_end(kind: Kind) -> bool {
    matches!(
        kind,
        Kind::Semicolon | Kind::OpenBrace | Kind::CloseBrace | Kind::Comma
    )
}

/// What is missing in front of a name in a state, where a clause may end or begin.
fn name_help<'a>(before: Kind, name: &'a [u8]) -> Option<Help<'a>> {
    match before {
        Kind::CloseBrace => Some(Help::Named(
            b"behind the block of a when stands where it leads: state ",
            name,
            b"",
        )),
        Kind::OpenBrace | Kind::Semicolon => Some(Help::Words(
            b"in a state stand entry { .. }, clauses, and exit { .. }: statements stand in the blocks of these",
        )),
        _ => None,
    }
}

/// What is missing behind a clause, or in front of a statement.
fn state_help<'a>(before: Kind, token: Token<'a>) -> Option<Help<'a>> {
    match token.kind {
        Kind::Name => name_help(before, token.text),
        Kind::CloseBrace | Kind::When if before == Kind::CloseBrace => Some(Help::Words(
            b"behind the block of a when stands where it leads: state NAME, or exit",
        )),
        _ => None,
    }
}

/// Which semicolon is missing, if one may be.
fn semicolon_help<'a>(before: Token, token: Token) -> Option<Help<'a>> {
    if is_end(before.kind) {
        None
    } else if before.pos.line < token.pos.line {
        Some(Help::Counted(
            b"is a ';' missing at the end of line ",
            before.pos.line as usize,
            b"?",
        ))
    } else if token.kind == Kind::CloseBrace {
        Some(Help::Words(b"is a ';' missing in front of it?"))
    } else {
        None
    }
}

/// What closes what a token opens.
fn unclosed(kind: Kind) -> &'static [u8] {
    match kind {
        Kind::OpenBrace => b"nothing closes the '{' in line ",
        Kind::OpenParenthesis => b"nothing closes the '(' in line ",
        _ => b"nothing closes the '[' in line ",
    }
}

/// What helps where the last thing that is open has to be closed in front of a token.
fn open_help<'a>(tokens: &[Token], at: usize, open: usize) -> Option<Help<'a>> {
    let token = tokens.get(open)?;
    let ends = matches!(
        kind_at(tokens, at),
        None | Some(Kind::OpenBrace | Kind::Semicolon | Kind::CloseBrace)
    );
    if ends && (token.kind != Kind::OpenBrace || at == tokens.len()) {
        Some(Help::Counted(unclosed(token.kind), token.pos.line as usize, b""))
    } else {
        None
    }
}

/// What is not closed in front of a token, if that is what is wrong; or that a token closes nothing.
fn bracket_help<'a>(tokens: &[Token], at: usize) -> Option<Help<'a>> {
    if let Some(open) = last_open(tokens, at) {
        return open_help(tokens, at, open);
    }
    if is_at(tokens, at, Kind::CloseBrace) {
        return Some(Help::Words(b"it closes nothing"));
    }
    None
}

/// What helps by the token and the one in front of it.
fn sign_help<'a>(
    tokens: &[Token<'a>],
    at: usize,
    before: Token<'a>,
    token: Token<'a>,
) -> Option<Help<'a>> {
    if let Some(words) = pair_help(before.kind, token.kind) {
        return Some(Help::Words(words));
    }
    if let Some(words) = line_help(tokens, at, token.pos.line as usize) {
        return Some(Help::Words(words));
    }
    bracket_help(tokens, at)
}

/// What helps at a type, in front of which nothing is open.
fn outer_type_help(tokens: &[Token], at: usize) -> &'static [u8] {
    match last_open(tokens, at) {
        None => b"declarations and functions stand in front of the first state set",
        Some(_) => b"declarations stand at the begin of a block, in front of its statements",
    }
}

/// What helps at a type behind something that ends.
fn type_help<'a>(tokens: &[Token], at: usize, before: Kind, kind: Kind) -> Option<Help<'a>> {
    if is_type(kind) && is_end(before) {
        Some(Help::Words(outer_type_help(tokens, at)))
    } else {
        None
    }
}

/// What helps between the clauses of a state, where the token stands there.
fn state_help_at<'a>(
    tokens: &[Token<'a>],
    at: usize,
    before: Kind,
    token: Token<'a>,
) -> Option<Help<'a>> {
    if is_in_state(tokens, at) {
        state_help(before, token)
    } else {
        None
    }
}

/// What helps by what stands there.
fn standing_help<'a>(
    tokens: &[Token<'a>],
    at: usize,
    before: Token<'a>,
    token: Token<'a>,
) -> Option<Help<'a>> {
    if let Some(help) = state_help_at(tokens, at, before.kind, token) {
        return Some(help);
    }
    type_help(tokens, at, before.kind, token.kind)
}

/// The keyword that is nearest to a name, if one is near. Only here are the keywords borrowed: each point of a proof lists them.
fn nearest_keyword(alloc: Global, name: &[u8]) -> Result<Option<&'static [u8]>, AllocError> {
    nearest_word(alloc, name, &KEYWORDS)
}

/// What helps at a token behind another one. A keyword that is near comes before where it stands.
fn help_behind<'a>(
    alloc: Global,
    tokens: &[Token<'a>],
    at: usize,
    before: Token<'a>,
    token: Token<'a>,
) -> Result<Option<Help<'a>>, AllocError> {
    if let Some(help) = sign_help(tokens, at, before, token) {
        return Ok(Some(help));
    }
    if token.kind == Kind::Name {
        if let Some(word) = nearest_keyword(alloc, token.text)? {
            return Ok(meant(Some(word)));
        }
    }
    Ok(standing_help(tokens, at, before, token))
}

/// What helps at the first token.
fn first_help<'a>() -> Help<'a> {
    Help::Words(b"a program begins with program NAME")
}

/// What helps where the token of a number is the first that cannot stand, or where the tokens end too soon, by what is known of such
/// tokens. Fails only where memory ends.
pub fn syntax_help<'a>(
    alloc: Global,
    tokens: &[Token<'a>],
    at: usize,
) -> Result<Option<Help<'a>>, AllocError> {
    match (at.checked_sub(1), tokens.get(at)) {
        (None, _) => Ok(Some(first_help())),
        (Some(_), None) => Ok(bracket_help(tokens, at)),
        (Some(before), Some(token)) => match tokens.get(before) {
            Some(before) => help_behind(alloc, tokens, at, *before, *token),
            None => Ok(None),
        },
    }
}

/// Which semicolon is missing in front of the token of a number, if one may be.
pub fn semicolon_help_at<'a>(tokens: &[Token], at: usize) -> Option<Help<'a>> {
    let before = tokens.get(at.checked_sub(1)?)?;
    let token = tokens.get(at)?;
    semicolon_help(*before, *token)
}
