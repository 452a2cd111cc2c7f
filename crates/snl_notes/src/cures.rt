//! Cures in words, and as changes of the source.

use crate::advice::Edit;
use crate::helps::Help;
use snl_cures::{Cure, CureToken};
use snl_text::{Kind, Token};

/// Whether a piece stands for any of its sort.
fn is_any(piece: CureToken) -> bool {
    matches!(piece.kind, Kind::Name | Kind::Whole | Kind::Text)
}

/// Whether a piece is a word.
fn is_word(piece: CureToken) -> bool {
    match piece.text.first() {
        Some(byte) => byte.is_ascii_alphabetic(),
        None => false,
    }
}

/// Whether a piece stands close behind what it ends.
fn ends(piece: CureToken) -> bool {
    matches!(
        piece.kind,
        Kind::Semicolon | Kind::CloseParenthesis | Kind::CloseBracket | Kind::Comma
    )
}

/// The token in front of that of a number.
fn token_before<'a>(tokens: &[Token<'a>], at: usize) -> Option<Token<'a>> {
    let before = tokens.get(at.checked_sub(1)?)?;
    Some(*before)
}

/// The line at whose end a piece is missing: it ends something, and its line is above that of the token of a number.
fn line_above(tokens: &[Token], at: usize, piece: CureToken) -> Option<usize> {
    let before = token_before(tokens, at)?;
    let token = tokens.get(at)?;
    if ends(piece) && before.pos.line < token.pos.line && before.pos.file == token.pos.file {
        Some(before.pos.line as usize)
    } else {
        None
    }
}

/// That any of a sort is missing.
fn any_missing<'a>(kind: Kind) -> Help<'a> {
    match kind {
        Kind::Name => Help::Words(b"is a name missing in front of it?"),
        Kind::Whole => Help::Words(b"is a value missing in front of it?"),
        _ => Help::Words(b"is a text missing in front of it?"),
    }
}

/// What stands in front of a piece that may be missing.
fn missing(piece: CureToken) -> &'static [u8] {
    if is_word(piece) { b"is '" } else { b"is a '" }
}

/// That a piece is missing.
fn missing_help<'a>(tokens: &[Token], at: usize, piece: CureToken) -> Help<'a> {
    if is_any(piece) {
        return any_missing(piece.kind);
    }
    if at >= tokens.len() {
        return Help::Named(missing(piece), piece.text, b"' missing at the end?");
    }
    match line_above(tokens, at, piece) {
        Some(line) => Help::Placed(
            missing(piece),
            piece.text,
            b"' missing at the end of line ",
            line,
            b"?",
        ),
        None => Help::Named(missing(piece), piece.text, b"' missing in front of it?"),
    }
}

/// That a piece stands in the place of a token.
fn instead_help<'a>(piece: CureToken) -> Help<'a> {
    match piece.kind {
        Kind::Name => Help::Words(b"should it be a name?"),
        Kind::Whole => Help::Words(b"should it be a value?"),
        Kind::Text => Help::Words(b"should it be a text?"),
        _ => Help::Named(b"should it be '", piece.text, b"'?"),
    }
}

/// That a token is left out.
fn away_help<'a>() -> Help<'a> {
    Help::Words(b"should it be left out?")
}

/// A cure at the token of a number, in words.
pub fn cure_help<'a>(tokens: &[Token], at: usize, cure: Cure) -> Help<'a> {
    match cure {
        Cure::Before(piece) => missing_help(tokens, at, piece),
        Cure::Instead(piece) => instead_help(piece),
        Cure::Away => away_help(),
    }
}

/// A blank round a word.
fn blank_of(piece: CureToken) -> &'static [u8] {
    if is_word(piece) { b" " } else { b"" }
}

/// A blank behind a piece that stands in front of something.
fn blank_behind(piece: CureToken) -> &'static [u8] {
    match piece.kind {
        Kind::OpenParenthesis | Kind::OpenBracket => b"",
        _ => b" ",
    }
}

/// A change that puts a piece behind the token of a number.
fn put_behind(before: Token, piece: CureToken) -> Edit {
    Edit {
        offset: (before.pos.offset as usize).saturating_add(before.text.len()),
        line: before.pos.line as usize,
        length: 0,
        text: [blank_of(piece), piece.text, b""],
    }
}

/// A change that puts a piece in front of a token.
fn put_before(token: Token, piece: CureToken) -> Edit {
    Edit {
        offset: token.pos.offset as usize,
        line: token.pos.line as usize,
        length: 0,
        text: [blank_of(piece), piece.text, blank_behind(piece)],
    }
}

/// A change that puts a piece: what ends something stands close behind the token in front, and so does what ends the source.
fn put_edit(tokens: &[Token], at: usize, piece: CureToken) -> Option<Edit> {
    let before = token_before(tokens, at)?;
    match tokens.get(at) {
        None => Some(put_behind(before, piece)),
        Some(token) if ends(piece) && before.pos.file == token.pos.file => {
            Some(put_behind(before, piece))
        }
        Some(token) => Some(put_before(*token, piece)),
    }
}

/// A change that takes a token out, or puts something in its place.
fn change(token: Token, text: [&'static [u8]; 3]) -> Edit {
    Edit {
        offset: token.pos.offset as usize,
        line: token.pos.line as usize,
        length: token.text.len(),
        text,
    }
}

/// Whether a token stands close behind another one.
fn adjoins(before: Token, token: Token) -> bool {
    (before.pos.offset as usize).saturating_add(before.text.len()) == (token.pos.offset as usize)
}

/// What stands in the place of the token of a number that is left out: a blank where else those on both sides would be one.
fn gap_of(tokens: &[Token], at: usize) -> &'static [u8] {
    let before = token_before(tokens, at);
    match (before, tokens.get(at), tokens.get(at.saturating_add(1))) {
        (Some(before), Some(token), Some(next))
            if adjoins(before, *token) && adjoins(*token, *next) => { b" " }
        _ => b"",
    }
}

/// A cure at the token of a number, as a change of the source; none where it stands for any of its sort.
pub fn cure_edit(tokens: &[Token], at: usize, cure: Cure) -> Option<Edit> {
    match cure {
        Cure::Before(piece) if is_any(piece) => None,
        Cure::Before(piece) => put_edit(tokens, at, piece),
        Cure::Instead(piece) if is_any(piece) => None,
        Cure::Instead(piece) => Some(change(
            *tokens.get(at)?,
            [blank_of(piece), piece.text, blank_of(piece)],
        )),
        Cure::Away => Some(change(*tokens.get(at)?, [b"", b"", gap_of(tokens, at)])),
    }
}
