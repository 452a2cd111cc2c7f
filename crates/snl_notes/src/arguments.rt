//! The arguments of a call, by its tokens.

use crate::tokens::{closes, is_at, kind_at, opens};
use snl_text::{Kind, Token};

/// How many arguments stand in the parentheses that the token of a number opens.
pub fn count_of(tokens: &[Token], open: usize) -> usize {
    if is_at(tokens, open.saturating_add(1), Kind::CloseParenthesis) {
        return 0;
    }
    let mut depth = 0usize;
    let mut count = 1usize;
    for at in open..tokens.len() {
        let kind = tokens[at].kind;
        if opens(kind) {
            depth = depth.saturating_add(1);
        } else if closes(kind) {
            depth = depth.saturating_sub(1);
        } else if kind == Kind::Comma && depth == 1 {
            count = count.saturating_add(1);
        }
        if depth == 0 {
            return count;
        }
    }
    count
}

/// The number of the token that closes what the token of a number opens.
fn close_of(tokens: &[Token], open: usize) -> Option<usize> {
    let mut depth = 0usize;
    for at in open..tokens.len() {
        let kind = tokens[at].kind;
        if opens(kind) {
            depth = depth.saturating_add(1);
        } else if closes(kind) {
            depth = depth.saturating_sub(1);
        }
        if depth == 0 {
            return Some(at);
        }
    }
    None
}

/// Whether an argument ends in front of the token of a number.
fn ends_before(tokens: &[Token], at: usize) -> bool {
    matches!(
        kind_at(tokens, at),
        Some(Kind::Comma | Kind::CloseParenthesis)
    )
}

/// Whether an argument that begins with the token of a number is a name, or an element of one.
pub fn is_place(tokens: &[Token], at: usize) -> bool {
    if !is_at(tokens, at, Kind::Name) {
        return false;
    }
    let behind = at.saturating_add(1);
    if ends_before(tokens, behind) {
        return true;
    }
    if !is_at(tokens, behind, Kind::OpenBracket) {
        return false;
    }
    match close_of(tokens, behind) {
        Some(close) => ends_before(tokens, close.saturating_add(1)),
        None => false,
    }
}
