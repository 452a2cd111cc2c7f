//! What stands where among tokens.

use snl_text::{Kind, Token};

/// The kind of a token by its number, if there is one.
pub fn kind_at(tokens: &[Token], at: usize) -> Option<Kind> {
    match tokens.get(at) {
        Some(token) => Some(token.kind),
        None => None,
    }
}

/// Whether the token of a number is of a kind.
pub fn is_at(tokens: &[Token], at: usize, kind: Kind) -> bool {
    match tokens.get(at) {
        Some(token) => token.kind == kind,
        None => false,
    }
}

/// The number of the first token, from a number on, that does not stand in front of a byte offset; that of the end where all do.
pub fn number_from(tokens: &[Token], from: usize, offset: usize) -> usize {
    for at in from..tokens.len() {
        if (tokens[at].pos.offset as usize) >= offset {
            return at;
        }
    }
    tokens.len()
}

/// Whether something opens with a token.
pub fn opens(kind: Kind) -> bool {
    matches!(
        kind,
        Kind::OpenBrace | Kind::OpenParenthesis | Kind::OpenBracket
    )
}

/// Whether something closes with a token.
pub fn closes(kind: Kind) -> bool {
    matches!(
        kind,
        Kind::CloseBrace | Kind::CloseParenthesis | Kind::CloseBracket
    )
}

/// The number of the last of so many first tokens that opens what none of them closes.
pub fn last_open(tokens: &[Token], count: usize) -> Option<usize> {
    let mut closed = 0usize;
    for at in (0..count).rev() {
        let Some(kind) = kind_at(tokens, at) else {
            return None;
        };
        if closes(kind) {
            closed = closed.saturating_add(1);
        } else if opens(kind) {
            if closed == 0 {
                return Some(at);
            }
            closed -= 1;
        }
    }
    None
}

/// Whether a declaration begins with a token.
pub fn is_type(kind: Kind) -> bool {
    matches!(
        kind,
        Kind::Int
            | Kind::Long
            | Kind::Short
            | Kind::Char
            | Kind::Unsigned
            | Kind::Int8
            | Kind::Int16
            | Kind::Int32
            | Kind::Uint8
            | Kind::Uint16
            | Kind::Uint32
            | Kind::EventFlag
            | Kind::Double
            | Kind::Float
            | Kind::StringType
            | Kind::Void
            | Kind::Int64
            | Kind::Uint64
    )
}

/// Whether the token of a number is a name that stands behind a type and in front of a parenthesis: that of a function.
pub fn is_function(tokens: &[Token], at: usize) -> bool {
    if at == 0
        || !is_at(tokens, at, Kind::Name)
        || !is_at(tokens, at.saturating_add(1), Kind::OpenParenthesis)
    {
        return false;
    }
    match kind_at(tokens, at - 1) {
        Some(kind) => is_type(kind),
        None => false,
    }
}

/// Whether the token of a number is a name that stands behind `state` and in front of a brace: that of a state.
pub fn is_state(tokens: &[Token], at: usize) -> bool {
    at > 0
        && is_at(tokens, at - 1, Kind::State)
        && is_at(tokens, at, Kind::Name)
        && is_at(tokens, at.saturating_add(1), Kind::OpenBrace)
}
