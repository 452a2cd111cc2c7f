//! What may be done at a token that cannot stand, and in which order it is tried.

ghost use Rattle.std.specs.Prelude.{◌<◌};

use snl_text::Kind;

/// A token as it is put.
#[derive(Clone, Copy, Debug, PartialEq, Eq)]
pub struct CureToken {
    /// What sort of token it is.
    pub kind: Kind,
    /// As it is spelled.
    pub text: &'static [u8],
}

/// What is done at a token that cannot stand, or at the end of the tokens.
#[derive(Clone, Copy, Debug, PartialEq, Eq)]
pub enum Cure {
    /// A token is put in front of it.
    Before(CureToken),
    /// Another token stands in its place.
    Instead(CureToken),
    /// It is left out.
    Away,
}

/// A piece, by the name of its kind.
macro_rules! piece {
    ($kind:ident, $text:literal) => {
        CureToken {
            kind: Kind::$kind,
            text: $text,
        }
    };
}

/// How many pieces are tried.
const PIECE_COUNT: usize = 21;

/// The pieces that are tried, in this order: signs, words, and what stands for any value, name or text.
const PIECES: [CureToken; PIECE_COUNT] = [
    piece!(Semicolon, b";"),
    piece!(CloseBrace, b"}"),
    piece!(CloseParenthesis, b")"),
    piece!(CloseBracket, b"]"),
    piece!(OpenBrace, b"{"),
    piece!(OpenParenthesis, b"("),
    piece!(OpenBracket, b"["),
    piece!(Comma, b","),
    piece!(EqualEqual, b"=="),
    piece!(Equal, b"="),
    piece!(Colon, b":"),
    piece!(Assign, b"assign"),
    piece!(To, b"to"),
    piece!(State, b"state"),
    piece!(When, b"when"),
    piece!(StateSet, b"ss"),
    piece!(Exit, b"exit"),
    piece!(Int, b"int"),
    piece!(Whole, b"0"),
    piece!(Name, b"x"),
    piece!(Text, b"\"s\""),
];

/// How many cures are tried: each piece in front of a token, that the token is left out, and each piece in its place.
pub const CURES: usize = 2 * PIECE_COUNT + 1;

/// The cure of a number, in the order in which they are tried.
fn cure_numbered(number: usize) -> Cure
    requires { number < CURES }
{
    if number < PIECE_COUNT {
        Cure::Before(PIECES[number])
    } else if number == PIECE_COUNT {
        Cure::Away
    } else {
        Cure::Instead(PIECES[number - PIECE_COUNT - 1])
    }
}

/// The number of a cure where the first that is tried is to leave the token out.
fn with_away_first(number: usize) -> usize
    requires { number < CURES }
    ensures { result < CURES }
{
    if number == 0 {
        PIECE_COUNT
    } else if number <= PIECE_COUNT {
        number - 1
    } else {
        number
    }
}

/// The cure that is tried as the one of a number, at a token that stands there twice or once.
pub fn tried_cure(number: usize, is_twice: bool) -> Cure
    requires { number < CURES }
{
    if is_twice {
        cure_numbered(with_away_first(number))
    } else {
        cure_numbered(number)
    }
}
