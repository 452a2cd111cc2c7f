//! Tokens with a cure.

ghost use Rattle.std.specs.Prelude.{◌≡◌, IfOk, OnOk, length, slice_get, IsTrue};
ghost use Rattle.snl_cures.specs.Cures as spec;

use crate::cures::{Cure, CureToken};
use snl_text::{Lexed, Pos, Token};
use std::alloc::{AllocError, Global};

/// A piece as a token at a place.
fn token_of<'a>(piece: CureToken, pos: Pos) -> Token<'a>
    ensures { result ≡ spec.token_of piece pos }
{
    Token {
        kind: piece.kind,
        pos,
        text: piece.text,
    }
}

/// The place of the token of a number, or the end of the source where there is none.
pub fn place_at(lexed: &Lexed, at: usize) -> Pos
    ensures { result ≡ spec.place_of (slice_get lexed.now.tokens.items at) lexed.now.eof }
{
    match lexed.tokens.get(at) {
        Some(token) => token.pos,
        None => lexed.eof,
    }
}

/// Whether a cure can be done at a number, of so many tokens.
pub fn fits(count: usize, at: usize, cure: Cure) -> bool
    ensures { IsTrue result → spec.Fits count at cure }
{
    match cure {
        Cure::Before(_) => at <= count,
        Cure::Instead(_) | Cure::Away => at < count,
    }
}

/// How many tokens a cure puts.
pub fn put_count(cure: Cure) -> usize
    ensures { result ≡ spec.put_count cure }
{
    match cure {
        Cure::Before(_) | Cure::Instead(_) => 1,
        Cure::Away => 0,
    }
}

/// Changes tokens at a number.
fn mend<'a>(tokens: &mut Vec<Token<'a>>, pos: Pos, at: usize, cure: Cure) -> Result<(), AllocError>
    requires { spec.Fits (length tokens.old.items) at cure }
    ensures { OnOk result (tokens.new.items ≡ spec.mended_at tokens.old.items pos at cure) }
{
    match cure {
        Cure::Before(piece) => {
            tokens.insert(at, token_of(piece, pos))?;
        }
        Cure::Instead(piece) => tokens[at] = token_of(piece, pos),
        Cure::Away => {
            tokens.remove(at);
        }
    }
    Ok(())
}

/// The tokens of a source with a cure at a number. Fails only where memory ends.
pub fn mended<'a>(
    alloc: Global,
    lexed: &Lexed<'a>,
    at: usize,
    cure: Cure,
) -> Result<Lexed<'a>, AllocError>
    requires { spec.Fits (length lexed.now.tokens.items) at cure }
    ensures tokens { IfOk result (λ it. it.tokens.items
        ≡ spec.mended lexed.now.tokens.items lexed.now.eof at cure) }
    ensures eof { IfOk result (λ it. it.eof ≡ lexed.now.eof) }
{
    let mut tokens = Vec::from_slice(alloc, lexed.tokens.as_slice())?;
    mend(&mut tokens, place_at(lexed, at), at, cure)?;
    Ok(Lexed {
        tokens,
        embedded: Vec::new(alloc),
        files: Vec::new(alloc),
        eof: lexed.eof,
    })
}
