//! The cure of a token that cannot stand.

ghost use Rattle.std.specs.Prelude.{◌≡◌, ◌<◌, ℕ, IfOk, IfSome, IsTrue};
ghost use Rattle.snl_cures.specs.Cures as spec;

use crate::cured_tokens::{fits, mended, place_at, put_count};
use crate::cures::{CURES, Cure, tried_cure};
use crate::reach::{Reach, is_past, reach_of};
use snl_text::{Lexed, Pos, Token};
use std::alloc::{AllocError, Global};

/// A source with a cure.
#[derive(Debug, Drop)]
pub struct Cured<'a> {
    /// What was done.
    pub cure: Cure,
    /// The tokens with it. A token that was put has the place of the one at which it was, or of the end.
    pub lexed: Lexed<'a>,
    /// How far they go.
    pub reach: Reach,
}

/// How many tokens of the source can stand with a cure, by how far the tokens go with it; all numbers are below that of a program.
fn distance(cure: Cure, reach: Reach) -> usize {
    match (reach, cure) {
        (Reach::Whole, _) => usize::MAX,
        (Reach::Unexpected(number) | Reach::TooDeep(number), Cure::Before(_)) => {
            number.saturating_sub(1)
        }
        (Reach::Unexpected(number) | Reach::TooDeep(number), Cure::Instead(_)) => number,
        (Reach::Unexpected(number) | Reach::TooDeep(number), Cure::Away) => {
            number.saturating_add(1)
        }
    }
}

/// Whether the next fault stands behind a place of the source. With a cure it does, since tokens stand in order: that is looked at here, so
/// that nothing has to be known of how they were cut.
fn is_farther(from: Pos, mended: &Lexed, reach: Reach) -> bool
    ensures { IsTrue result → spec.IsFarther from mended.now.tokens.items mended.now.eof reach }
{
    match reach {
        Reach::Whole => true,
        Reach::Unexpected(number) | Reach::TooDeep(number) => {
            from.offset < place_at(mended, number).offset
        }
    }
}

/// How far a source goes with a change at a number, where that is a cure; 0 where it is none. Fails only where memory ends.
#[tactic(auto, using(crate::proofs::CureLaws::is_cure))]
fn tried(alloc: Global, lexed: &Lexed, at: usize, cure: Cure) -> Result<usize, AllocError>
    ensures { IfOk result (λ far. 0 < far
        → spec.IsCure lexed.now.tokens.items lexed.now.eof at cure) }
{
    if !fits(lexed.tokens.len(), at, cure) {
        return Ok(0);
    }
    let mended = mended(alloc, lexed, at, cure)?;
    let reach = reach_of(alloc, &mended)?;
    if is_past(reach, at, put_count(cure)) && is_farther(place_at(lexed, at), &mended, reach) {
        Ok(distance(cure, reach))
    } else {
        Ok(0)
    }
}

/// Whether the token of a number stands twice: the one in front of it is the same.
fn is_twice(tokens: &[Token], at: usize) -> bool {
    at > 0 && at < tokens.len() && tokens[at].text == tokens[at - 1].text
}

/// The best cure at a number: with it the source is a program, or goes farthest; of several the first that is tried. None where
/// nothing that is tried is a cure. Fails only where memory ends.
fn best_cure(alloc: Global, lexed: &Lexed, at: usize) -> Result<Option<Cure>, AllocError>
    ensures { IfOk result (λ found. IfSome found
        (spec.IsCure lexed.now.tokens.items lexed.now.eof at)) }
{
    let is_twice = is_twice(lexed.tokens.as_slice(), at);
    let mut best = None;
    let mut farthest = 0;
    for number in 0..CURES {
        let cure = tried_cure(number, is_twice);
        let far = tried(alloc, lexed, at, cure)?;
        if far > farthest {
            farthest = far;
            best = Some(cure);
        }
        if far == usize::MAX {
            break;
        }
    }
    Ok(best)
}

/// A source with a cure at a number, of which it is known that it is one.
#[tactic(auto, using(crate::proofs::CureLaws::is_cure))]
fn with_cure<'a>(
    alloc: Global,
    lexed: &Lexed<'a>,
    at: usize,
    cure: Cure,
) -> Result<Cured<'a>, AllocError>
    requires { spec.IsCure lexed.now.tokens.items lexed.now.eof at cure }
    ensures { IfOk result (spec.IsCured lexed.now at) }
{
    let mended = mended(alloc, lexed, at, cure)?;
    let reach = reach_of(alloc, &mended)?;
    Ok(Cured {
        cure,
        lexed: mended,
        reach,
    })
}

/// A source with the best cure at the token of a number that cannot stand, or at the end of the tokens: with it the first fault is gone,
/// or stands farther on (docs/tools/check.md, "Cures"). None where nothing that is tried is a cure. The only error is that memory ends.
pub fn cure_at<'a>(
    alloc: Global,
    lexed: &Lexed<'a>,
    at: usize,
) -> Result<Option<Cured<'a>>, AllocError>
    ensures { IfOk result (λ found. IfSome found (spec.IsCured lexed.now at)) }
{
    match best_cure(alloc, lexed, at)? {
        Some(cure) => {
            let cured = with_cure(alloc, lexed, at, cure)?;
            Ok(Some(cured))
        }
        None => Ok(None),
    }
}
