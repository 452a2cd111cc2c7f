//! How far tokens go as a program.

ghost use Rattle.std.specs.Prelude.{◌≡◌, ◌+◌, IfOk, IsTrue};
ghost use Rattle.snl_cures.specs.Reaching.{IsReach, IsPast, reach_of_found};

use snl_text::Lexed;
use snl_tree::{ParseFault, parse};
use std::alloc::{AllocError, Global};

/// How far tokens go as a program.
#[derive(Clone, Copy, Debug, PartialEq, Eq)]
pub enum Reach {
    /// They are one.
    Whole,
    /// No program goes on with the token of this number, or all of them begin one and are none.
    Unexpected(usize),
    /// Programs go on with the token of this number, but none that is nested so little.
    TooDeep(usize),
}

/// How far tokens go, by what a parse of them found.
fn reach_of_found<T: Drop>(found: Result<T, ParseFault>) -> Result<Reach, AllocError>
    ensures { result ≡ reach_of_found found }
{
    match found {
        Ok(_) => Ok(Reach::Whole),
        Err(ParseFault::Unexpected(number)) => Ok(Reach::Unexpected(number)),
        Err(ParseFault::TooDeep(number)) => Ok(Reach::TooDeep(number)),
        Err(ParseFault::Memory) => Err(AllocError),
    }
}

/// How far tokens go. Fails only where memory ends.
pub fn reach_of(alloc: Global, lexed: &Lexed) -> Result<Reach, AllocError>
    ensures { IfOk result (IsReach lexed.now.tokens.items) }
{
    reach_of_found(parse(alloc, lexed))
}

/// Whether they are a program, or go on behind so many of them, and behind so many more.
pub fn is_past(reach: Reach, count: usize, more: usize) -> bool
    ensures { IsTrue result → IsPast (count + more) reach }
{
    match reach {
        Reach::Whole => true,
        Reach::Unexpected(number) | Reach::TooDeep(number) => count < number.saturating_sub(more),
    }
}
