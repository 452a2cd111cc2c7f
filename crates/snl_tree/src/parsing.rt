//! From the tokens of a source to its program.

ghost use Rattle.std.specs.Prelude.{◌≡◌, ◌<◌, ℕ, IfOk, List, Err};
ghost use Rattle.snl_syntax.specs.Begins.{Spells, IsUnexpected, IsTooDeep};
ghost use Rattle.snl_tree.specs.Answers.{IsOnly, IsOnlyFault, fault_of, answer_of, unboxed_of};
ghost use Rattle.snl_syntax.specs.Programs.{ProgramTree, IsProgram, programs};
ghost use Rattle.snl_syntax.specs.view.Shown.{held};
ghost use Rattle.snl_syntax.specs.view.Programs.{Carries, program_view};

use crate::faults::ParseFault;
use crate::readers::cursor::{Cursor, Halt};
use crate::readers::programs::program;
use snl_syntax::Program;
use snl_text::Lexed;
use std::alloc::Global;

/// How deep expressions and statements may be nested: the most `(`, `[`, prefix operators, `?` and assignment
/// operators that may be open at a token of an expression, and likewise the most braces, `if`, `else`, `while`
/// and `for` of a clause's block, an entry, an exit or the body of a function.
pub const NESTING_LIMIT: usize = 64;

/// How many tokens a program may have that is compiled. Past it [`Program::beyond`] is a place.
pub const TOKEN_LIMIT: usize = 65_536;

/// Reads all the tokens of a source as one program (SNL Reference, on programs, definitions, statements, and
/// "Function Definitions").
/// The program takes the pieces of embedded C, the names of files and the count of tokens along.
///
/// Tokens are named by their number, from 0. `Unexpected` names the first with which no program goes on that
/// begins with those before it, or gives the count of the tokens where all of them begin a program and are
/// none. `TooDeep` names the first with which programs go on, but none that is nested at most
/// [`NESTING_LIMIT`] deep. `Memory` comes only where a part of the tree found no room.
pub fn parse<'a>(alloc: Global, lexed: &Lexed<'a>) -> Result<Program<'a>, ParseFault>
    ensures found { IfOk result (λ p. IsProgram 64 (program_view p)
        × Spells programs (program_view p) lexed.now.tokens.items) }
    ensures only { (p : ProgramTree) → IsProgram 64 p
        → Spells programs p lexed.now.tokens.items → IsOnly program_view result p }
    ensures unexpected { (k : ℕ) → result ≡ Err (ParseFault.Unexpected k)
        → IsUnexpected programs 64 lexed.now.tokens.items k }
    ensures too_deep { (k : ℕ) → result ≡ Err (ParseFault.TooDeep k)
        → IsTooDeep programs 64 lexed.now.tokens.items k }
    ensures only_unexpected { (k : ℕ) → IsUnexpected programs 64 lexed.now.tokens.items k
        → IsOnlyFault result (ParseFault.Unexpected k) }
    ensures only_too_deep { (k : ℕ) → IsTooDeep programs 64 lexed.now.tokens.items k
        → IsOnlyFault result (ParseFault.TooDeep k) }
    ensures carried { IfOk result (λ p. Carries p lexed.now) }
{
    unboxed(parse_within(alloc, lexed, NESTING_LIMIT))
}

/// What is found, out of its box.
fn unboxed<T: Drop>(found: Result<Box<T>, ParseFault>) -> Result<T, ParseFault>
    ensures { result ≡ unboxed_of found }
{
    match found {
        Ok(found) => Ok(Box::into_inner(found)),
        Err(fault) => Err(fault),
    }
}

/// The fault of a reader that halts at the token of this number.
fn fault(halt: Halt, place: usize) -> ParseFault
    ensures { result ≡ fault_of halt place }
{
    match halt {
        Halt::Stuck => ParseFault::Unexpected(place),
        Halt::Deep => ParseFault::TooDeep(place),
        Halt::Memory => ParseFault::Memory,
    }
}

/// What is found in so many tokens, where none is left after it; else the fault at the first that is left.
/// No more are left than there were, unless memory ended, where the place does not count.
fn answer<T: Drop>(found: Result<T, Halt>, count: usize, left: usize) -> Result<T, ParseFault>
    ensures { result ≡ answer_of found count left }
{
    let place = count.saturating_sub(left);
    match found {
        Ok(found) => {
            if left == 0 {
                Ok(found)
            } else {
                Err(ParseFault::Unexpected(place))
            }
        }
        Err(halt) => Err(fault(halt, place)),
    }
}

/// The same in a box, with any limit on the nesting that leaves room for a block.
fn parse_within<'a>(
    alloc: Global,
    lexed: &Lexed<'a>,
    limit: usize,
) -> Result<Box<Program<'a>>, ParseFault>
    requires { 0 < limit }
    ensures found { IfOk result (λ b. IsProgram limit (program_view b.value)
        × Spells programs (program_view b.value) lexed.now.tokens.items) }
    ensures only { (p : ProgramTree) → IsProgram limit p
        → Spells programs p lexed.now.tokens.items → IsOnly (held program_view) result p }
    ensures unexpected { (k : ℕ) → result ≡ Err (ParseFault.Unexpected k)
        → IsUnexpected programs limit lexed.now.tokens.items k }
    ensures too_deep { (k : ℕ) → result ≡ Err (ParseFault.TooDeep k)
        → IsTooDeep programs limit lexed.now.tokens.items k }
    ensures carried { IfOk result (λ b. Carries b.value lexed.now) }
{
    let tokens = lexed.tokens.as_slice();
    let mut cursor = Cursor { left: tokens };
    let found = program(alloc, &mut cursor, limit, lexed);
    answer(found, tokens.len(), cursor.left.len())
}
