//! The one cut of the source.

ghost use Rattle.snl_text.specs.Cut.{Cuts, Reading, nothing_read, start};
ghost use Rattle.snl_text.specs.Lexing.{FaultHolds, FaultsOnly, GivesOnly, IsFault, IsLexed, Scans};
ghost use Rattle.snl_text.specs.declared.faults.Flaw.{Flaw};
ghost use Rattle.snl_text.specs.declared.lexemes.Lexeme.{Lexeme};
ghost use Rattle.snl_text.specs.declared.tokens.Pos.{Pos};
ghost use Rattle.std.specs.Prelude.{◌<◌, ◌≡◌, ◌≤◌, [], IfErr, IfOk, List, length};

use crate::faults::LexFault;
use crate::lexemes::{flaw_at, lexeme_at};
use crate::scanner::Scanner;
use crate::tokens::{Lexed, Pos};
use std::alloc::Global;

/// The most bytes that a source may have.
pub const SOURCE_LIMIT: usize = 1_048_576;

/// Cuts a source into tokens, with blanks, comments, embedded C and markers between them, each lexeme the
/// longest that can stand at its place.
///
/// A source of more than [`SOURCE_LIMIT`] bytes is `SourceTooLong`, before all other faults, at its begin. Any
/// other fault stands at the end of the longest cut, where no lexeme can stand. `Memory` comes where the lists
/// found no room.
pub fn lex<'a>(alloc: Global, source: &'a [u8]) -> Result<Lexed<'a>, LexFault>
    ensures long { SOURCE_LIMIT < length source.now → result ≡ Err (LexFault.SourceTooLong start) }

    // What is answered is what a cut of the source reads, or the fault at the end of the longest one.
    ensures cut { IfOk result (IsLexed source.now) }
    ensures fault { IfErr result (FaultHolds source.now) }

    // Where a cut reaches the end, what it reads is answered; where none does, the fault is.
    ensures whole { (lexemes : List Lexeme) (end : Reading) → length source.now ≤ SOURCE_LIMIT
        → Cuts nothing_read source.now lexemes end [] → GivesOnly end result }
    ensures broken { (kind : Flaw) (pos : Pos) → length source.now ≤ SOURCE_LIMIT
        → IsFault source.now kind pos → FaultsOnly kind pos result }
{
    if source.len() > SOURCE_LIMIT {
        let start = Pos {
            offset: 0,
            file: 0,
            line: 1,
        };
        return Err(LexFault::SourceTooLong(start));
    }
    lex_within(alloc, source)
}

/// The same for a source within the limit.
fn lex_within<'a>(alloc: Global, source: &'a [u8]) -> Result<Lexed<'a>, LexFault>
    requires { length source.now ≤ SOURCE_LIMIT }
    ensures cut { IfOk result (IsLexed source.now) }
    ensures fault { IfErr result (FaultHolds source.now) }
{
    let Scanner {
        pos,
        opens_line: _,
        tokens,
        embedded,
        files,
    } = scan(alloc, source)?;
    let files = Vec::from_slice(alloc, files.as_slice())?;
    Ok(Lexed {
        tokens,
        embedded,
        files,
        eof: pos,
    })
}

/// Takes lexeme after lexeme, until the source ends or none can stand.
fn scan<'a>(alloc: Global, source: &'a [u8]) -> Result<Scanner<'a>, LexFault>
    requires { length source.now ≤ SOURCE_LIMIT }
    ensures { Scans source.now result }
{
    let mut scanner = Scanner::new(alloc);
    while (scanner.pos.offset as usize) < source.len() {
        let rest = &source[scanner.pos.offset as usize..];
        let Some(lexeme) = lexeme_at(scanner.opens_line, rest) else {
            return Err(flaw_at(rest).at(scanner.pos));
        };
        scanner.take(lexeme.sort, &rest[..lexeme.length])?;
    }
    Ok(scanner)
}
