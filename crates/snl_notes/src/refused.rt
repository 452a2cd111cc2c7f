//! The notes on tokens that are no program: on the first that cannot stand, and on those that cannot once it is mended.

use crate::advice::Advice;
use crate::blocks::push_note;
use crate::columns::Columns;
use crate::cures::{cure_edit, cure_help};
use crate::forms::{Diagnostic, Name, Sheet};
use crate::helps::{Help, push_all, push_three};
use crate::syntax::{semicolon_help_at, syntax_help};
use snl_check::Severity;
use snl_cures::{Cure, Cured, Reach, cure_at, put_count};
use snl_messages::Refusal;
use snl_text::{Lexed, Pos, Token};
use std::alloc::{AllocError, Global};

/// How many bytes a source has at most whose cures are tried: it is parsed for each of them.
const TRIED: usize = 200_000;

/// How many further faults are told at most.
const FURTHER: usize = 8;

/// How many tokens have to stand behind a cure that is told, unless it makes the source a program: one that does not go so far is
/// mostly wrong.
const BETWEEN: usize = 3;

/// A fault of tokens.
#[derive(Clone, Copy)]
struct Fault {
    /// What it is.
    why: Refusal,
    /// The number of its token.
    at: usize,
    /// Whether another one stands in front of it.
    is_behind: bool,
}

/// Adds what is said of a token that cannot stand, or of the end of the tokens.
fn push_text(out: &mut Vec<u8>, why: Refusal, token: Option<&Token>) -> Result<(), AllocError> {
    match token {
        Some(token) => push_three(out, why.words(), token.text, b"'"),
        None => push_all(out, &[Refusal::EndOfFile.words()]),
    }
}

/// The place of a token, or the end of the source where there is none.
fn place_of(token: Option<&Token>, end: Pos) -> Pos {
    match token {
        Some(token) => token.pos,
        None => end,
    }
}

/// How many bytes a token has.
fn length_of(token: Option<&Token>) -> usize {
    match token {
        Some(token) => token.text.len(),
        None => 0,
    }
}

/// Adds the note on a fault.
fn push_fault(
    out: &mut Vec<u8>,
    sheet: Sheet,
    columns: &mut Columns,
    lexed: &Lexed,
    fault: Fault,
    advice: Advice,
) -> Result<(), AllocError> {
    let token = lexed.tokens.get(fault.at);
    let mut text = Vec::new(sheet.alloc);
    push_text(&mut text, fault.why, token)?;
    let said = Diagnostic {
        pos: place_of(token, lexed.eof),
        length: length_of(token),
        severity: Severity::Error,
        name: Name::Number(fault.why.number()),
        text: text.as_slice(),
        is_behind: fault.is_behind,
    };
    push_note(out, sheet, columns, said, advice)
}

/// What helps by a cure.
fn cure_advice<'a>(tokens: &[Token<'a>], at: usize, cure: Cure) -> Advice<'a> {
    Advice {
        help: Some(cure_help(tokens, at, cure)),
        also: None,
        edit: cure_edit(tokens, at, cure),
    }
}

/// What helps at a token that cannot stand: what is known of it, else the cure, else a semicolon that may be missing.
fn advice_at<'a>(
    alloc: Global,
    tokens: &[Token<'a>],
    at: usize,
    cure: Option<Cure>,
) -> Result<Advice<'a>, AllocError> {
    match (syntax_help(alloc, tokens, at)?, cure) {
        (Some(help), _) => Ok(Advice::of(Some(help))),
        (None, Some(cure)) => Ok(cure_advice(tokens, at, cure)),
        (None, None) => Ok(Advice::of(semicolon_help_at(tokens, at))),
    }
}

/// Whether enough tokens stand between a cure at a number and another number.
fn is_apart(cure: Cure, at: usize, next: usize) -> bool {
    next.saturating_sub(at).saturating_sub(put_count(cure)) >= BETWEEN
}

/// Whether a cure at a number is told.
fn is_told(cured: &Cured, at: usize) -> bool {
    match cured.reach {
        Reach::Whole => true,
        Reach::Unexpected(next) | Reach::TooDeep(next) => is_apart(cured.cure, at, next),
    }
}

/// The cure of a source at a number, if one is told.
fn cure_of(cured: &Option<Cured>, at: usize) -> Option<Cure> {
    match cured {
        Some(cured) if is_told(cured, at) => Some(cured.cure),
        _ => None,
    }
}

/// Adds the note on a token that is nested too deep.
fn push_deep(
    out: &mut Vec<u8>,
    sheet: Sheet,
    columns: &mut Columns,
    lexed: &Lexed,
    at: usize,
    is_behind: bool,
) -> Result<(), AllocError> {
    let fault = Fault {
        why: Refusal::TooDeep,
        at,
        is_behind,
    };
    push_fault(out, sheet, columns, lexed, fault, Advice::of(None))
}

/// Adds the note on the first token that cannot stand, and on at most so many that cannot once those in front of them are mended.
fn push_faults(
    out: &mut Vec<u8>,
    sheet: Sheet,
    columns: &mut Columns,
    lexed: &Lexed,
    at: usize,
    further: usize,
) -> Result<(), AllocError> {
    let fault = Fault {
        why: Refusal::Unexpected,
        at,
        is_behind: further < FURTHER,
    };
    let cured = cure_at(sheet.alloc, lexed, at)?;
    let advice = advice_at(
        sheet.alloc,
        lexed.tokens.as_slice(),
        at,
        cure_of(&cured, at),
    )?;
    push_fault(out, sheet, columns, lexed, fault, advice)?;
    match (&cured, further.checked_sub(1)) {
        (Some(cured), Some(further)) if is_told(cured, at) => match cured.reach {
            Reach::Whole => Ok(()),
            Reach::Unexpected(at) => push_faults(out, sheet, columns, &cured.lexed, at, further),
            Reach::TooDeep(at) => push_deep(out, sheet, columns, &cured.lexed, at, true),
        },
        _ => Ok(()),
    }
}

/// What is told of a source that is too long for cures.
fn untried<'a>() -> Help<'a> {
    Help::Counted(
        b"cures are tried, and further faults told, for sources of at most ",
        TRIED,
        b" bytes",
    )
}

/// Adds the note on the first token that cannot stand, where no cure is tried.
fn push_untried(
    out: &mut Vec<u8>,
    sheet: Sheet,
    columns: &mut Columns,
    lexed: &Lexed,
    at: usize,
) -> Result<(), AllocError> {
    let fault = Fault {
        why: Refusal::Unexpected,
        at,
        is_behind: false,
    };
    let mut advice = advice_at(sheet.alloc, lexed.tokens.as_slice(), at, None)?;
    advice.also = Some(untried());
    push_fault(out, sheet, columns, lexed, fault, advice)
}

/// Adds the notes on tokens that are no program, by the number of the first that cannot stand. Fails only where memory ends.
pub fn push_refused(
    out: &mut Vec<u8>,
    sheet: Sheet,
    lexed: &Lexed,
    at: usize,
) -> Result<(), AllocError> {
    let mut columns = Columns::new(sheet.text.source);
    if sheet.text.source.len() > TRIED {
        push_untried(out, sheet, &mut columns, lexed, at)
    } else {
        push_faults(out, sheet, &mut columns, lexed, at, FURTHER)
    }
}

/// Adds the note on tokens of which one is nested too deep, by its number. Fails only where memory ends.
pub fn push_too_deep(
    out: &mut Vec<u8>,
    sheet: Sheet,
    lexed: &Lexed,
    at: usize,
) -> Result<(), AllocError> {
    let mut columns = Columns::new(sheet.text.source);
    push_deep(out, sheet, &mut columns, lexed, at, false)
}
