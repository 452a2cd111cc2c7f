//! What the rules say of a source.

ghost use Rattle.std.specs.Prelude.{◌≡◌, ◌<◌, [], ◌∷◌, ◌++◌, map, take, length, codes, IfOk, IfSome, Some, slice_get};
ghost use Rattle.std.specs.Option.{option_map};
ghost use Rattle.snl_syntax.specs.view.Programs.{program_view};
ghost use Rattle.snl_messages.specs.Silence.{options_in_force};
ghost use Rattle.snl_messages.specs.Refusals.{refusal_number};
ghost use Rattle.snc.specs.Judging.{IsJudged, error_at, nesting_error, syntax_error, token_error};
ghost use Rattle.snc.specs.Texts.{messages_text};
ghost use Rattle.snc.specs.ReportSteps.{AreNamesOf, AreTokensTold, IsFaultTold, IsTreeTold};

use crate::lines::{Names, push_line, push_lines};
use snl_check::{Checked, Options, Outcome, Severity, check};
use snl_messages::Refusal;
use snl_syntax::Program;
use snl_text::{LexFault, Lexed, Pos, Token, lex};
use snl_tree::{ParseFault, parse};
use std::alloc::{AllocError, Global};

/// What the rules say of a source.
#[derive(Drop)]
pub struct Judgement<'a> {
    /// A line for each message, in the order of the source.
    pub messages: Vec<u8>,
    /// The program, if no message is an error. It is in a box since what owns a tree by value is dear to prove.
    pub checked: Option<Box<Checked<'a>>>,
}

/// Reads and checks a source, whose file is called by a word, under the options of a call. A lexical fault has its one
/// message alone, and so has a syntax fault.
///
/// Fails only where memory ran out.
pub fn judged<'a>(
    alloc: Global,
    file: &[u8],
    source: &'a [u8],
    given: Options,
) -> Result<Judgement<'a>, AllocError>
    ensures judged { IfOk result (λ f. IsJudged given file.now source.now f.messages.items
        (option_map (λ c. program_view c.value.program) f.checked)) }
    ensures options { IfOk result (λ f. IfSome f.checked (λ c. c.value.options
        ≡ options_in_force (program_view c.value.program) given)) }
{
    match lex(alloc, source) {
        Ok(lexed) => {
            let found = tokens_judged(alloc, &lexed, file, given)?;
            Ok(found)
        }
        Err(fault) => {
            let messages = fault_messages(alloc, source, fault, file)?;
            Ok(refused(messages))
        }
    }
}

/// What is said of a source that is refused as a whole.
fn refused<'a>(messages: Vec<u8>) -> Judgement<'a>
    ensures messages { result.messages ≡ messages }
    ensures none { result.checked ≡ None }
{
    Judgement {
        messages,
        checked: None,
    }
}

/// The one message of a source that is no list of tokens.
fn fault_messages(
    alloc: Global,
    source: &[u8],
    fault: LexFault,
    file: &[u8],
) -> Result<Vec<u8>, AllocError>
    ensures { IfOk result (λ messages. IsFaultTold file.now source.now fault messages.items) }
{
    let (Some(text), Some(pos)) = (fault.text(), fault.pos()) else {
        return Err(AllocError);
    };
    let marked = marked_names(alloc, front(source, pos.offset as usize))?;
    let names = Names {
        read: file,
        marked: marked.as_slice(),
    };
    let messages = error_alone(alloc, names, pos, Refusal::NoTokens, text.as_bytes())?;
    Ok(messages)
}

/// At most so many of the first bytes.
fn front(source: &[u8], count: usize) -> &[u8]
    ensures { result.now ≡ take count source.now }
{
    if count < source.len() {
        &source[..count]
    } else {
        source
    }
}

/// The names that the markers of a text give to files; none where it can't be cut into tokens.
fn marked_names<'a>(alloc: Global, text: &'a [u8]) -> Result<Vec<&'a [u8]>, AllocError>
    ensures { IfOk result (λ names. AreNamesOf text.now (map (λ name. name.now) names.items)) }
{
    match lex(alloc, text) {
        Ok(lexed) => Ok(lexed.files),
        Err(LexFault::Memory) => Err(AllocError),
        Err(_) => Ok(Vec::new(alloc)),
    }
}

/// Parses and checks a source that was cut into tokens.
fn tokens_judged<'a>(
    alloc: Global,
    lexed: &Lexed<'a>,
    file: &[u8],
    given: Options,
) -> Result<Judgement<'a>, AllocError>
    ensures told { IfOk result (λ f. AreTokensTold given file.now lexed.now f.messages.items
        (option_map (λ c. program_view c.value.program) f.checked)) }
    ensures options { IfOk result (λ f. IfSome f.checked (λ c. c.value.options
        ≡ options_in_force (program_view c.value.program) given)) }
{
    let names = Names {
        read: file,
        marked: lexed.files.as_slice(),
    };
    match parse(alloc, lexed) {
        Ok(program) => {
            let found = tree_judged(alloc, names, program, given)?;
            Ok(found)
        }
        Err(ParseFault::Memory) => Err(AllocError),
        Err(ParseFault::Unexpected(k)) => {
            let messages = syntax_messages(alloc, lexed, k, names)?;
            Ok(refused(messages))
        }
        Err(ParseFault::TooDeep(k)) => {
            let token = token_of(lexed.tokens.as_slice(), k);
            let messages = token_messages(alloc, token, names, Refusal::TooDeep)?;
            Ok(refused(messages))
        }
    }
}

/// All messages of a program.
fn tree_judged<'a>(
    alloc: Global,
    names: Names<'_, 'a>,
    program: Program<'a>,
    given: Options,
) -> Result<Judgement<'a>, AllocError>
    ensures told { IfOk result (λ f. IsTreeTold given names.entry.read.now
        (map (λ name. name.now) names.entry.marked.now) (program_view program.entry)
        program.entry.embedded.items program.entry.beyond f.messages.items
        (option_map (λ c. program_view c.value.program) f.checked)) }
    ensures options { IfOk result (λ f. IfSome f.checked (λ c. c.value.options
        ≡ options_in_force (program_view c.value.program) given)) }
{
    let Outcome {
        messages: said,
        checked,
    } = check(alloc, program, given)?;
    let checked = boxed(alloc, checked)?;
    let mut messages = Vec::new(alloc);
    push_lines(&mut messages, names, said.as_slice())?;
    Ok(Judgement { messages, checked })
}

/// What is there, in a box.
fn boxed<T: Drop>(alloc: Global, value: Option<T>) -> Result<Option<Box<T>>, AllocError>
    ensures { IfOk result (λ held. option_map (λ b. b.value) held ≡ value) }
{
    match value {
        Some(value) => {
            let held = Box::new(alloc, value)?;
            Ok(Some(held))
        }
        None => Ok(None),
    }
}

/// The one message of tokens that are no program, at the first that can't stand where it does.
fn syntax_messages(
    alloc: Global,
    lexed: &Lexed,
    k: usize,
    names: Names,
) -> Result<Vec<u8>, AllocError>
    ensures { IfOk result (λ messages. messages.items
        ≡ messages_text names.entry.read.now (map (λ name. name.now) names.entry.marked.now)
        (syntax_error lexed.now (slice_get lexed.now.tokens.items k) ∷ [])) }
{
    match token_at(lexed, k) {
        Some(token) => {
            let messages = token_messages(alloc, token, names, Refusal::Unexpected)?;
            Ok(messages)
        }
        None => {
            let end = Refusal::EndOfFile;
            let messages = error_alone(alloc, names, lexed.eof, end, end.words())?;
            Ok(messages)
        }
    }
}

/// An error that quotes its token, as the one message of its source.
fn token_messages(
    alloc: Global,
    token: Token,
    names: Names,
    why: Refusal,
) -> Result<Vec<u8>, AllocError>
    ensures { IfOk result (λ messages. messages.items
        ≡ messages_text names.entry.read.now (map (λ name. name.now) names.entry.marked.now)
        (token_error why token.entry ∷ [])) }
{
    let text = words_at(alloc, why.words(), token.text)?;
    let messages = error_alone(alloc, names, token.pos, why, text.as_slice())?;
    Ok(messages)
}

/// A token by its number, of which there are more.
fn token_of<'a>(tokens: &[Token<'a>], k: usize) -> Token<'a>
    requires { k < length tokens.now }
    ensures { slice_get tokens.now k ≡ Some result }
{
    tokens[k]
}

/// A token by its number; None where there are no more than that.
fn token_at<'a>(lexed: &Lexed<'a>, k: usize) -> Option<Token<'a>>
    ensures { result ≡ slice_get lexed.now.tokens.items k }
{
    lexed.tokens.get(k).copied()
}

/// Words, with a token and a quote after them.
fn words_at(alloc: Global, words: &[u8], token: &[u8]) -> Result<Vec<u8>, AllocError>
    ensures { IfOk result (λ text. text.items ≡ words.now ++ (token.now ++ codes "'")) }
{
    let mut text = Vec::from_slice(alloc, words)?;
    text.extend_from_slice(token)?;
    text.push(b'\'')?;
    Ok(text)
}

/// An error that is the one message of its source.
fn error_alone(
    alloc: Global,
    names: Names,
    pos: Pos,
    why: Refusal,
    text: &[u8],
) -> Result<Vec<u8>, AllocError>
    ensures { IfOk result (λ messages. messages.items
        ≡ messages_text names.entry.read.now (map (λ name. name.now) names.entry.marked.now)
        (error_at pos (refusal_number why) text.now ∷ [])) }
{
    let mut messages = Vec::new(alloc);
    push_line(
        &mut messages,
        names,
        pos,
        Severity::Error,
        why.number(),
        text,
    )?;
    Ok(messages)
}
