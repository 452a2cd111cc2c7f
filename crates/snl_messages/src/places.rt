//! Where a rule's message stands at a site, and what it quotes.

ghost use Rattle.std.specs.Prelude.{◌≡◌, IfOk};
ghost use Rattle.snl_messages.specs.Findings as spec;

use snl_resolve::Site;
use snl_rules::Rule;
use snl_text::{Pos, Token};
use std::alloc::{AllocError, Global};

/// The token at which the messages of a site stand, but for some limits.
fn token_of<'a>(site: Site<'a>) -> Token<'a>
    ensures { result ≡ spec.token_of site.entry }
{
    match site {
        Site::Declaration { name, .. }
        | Site::Declarator { name, .. }
        | Site::Defined { name, .. }
        | Site::Setting { name, .. }
        | Site::Use { name, .. }
        | Site::Call { name, .. }
        | Site::Function { name, .. }
        | Site::Target { name, .. }
        | Site::State { name, .. }
        | Site::StateSet { name, .. } => name,
        Site::Typed { word, .. }
        | Site::LoopExit { word, .. }
        | Site::StateChange { word, .. }
        | Site::Return { word, .. }
        | Site::Clause { word, .. } => word,
        Site::QueueSize { number, .. } | Site::Decimal { number, .. } => number,
        Site::Format { text, .. } => text,
        Site::Change { operator, .. } => operator,
    }
}

/// Where the word stands with which a definition, a state or a state set begins.
fn word_place(site: Site) -> Pos
    ensures { result ≡ spec.word_place site.entry }
{
    match site {
        Site::Defined { word, .. } => word,
        Site::State { word, .. } | Site::StateSet { word, .. } => word.pos,
        _ => token_of(site).pos,
    }
}

/// Where a rule's message stands at a site.
pub fn marked_place(rule: Rule, site: Site) -> Pos
    ensures { result ≡ spec.marked_place rule site.entry }
{
    match rule {
        Rule::TooManySets | Rule::TooManyStates | Rule::TooManyChannels => word_place(site),
        _ => token_of(site).pos,
    }
}

/// The words of a type, with one space between them.
fn words_of(alloc: Global, word: Token, second: Option<Token>) -> Result<Vec<u8>, AllocError>
    ensures { IfOk result (λ text. text.items ≡ spec.words_of word.entry second.entry) }
{
    let mut text = Vec::from_slice(alloc, word.text)?;
    if let Some(second) = second {
        text.push(b' ')?;
        text.extend_from_slice(second.text)?;
    }
    Ok(text)
}

/// A sign, and the letter that is refused.
fn letter_of(alloc: Global, sign: Token, refused: Option<u8>) -> Result<Vec<u8>, AllocError>
    ensures { IfOk result (λ text. text.items ≡ spec.letter_of sign.entry refused) }
{
    let mut text = Vec::from_slice(alloc, sign.text)?;
    if let Some(letter) = refused {
        text.push(letter)?;
    }
    Ok(text)
}

/// What a message at a site quotes. Fails only where memory ends.
pub fn quote_of(alloc: Global, site: Site) -> Result<Vec<u8>, AllocError>
    ensures { IfOk result (λ text. text.items ≡ spec.quote_of site.entry) }
{
    match site {
        Site::Typed { word, second, .. } => words_of(alloc, word, second),
        Site::Setting { sign, refused, .. } => letter_of(alloc, sign, refused),
        _ => Vec::from_slice(alloc, token_of(site).text),
    }
}
