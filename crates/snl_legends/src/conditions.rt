//! The texts of conditions, as they stand in a source: the names of constants, texts and units too that stand there in comments.

use indexmap::IndexMap;
use snl_text::{Kind, Token, lex};
use std::alloc::{AllocError, Global};

/// How many bytes of a condition are told at most,
const TOLD: usize = 40;
/// and of one with comments.
const COMMENTED: usize = 80;

/// The text of a condition.
#[derive(Drop)]
struct Text {
    bytes: Vec<u8>,
    /// Whether more than blanks stands between its tokens.
    has_comment: bool,
}

/// The texts of the conditions of a source.
#[derive(Drop)]
pub struct Conditions {
    /// By the offset of the word `when`.
    texts: IndexMap<usize, Text>,
}

/// A condition of which not all tokens came yet.
#[derive(Drop)]
struct Begun {
    /// The offset of its word `when`.
    word: usize,
    /// In how many parentheses the next token stands.
    depth: usize,
    /// Its text so far, of one byte more than is told at most.
    text: Text,
    /// Whether a blank stands behind it.
    is_parted: bool,
    /// Where the last token ended.
    end: usize,
}

/// Whether a byte is shown as a blank: one itself, a line end, or another byte that no terminal should get.
fn is_blank(byte: u8) -> bool {
    byte <= b' ' || byte == 127
}

impl Begun {
    /// The condition behind a word.
    fn new(alloc: Global, word: usize) -> Begun {
        Begun {
            word,
            depth: 0,
            text: Text {
                bytes: Vec::new(alloc),
                has_comment: false,
            },
            is_parted: false,
            end: 0,
        }
    }

    /// Takes the next token of a source; answers whether the condition ends there.
    fn take(&mut self, source: &[u8], token: Token) -> Result<bool, AllocError> {
        let is_inside = self.depth > 0;
        match token.kind {
            Kind::OpenParenthesis => self.depth = self.depth.saturating_add(1),
            Kind::CloseParenthesis => self.depth = self.depth.saturating_sub(1),
            _ => {}
        }
        if is_inside {
            self.add_between(source, token.pos.offset as usize)?;
        }
        if self.depth == 0 {
            return Ok(true);
        }
        if is_inside {
            self.add(token.text)?;
        }
        self.end = (token.pos.offset as usize).saturating_add(token.text.len());
        Ok(false)
    }

    /// Adds what stands between the last token and an offset, with one blank for blanks and line ends.
    fn add_between(&mut self, source: &[u8], offset: usize) -> Result<(), AllocError> {
        let Some(between) = source.get(self.end..offset) else {
            return Ok(());
        };
        for byte in between {
            if is_blank(*byte) {
                self.is_parted = true;
            } else {
                self.text.has_comment = true;
                self.add(&[*byte])?;
            }
        }
        Ok(())
    }

    /// Adds bytes, with the blank in front of them, as far as there is room.
    fn add(&mut self, bytes: &[u8]) -> Result<(), AllocError> {
        let text = &mut self.text.bytes;
        if self.is_parted && !text.is_empty() && text.len() <= COMMENTED {
            text.push(b' ')?;
        }
        self.is_parted = false;
        let room = (COMMENTED + 1).saturating_sub(text.len());
        let count = bytes.len().min(room);
        text.extend_from_slice(&bytes[..count])
    }

    /// The text that is told of the condition.
    fn told(self) -> Result<Text, AllocError> {
        let mut text = self.text;
        let most = if text.has_comment { COMMENTED } else { TOLD };
        if text.bytes.len() > most {
            text.bytes.truncate(most);
            text.bytes.extend_from_slice(b"..")?;
        }
        Ok(text)
    }
}

impl Conditions {
    /// No texts: nothing is told of any condition.
    pub fn none(alloc: Global) -> Conditions {
        Conditions {
            texts: IndexMap::new(alloc),
        }
    }

    /// The texts of the conditions among the tokens of a source. The only error is that memory ends.
    pub fn of(alloc: Global, source: &[u8], tokens: &[Token]) -> Result<Conditions, AllocError> {
        let mut texts = IndexMap::new(alloc);
        let mut begun: Option<Begun> = None;
        for token in tokens {
            begun = match begun {
                Some(condition) => after(condition, source, *token, &mut texts)?,
                None if matches!(token.kind, Kind::When) => {
                    Some(Begun::new(alloc, token.pos.offset as usize))
                }
                None => None,
            };
        }
        Ok(Conditions { texts })
    }

    /// The texts of the conditions of a source that can be read. The only error is that memory ends.
    pub fn in_source(alloc: Global, source: &[u8]) -> Result<Conditions, AllocError> {
        match lex(alloc, source) {
            Ok(lexed) => Conditions::of(alloc, source, lexed.tokens.as_slice()),
            Err(_) => Err(AllocError),
        }
    }

    /// The text of the condition of the clause whose word `when` stands at an offset: with its comments, one blank where the source
    /// has any, and `..` behind its first 40 bytes, or 80 where it has comments. Empty where it has none.
    pub fn text(&self, word: usize) -> &[u8] {
        match self.texts.get(&word) {
            Some(text) => text.bytes.as_slice(),
            None => b"",
        }
    }

    /// The same of a condition with comments; empty of another one.
    pub fn commented(&self, word: usize) -> &[u8] {
        match self.texts.get(&word) {
            Some(text) if text.has_comment => text.bytes.as_slice(),
            _ => b"",
        }
    }
}

/// A condition behind one more token of a source; None where it ends there, and then its text is kept.
fn after(
    condition: Begun,
    source: &[u8],
    token: Token,
    texts: &mut IndexMap<usize, Text>,
) -> Result<Option<Begun>, AllocError> {
    let mut condition = condition;
    if !condition.take(source, token)? {
        return Ok(Some(condition));
    }
    let word = condition.word;
    let text = condition.told()?;
    texts.insert(word, text)?;
    Ok(None)
}
