//! The comments with which a trace begins.

ghost use Rattle.std.specs.Prelude.{◌≡◌, ◌++◌, true, OnOk, OnErr};
ghost use Rattle.std.specs.Bool.{OnTrue};
ghost use Rattle.std.specs.List.{list_all};
ghost use Rattle.snl_import.specs.Comments as spec;

use std::alloc::{AllocError, Global};

/// The most bytes of a line, without its newline.
const LINE_LIMIT: usize = 32_768;

/// Whether no byte of a text is a newline.
fn is_one_line(line: &[u8]) -> bool
    ensures { result ≡ list_all spec.is_within line.now }
{
    line.iter().all(|byte| *byte != b'\n')
}

/// Whether a line without a newline is a comment.
fn is_comment(line: &[u8]) -> bool
    ensures comment { OnTrue result (spec.is_comment line.now ≡ true) }
    ensures within { OnTrue result (list_all spec.is_within line.now ≡ true) }
{
    match line {
        [b'#', ..] => line.len() <= LINE_LIMIT && is_one_line(line),
        _ => false,
    }
}

/// A digit to the base of 16.
pub fn hexadecimal(digit: u8) -> u8 {
    match b"0123456789abcdef".get(usize::from(digit)) {
        Some(byte) => *byte,
        None => b'?',
    }
}

/// Adds words, with `\xNN` in the place of each byte that is no printable ASCII character.
fn push_printed(line: &mut Vec<u8>, words: &[u8]) -> Result<(), AllocError> {
    for byte in words {
        if 32 <= *byte && *byte <= 126 {
            line.push(*byte)?;
        } else {
            line.extend_from_slice(b"\\x")?;
            line.push(hexadecimal(*byte >> 4))?;
            line.push(hexadecimal(*byte & 15))?;
        }
    }
    Ok(())
}

/// Words as a comment, without its newline.
fn comment_of(alloc: Global, words: &[&[u8]]) -> Result<Vec<u8>, AllocError> {
    let mut line = Vec::from_slice(alloc, b"#")?;
    for word in words {
        line.push(b' ')?;
        push_printed(&mut line, word)?;
    }
    Ok(line)
}

/// Adds a line. The only error is that memory ends: then nothing is added.
fn append(text: &mut Vec<u8>, line: &[u8]) -> Result<(), AllocError>
    ensures ok { OnOk result (text.new.items ≡ text.old.items ++ line.now) }
    ensures err { OnErr result (text.new.items ≡ text.old.items) }
{
    text.extend_from_slice(line)
}

/// The comments with which a trace begins: lines that a run skips.
#[derive(Drop)]
pub struct Preface {
    alloc: Global,
    text: Vec<u8>,
    ghost comments: { spec.AreComments text.items },
}

impl Preface {
    /// None.
    pub fn new(alloc: Global) -> Preface {
        Preface {
            alloc,
            text: Vec::new(alloc),
        }
    }

    /// Adds a comment of some words, unless it is longer than a line of a trace can be. The only error is that memory ends: then none is
    /// added.
    pub fn add(&mut self, words: &[&[u8]]) -> Result<(), AllocError> {
        let mut line = comment_of(self.alloc, words)?;
        if !is_comment(line.as_slice()) {
            return Ok(());
        }
        line.push(b'\n')?;
        append(&mut self.text, line.as_slice())?;
        Ok(())
    }

    /// The comments, each with its newline.
    pub fn text(&self) -> &[u8]
        ensures { spec.AreComments result.now }
    {
        self.text.as_slice()
    }
}
