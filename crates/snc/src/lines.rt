//! The text of messages: a line for each.

ghost use Rattle.std.specs.Prelude.{◌≡◌, [], ◌∷◌, ◌++◌, map, OnOk, codes, decimal};
ghost use Rattle.std.specs.List.{concat};
ghost use Rattle.snl_messages.specs.Messages.{said};
ghost use Rattle.snc.specs.Texts.{file_name, head_of, line_of, messages_text};

use itoa::Buffer;
use snl_check::{Message, Severity};
use snl_text::Pos;
use std::alloc::AllocError;

/// What the files are called that places speak of: the one that was read, and those of the markers.
#[derive(Clone, Copy)]
pub struct Names<'n, 'a> {
    pub read: &'n [u8],
    pub marked: &'n [&'a [u8]],
}

/// What a file is called.
fn file_name<'n>(names: Names<'n, 'n>, file: usize) -> &'n [u8]
    ensures { result.now ≡ file_name names.entry.read.now (map
        (λ name. name.now) names.entry.marked.now) file }
{
    if file == 0 {
        return names.read;
    }
    match names.marked.get(file - 1) {
        Some(name) => name,
        None => names.read,
    }
}

/// What stands between the line and the number: an error's number has two digits.
fn head(severity: Severity, number: u8) -> &'static [u8]
    ensures { result.now ≡ head_of severity number }
{
    match severity {
        Severity::Error => {
            if number < 10 {
                b": error: E0"
            } else {
                b": error: E"
            }
        }
        Severity::Warning => b": warning: W",
    }
}

/// Adds pieces, one behind the other.
fn push_all(out: &mut Vec<u8>, pieces: &[&[u8]]) -> Result<(), AllocError>
    ensures { OnOk result (out.new.items
        ≡ out.old.items ++ concat (map (λ piece. piece.now) pieces.now)) }
{
    for piece in pieces {
        out.extend_from_slice(piece)?;
    }
    Ok(())
}

/// Adds `FILE:LINE: error: E13 TEXT`, where the file is called so.
fn push_named<'t>(
    out: &mut Vec<u8>,
    file: &'t [u8],
    line: usize,
    head: &'t [u8],
    number: u8,
    text: &'t [u8],
) -> Result<(), AllocError>
    ensures { OnOk result (out.new.items ≡ out.old.items
        ++ concat (file.now ∷ codes ":" ∷ decimal line ∷ head.now ∷ decimal number ∷ codes " " ∷ text.now ∷ codes "\n" ∷ [])) }
{
    let mut line_digits = Buffer::new();
    let mut number_digits = Buffer::new();
    let line = line_digits.format(line).as_bytes();
    let number = number_digits.format(number).as_bytes();
    push_all(out, &[file, b":", line, head, number, b" ", text, b"\n"])?;
    Ok(())
}

/// Adds the line of a message. Fails only where memory ends.
pub fn push_line(
    out: &mut Vec<u8>,
    names: Names,
    pos: Pos,
    severity: Severity,
    number: u8,
    text: &[u8],
) -> Result<(), AllocError>
    ensures { OnOk result (out.new.items ≡ out.old.items
        ++ line_of names.entry.read.now (map (λ name. name.now) names.entry.marked.now)
        (record { pos = pos; severity = severity; number = number; text = text.now })) }
{
    let file = file_name(names, pos.file as usize);
    push_named(
        out,
        file,
        pos.line as usize,
        head(severity, number),
        number,
        text,
    )?;
    Ok(())
}

/// Adds the lines of messages. Fails only where memory ends.
pub fn push_lines(out: &mut Vec<u8>, names: Names, messages: &[Message]) -> Result<(), AllocError>
    ensures { OnOk result (out.new.items ≡ out.old.items
        ++ messages_text names.entry.read.now (map (λ name. name.now) names.entry.marked.now)
        (map said messages.now)) }
{
    for message in messages {
        let text = message.text.as_slice();
        push_line(
            out,
            names,
            message.pos,
            message.severity,
            message.number,
            text,
        )?;
    }
    Ok(())
}
