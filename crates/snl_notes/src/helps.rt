//! A line of help, in pieces.

ghost use Rattle.std.specs.Prelude.{◌≡◌, [], ◌∷◌, ◌++◌, map, OnOk, codes, decimal};
ghost use Rattle.std.specs.List.{concat};
ghost use Rattle.snl_notes.specs.Helps as spec;

use itoa::Buffer;
use std::alloc::AllocError;

/// What helps at a message.
#[derive(Clone, Copy)]
pub enum Help<'a> {
    /// Words that are always the same.
    Words(&'static [u8]),
    /// Words round something that stands in the source.
    Named(&'static [u8], &'a [u8], &'static [u8]),
    /// Words round a number.
    Counted(&'static [u8], usize, &'static [u8]),
    /// Words round two numbers.
    Compared(&'static [u8], usize, &'static [u8], usize, &'static [u8]),
    /// Words round something that is put, and a number.
    Placed(&'static [u8], &'static [u8], &'static [u8], usize, &'static [u8]),
}

/// Adds pieces, one behind the other. Fails only where memory ends.
pub fn push_all(out: &mut Vec<u8>, pieces: &[&[u8]]) -> Result<(), AllocError>
    ensures { OnOk result (out.new.items
        ≡ out.old.items ++ concat (map (λ piece. piece.now) pieces.now)) }
{
    for piece in pieces {
        out.extend_from_slice(piece)?;
    }
    Ok(())
}

/// Adds words round a number.
fn push_counted<'t>(
    out: &mut Vec<u8>,
    front: &'t [u8],
    number: usize,
    back: &'t [u8],
) -> Result<(), AllocError>
    ensures { OnOk result (out.new.items ≡ out.old.items
        ++ concat (front.now ∷ decimal number ∷ back.now ∷ [])) }
{
    let mut digits = Buffer::new();
    let digits = digits.format(number).as_bytes();
    push_all(out, &[front, digits, back])?;
    Ok(())
}

/// Adds three pieces. Fails only where memory ends.
pub fn push_three<'t>(
    out: &mut Vec<u8>,
    front: &'t [u8],
    name: &'t [u8],
    back: &'t [u8],
) -> Result<(), AllocError>
    ensures { OnOk result (out.new.items ≡ out.old.items
        ++ concat (front.now ∷ name.now ∷ back.now ∷ [])) }
{
    push_all(out, &[front, name, back])
}

/// Adds the words of a help. Fails only where memory ends.
pub fn push_words<'a>(out: &mut Vec<u8>, help: Help<'a>) -> Result<(), AllocError>
    ensures { OnOk result (out.new.items ≡ out.old.items ++ spec.words_of help.entry) }
{
    match help {
        Help::Words(words) => push_all(out, &[words]),
        Help::Named(front, name, back) => push_three(out, front, name, back),
        Help::Counted(front, number, back) => push_counted(out, front, number, back),
        Help::Compared(front, one, middle, other, back) => {
            push_counted(out, front, one, middle)?;
            push_counted(out, b"", other, back)
        }
        Help::Placed(front, name, middle, number, back) => {
            push_all(out, &[front, name])?;
            push_counted(out, middle, number, back)
        }
    }
}

/// Adds a line of help. Fails only where memory ends.
pub fn push_help(out: &mut Vec<u8>, help: Help) -> Result<(), AllocError>
    ensures { OnOk result (out.new.items ≡ out.old.items ++ spec.line_of help.entry) }
{
    push_all(out, &[b"  = help: "])?;
    push_words(out, help)?;
    push_all(out, &[b"\n"])
}
