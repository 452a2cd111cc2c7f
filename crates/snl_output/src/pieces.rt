//! Text that is put together of pieces.

ghost use Rattle.std.specs.Prelude.{◌≡◌, ◌++◌, ◌∷◌, [], decimal, map, OnOk};
ghost use Rattle.snl_output.specs.Lines.{joined, plural, space};

use itoa::Buffer;
use std::alloc::AllocError;

/// Adds pieces, one behind the other. The only error is that memory ends; what was added up to then stands.
pub fn push_all(out: &mut Vec<u8>, pieces: &[&[u8]]) -> Result<(), AllocError>
    ensures { OnOk result (out.new.items ≡ out.old.items
        ++ joined (map (λ piece. piece.now) pieces.now)) }
{
    for piece in pieces {
        out.extend_from_slice(piece)?;
    }
    Ok(())
}

/// Adds a number between two texts. The only error is that memory ends; what was added up to then stands.
pub fn push_told<'t>(
    out: &mut Vec<u8>,
    front: &'t [u8],
    number: u64,
    behind: &'t [u8],
) -> Result<(), AllocError>
    ensures { OnOk result (out.new.items ≡ out.old.items
        ++ joined (front.now ∷ decimal number ∷ behind.now ∷ [])) }
{
    let mut digits = Buffer::new();
    push_all(out, &[front, digits.format(number).as_bytes(), behind])
}

/// Adds a text, a count and what it counts: `, 1 line`, `, 2 lines`. The only error is that memory ends; what was added up to
/// then stands.
pub fn push_counted<'t>(
    out: &mut Vec<u8>,
    front: &'t [u8],
    count: u64,
    what: &'t [u8],
) -> Result<(), AllocError>
    ensures { OnOk result (out.new.items ≡ out.old.items
        ++ joined (front.now ∷ decimal count ∷ space ∷ what.now ∷ plural count ∷ [])) }
{
    let plural: &[u8] = if count == 1 { b"" } else { b"s" };
    let mut digits = Buffer::new();
    let number = digits.format(count).as_bytes();
    push_all(out, &[front, number, b" ", what, plural])
}
