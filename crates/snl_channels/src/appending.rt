//! Texts that are appended piece by piece.

ghost use Rattle.std.specs.Prelude.{◌≡◌, ◌++◌, map, OnOk, OnErr};
ghost use Rattle.snl_channels.specs.Appended.{Begun};
ghost use Rattle.snl_channels.specs.Tables.{joined};

use std::alloc::AllocError;

/// Appends a piece, all of it or nothing.
fn put_piece(piece: &[u8], out: &mut Vec<u8>) -> Result<(), AllocError>
    ensures whole { OnOk result (out.new.items ≡ out.old.items ++ piece.now) }
    ensures begun { OnErr result (Begun out.old.items out.new.items piece.now) }
{
    out.extend_from_slice(piece)
}

/// Appends pieces, one after the other. Where memory ends, a beginning of them was appended.
pub fn put_pieces(pieces: &[&[u8]], out: &mut Vec<u8>) -> Result<(), AllocError>
    ensures whole { OnOk result (out.new.items
        ≡ out.old.items ++ joined (map (λ p. p.now) pieces.now)) }
    ensures begun { OnErr result (Begun out.old.items out.new.items
        (joined (map (λ p. p.now) pieces.now))) }
{
    for piece in pieces {
        put_piece(piece, out)?;
    }
    Ok(())
}
