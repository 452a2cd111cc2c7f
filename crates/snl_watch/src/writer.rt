//! Text that goes to a sink whole.

ghost use Rattle.std.specs.Prelude.{◌≡◌, ◌<◌, ◌-◌, ◌^◌, is_err, map};
ghost use Rattle.snl_output.specs.Devices.{counted, Wrote};
ghost use Rattle.snl_output.specs.Lines.{joined};

use snl_output::{Line, Sink, SinkFault};

/// Hands pieces to a sink, one behind the other, until it has taken all of them.
pub(crate) fn write_pieces<S: Sink>(sink: &mut S, pieces: &[&[u8]]) -> Result<(), SinkFault>
    requires { S.failures sink.old < 2 ^ 64 - 1 }
    ensures told { Wrote result (joined (map (λ piece. piece.now) pieces.now)) (S.told sink.old)
        (S.told sink.new) }
    ensures failures { S.failures sink.new ≡ counted (is_err result) (S.failures sink.old) }
{
    let mut line = Line::new();
    line.add_all(pieces, sink)?;
    line.send(sink)
}

/// Hands a piece to a sink: in one step, where that holds all of it.
#[inline(always)]
pub(crate) fn write_held<S: Sink>(sink: &mut S, piece: &[u8]) -> Result<(), SinkFault>
    requires { S.failures sink.old < 2 ^ 64 - 1 }
    ensures told { Wrote result piece.now (S.told sink.old) (S.told sink.new) }
    ensures failures { S.failures sink.new ≡ counted (is_err result) (S.failures sink.old) }
{
    if sink.hold(piece) {
        return Ok(());
    }
    write_whole(sink, piece)
}

/// Hands a piece to a sink until it has taken all of it, however few bytes it takes a call.
#[inline(never)]
fn write_whole<S: Sink>(sink: &mut S, piece: &[u8]) -> Result<(), SinkFault>
    requires { S.failures sink.old < 2 ^ 64 - 1 }
    ensures told { Wrote result piece.now (S.told sink.old) (S.told sink.new) }
    ensures failures { S.failures sink.new ≡ counted (is_err result) (S.failures sink.old) }
{
    let mut written = 0;
    while written < piece.len() {
        let taken = sink.write(&piece[written..])?;
        if taken == 0 {
            return Err(SinkFault);
        }
        written += taken;
    }
    Ok(())
}
