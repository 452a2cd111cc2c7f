//! `Source`: where a trace comes from.

use thiserror::Error;

/// A source could not be read.
#[derive(Clone, Copy, Debug, PartialEq, Eq, Error)]
#[error("the trace can't be read")]
pub struct SourceFault;

/// Where a trace comes from.
///
/// A source tells the bytes that it gave up to now, fewer than 2^63, and of its last read whether that said that no more come, and
/// whether it failed. It counts its failures.
pub trait Source {
    ghost use Rattle.std.specs.Prelude.{◌≡◌, ◌+◌, ◌-◌, ◌++◌, ◌^◌, ◌<◌, ◌≤◌, ℕ, Bool, List, IfOk, length, is_err};
    ghost use Rattle.snl_output.specs.Devices.{counted};
    ghost use Rattle.snl_output.specs.Sources.{given, says_end};

    ghost gave: { Self → List ℕ };

    ghost ended: { Self → Bool };

    ghost broke: { Self → Bool };

    ghost failures: { Self → ℕ };

    /// Fills the front of a room with the next bytes, and answers how many. None of them, for a room
    /// that is not empty, is the end; a read that fails gives none.
    fn read(&mut self, room: &mut [u8]) -> Result<usize, SourceFault>
        requires { failures self.old < 2 ^ 64 - 1 }
        ensures count { IfOk result (λ n. n ≤ length room.old) }
        ensures gave { gave self.new ≡ gave self.old ++ given result room.new }
        ensures ended { ended self.new ≡ says_end result (length room.old) }
        ensures broke { broke self.new ≡ is_err result }
        ensures short { length (gave self.new) < 2 ^ 63 }
        ensures failures { failures self.new ≡ counted (is_err result) (failures self.old) };
}
