//! The code of a checked program.

ghost use Rattle.std.specs.Prelude.{◌≤◌, length, IfOk};
ghost use Rattle.snl_syntax.specs.view.Programs.{program_view};
ghost use Rattle.snl_flat.specs.Inside.{IsInside};
ghost use Rattle.snl_flat.specs.Pieces.{IsCodeOf};
ghost use Rattle.snl_flat.specs.Size.{program_size};
ghost use Rattle.snl_flat.specs.Starts.{holds_in, table_of};

use snl_check::Checked;
use snl_flat::{Code, compile_by, copies_of};
use snl_meaning::Sites;
use std::alloc::{AllocError, Global};

/// The code of a checked program. A state that cannot be reached has no code. There are at most as many instructions as the
/// size of the program says: 2 for each constant expression that does not fault, 8 for each other part, and nothing for such
/// a state.
///
/// Fails only where memory ends.
pub fn compile(alloc: Global, checked: &Checked) -> Result<Code, AllocError>
    ensures is { IfOk result (IsCodeOf (program_view checked.now.program)) }
    ensures inside { IfOk result (IsInside (program_view checked.now.program)) }
    ensures short { IfOk result (λ code. length code.instrs.items
        ≤ program_size (holds_in (table_of code)) (program_view checked.now.program)) }
{
    let program = checked.program();
    let sites = Sites::of(alloc, checked.sites(), checked.uses())?;
    let copies = copies_of(alloc, program)?;
    compile_by(
        alloc,
        program,
        &sites,
        copies.places.as_slice(),
        &copies.bodies,
    )
}
