//! Code that is made from its end: the last instruction comes first.

ghost use Rattle.std.specs.Prelude.{◌≡◌, ◌∷◌, reverse, OnOk};

use snl_meaning::Instr;
use std::alloc::AllocError;

/// Puts an instruction before the code that was made. The only error is that memory ends.
pub fn put(code: &mut Vec<Instr>, instr: Instr) -> Result<(), AllocError>
    ensures { OnOk result (reverse code.new.items ≡ instr ∷ reverse code.old.items) }
{
    code.push(instr)?;
    Ok(())
}
