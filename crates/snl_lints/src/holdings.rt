//! What variables can hold, which go by the offsets of their declarations.

ghost use Rattle.std.specs.Prelude.{◌≡◌, ℕ, None, nat_eq, OnOk};
ghost use Rattle.std.specs.HashMap.{get};
ghost use Rattle.std.specs.Option.{option_or};
ghost use Rattle.snl_lints.specs.Facts as spec;

use crate::touches::{Touch, ValueDomain};
use indexmap::IndexMap;
use std::alloc::AllocError;

/// Notes what a touch tells that a variable can hold, if it does.
fn note_held(table: &mut IndexMap<usize, ValueDomain>, touch: &Touch) -> Result<(), AllocError>
    ensures { OnOk result ((v : ℕ) → get nat_eq table.new v
        ≡ option_or (spec.held_by touch.now v) (get nat_eq table.old v)) }
{
    if let Touch::Holds(name, held) = touch {
        table.insert(name.pos.offset as usize, *held)?;
    }
    Ok(())
}

/// Notes what each variable can hold. Fails only where memory ends.
pub fn note_held_by(
    table: &mut IndexMap<usize, ValueDomain>,
    touches: &[Touch],
) -> Result<(), AllocError>
    requires { (v : ℕ) → get nat_eq table.old v ≡ None }
    ensures { OnOk result ((v : ℕ) → get nat_eq table.new v ≡ spec.held_in touches.now v) }
{
    for touch in touches {
        note_held(table, touch)?;
    }
    Ok(())
}
