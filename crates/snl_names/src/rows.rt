//! Rows that grow. The only error is that memory ends.

ghost use Rattle.std.specs.Prelude.{◌≡◌, ◌∷◌, ◌++◌, [], OnOk};

use std::alloc::AllocError;

/// Makes room for one more thing. A row that is full gets room for a quarter more: the row of sites is the longest of a check, and
/// twice its room would lie idle.
fn with_room<T: Drop>(row: &mut Vec<T>) -> Result<(), AllocError>
    ensures { row.new.items ≡ row.old.items }
{
    if row.len() == row.capacity() {
        row.reserve_exact(row.len() / 4 + 16)?;
    }
    Ok(())
}

/// Puts a thing at the end of a row. Fails only where memory ends.
pub fn pushed<T: Drop>(row: &mut Vec<T>, thing: T) -> Result<(), AllocError>
    ensures { OnOk result (row.new.items ≡ row.old.items ++ thing ∷ []) }
{
    with_room(row)?;
    row.push(thing)?;
    Ok(())
}
