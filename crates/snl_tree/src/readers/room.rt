//! Boxes and rows of parts, where the only fault is want of memory.

ghost use Rattle.std.specs.Prelude.{◌≡◌, ◌∷◌, ◌++◌, [], IfOk, IfErr, OnOk};
ghost use Rattle.snl_tree.specs.declared.readers.cursor.Halt.TheVariants.{Memory};

use crate::readers::cursor::Halt;
use std::alloc::Global;

/// Puts a part into a box. The allocator is lent, so that the lifetimes of the part have the same numbers here as where it is read.
pub fn in_box<T: Drop>(alloc: &Global, part: T) -> Result<Box<T>, Halt>
    ensures ok { IfOk result (λ b. b.value ≡ part) }
    ensures memory { IfErr result (λ halt. halt ≡ Memory) }
{
    let found = Box::new(*alloc, part)?;
    Ok(found)
}

/// Puts into a box what a function makes of a part.
pub fn made_of_one<T: Drop, A: Drop, F: FnOnce(A) -> T>(
    alloc: Global,
    make: F,
    first: A,
) -> Result<Box<T>, Halt>
    requires { F.IsAlwaysCallable make }
    ensures ok { IfOk result (λ b. F.post make first b.value) }
    ensures memory { IfErr result (λ halt. halt ≡ Memory) }
{
    in_box(&alloc, make(first))
}

/// Puts into a box what a function makes of two parts.
pub fn made_of_two<T: Drop, A: Drop, B: Drop, F: FnOnce(A, B) -> T>(
    alloc: Global,
    make: F,
    first: A,
    second: B,
) -> Result<Box<T>, Halt>
    requires { F.IsAlwaysCallable make }
    ensures ok { IfOk result (λ b. F.post make first second b.value) }
    ensures memory { IfErr result (λ halt. halt ≡ Memory) }
{
    in_box(&alloc, make(first, second))
}

/// Puts into a box what a function makes of three parts.
pub fn made_of_three<T: Drop, A: Drop, B: Drop, C: Drop, F: FnOnce(A, B, C) -> T>(
    alloc: Global,
    make: F,
    first: A,
    second: B,
    third: C,
) -> Result<Box<T>, Halt>
    requires { F.IsAlwaysCallable make }
    ensures ok { IfOk result (λ b. F.post make first second third b.value) }
    ensures memory { IfErr result (λ halt. halt ≡ Memory) }
{
    in_box(&alloc, make(first, second, third))
}

/// Makes room for one more part. A row has room for one part first, and for twice as many where it is full: most rows of a tree have
/// one part.
fn with_room<T: Drop>(row: &mut Vec<T>) -> Result<(), Halt>
    ensures items { row.new.items ≡ row.old.items }
    ensures memory { IfErr result (λ halt. halt ≡ Memory) }
{
    if row.len() < 2 {
        row.reserve_exact(1)?;
    }
    Ok(())
}

/// Puts a part at the end of a row.
pub fn pushed<T: Drop>(row: &mut Vec<T>, part: T) -> Result<(), Halt>
    ensures items { OnOk result (row.new.items ≡ row.old.items ++ part ∷ []) }
    ensures memory { IfErr result (λ halt. halt ≡ Memory) }
{
    with_room(row)?;
    row.push(part)?;
    Ok(())
}

/// Takes a part out of its box and puts it at the end of a row.
pub fn added<T: Drop>(row: &mut Vec<T>, part: Box<T>) -> Result<(), Halt>
    ensures items { OnOk result (row.new.items ≡ row.old.items ++ part.value ∷ []) }
    ensures memory { IfErr result (λ halt. halt ≡ Memory) }
{
    with_room(row)?;
    row.push(Box::into_inner(part))?;
    Ok(())
}
