//! What tests ask: a checked program, and the machine of a program. What owns a program stands here alone: a test that owns one would be dear.

use snc::{Job, Loading, answer, judged};
use snl_check::{Checked, Options};
use snl_machine::Machine;
use std::alloc::Global;
use std::test::Fail;

/// The program that a source spells, checked; the source's file has a name. That stands in front, as it does where a source is judged:
/// so the program has the same number among the lifetimes in both.
pub fn checked<'a>(alloc: Global, file: &[u8], source: &'a [u8]) -> Result<Box<Checked<'a>>, Fail> {
    let found = judged(alloc, file, source, Options::none())?;
    there(found.checked)
}

/// What is there.
fn there<T: Drop>(found: Option<T>) -> Result<T, Fail> {
    Ok(found.ok_or("not accepted")?)
}

/// The machine of a program with a budget of 10. It outlives the bytes of the source, which end here.
pub fn loaded(alloc: Global, program: &[u8]) -> Result<Box<Machine>, Fail> {
    let source = Vec::from_slice(alloc, program)?;
    let job = Job {
        file: String::new(alloc),
        options: Options::none(),
        tables: false,
        budget: 10,
        macros: None,
    };
    let answered = answer(alloc, &job, source.as_slice(), &Loading)?;
    there(answered.made)
}
