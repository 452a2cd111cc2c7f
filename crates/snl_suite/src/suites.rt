//! The programs of a folder and their tests, by the names of its files.

use crate::program_match::program_of;
use std::alloc::{AllocError, Global};

/// A test: a trace of a program and the output that is wanted of it. Its files have one stem, that of the program, or one with a day
/// behind it.
#[derive(Drop)]
pub struct Day {
    /// What stands in front of `.trace` and `.out`.
    pub stem: String,
    /// Whether there is a trace; without one it is empty.
    pub has_trace: bool,
    /// Whether there is an output that is wanted.
    pub has_out: bool,
    /// Whether there is a file with the status that is wanted.
    pub has_status: bool,
}

/// A program with its tests, one at least.
#[derive(Drop)]
pub struct Program {
    /// What stands in front of `.st`.
    pub name: String,
    /// Whether there is a file with the words of the call.
    pub has_args: bool,
    /// Whether there is a file with what no search may find.
    pub has_never: bool,
    /// Whether there is a requirement that watches it.
    pub has_watch: bool,
    /// Whether there is a file with the states of the requirement that must not be.
    pub has_watch_never: bool,
    /// Its tests, in the order of their stems.
    pub days: Vec<Day>,
}

/// What is tested in a folder.
#[derive(Drop)]
pub struct Suite {
    /// The programs, in the order of their names.
    pub programs: Vec<Program>,
    /// The names of traces whose program is missing, and those of files with what no search may find.
    pub orphans: Vec<String>,
}

/// Whether one of some names is a stem with an ending.
fn has(names: &[String], stem: &str, ending: &str) -> bool {
    for name in names {
        if name.as_str().strip_suffix(ending) == Some(stem) {
            return true;
        }
    }
    false
}

/// Whether a stem is that of an observer of a program that is there.
fn is_observer(names: &[String], stem: &str) -> bool {
    match stem.strip_suffix(".watch") {
        Some(name) => has(names, name, ".st"),
        None => false,
    }
}

/// The stems of the programs, in their order.
fn programs_in<'n>(alloc: Global, names: &'n [String]) -> Result<Vec<&'n str>, AllocError> {
    let mut programs = Vec::new(alloc);
    for name in names {
        if let Some(stem) = name.as_str().strip_suffix(".st") {
            if !stem.is_empty() && !is_observer(names, stem) {
                programs.push(stem)?;
            }
        }
    }
    programs.sort_unstable();
    Ok(programs)
}

/// The stem of a trace or of an output that is wanted.
fn stem_in(name: &str) -> Option<&str> {
    match name.strip_suffix(".trace") {
        Some(stem) => Some(stem),
        None => name.strip_suffix(".out"),
    }
}

/// The stems of traces and of outputs, in their order, each once.
fn stems_in<'n>(alloc: Global, names: &'n [String]) -> Result<Vec<&'n str>, AllocError> {
    let mut stems = Vec::new(alloc);
    for name in names {
        if let Some(stem) = stem_in(name.as_str()) {
            stems.push(stem)?;
        }
    }
    stems.sort_unstable();
    let mut each = Vec::new(alloc);
    for stem in stems.iter() {
        if each.last() != Some(stem) {
            each.push(*stem)?;
        }
    }
    Ok(each)
}

/// The test of a stem.
fn day_of(alloc: Global, names: &[String], stem: &str) -> Result<Day, AllocError> {
    Ok(Day {
        stem: String::from_str(alloc, stem)?,
        has_trace: has(names, stem, ".trace"),
        has_out: has(names, stem, ".out"),
        has_status: has(names, stem, ".status"),
    })
}

/// A program, of which no test was found yet.
fn program_named(alloc: Global, names: &[String], name: &str) -> Result<Program, AllocError> {
    Ok(Program {
        name: String::from_str(alloc, name)?,
        has_args: has(names, name, ".args"),
        has_never: has(names, name, ".never"),
        has_watch: has(names, name, ".watch.st"),
        has_watch_never: has(names, name, ".watch.never"),
        days: Vec::new(alloc),
    })
}

/// The names of programs, as bytes.
fn all_bytes<'n>(alloc: Global, names: &[&'n str]) -> Result<Vec<&'n [u8]>, AllocError> {
    let mut bytes = Vec::new(alloc);
    for name in names {
        bytes.push(name.as_bytes())?;
    }
    Ok(bytes)
}

/// Adds a test to the program of a name.
fn push_day(programs: &mut Vec<Program>, name: &[u8], day: Day) -> Result<(), AllocError> {
    for program in programs.iter_mut() {
        if program.name.as_bytes() == name {
            program.days.push(day)?;
            return Ok(());
        }
    }
    Ok(())
}

/// Adds the test of a stem to its program. Where it has none, a trace is named, and an output is none of ours.
fn place(
    alloc: Global,
    names: &[String],
    programs: &[&[u8]],
    stem: &str,
    suite: &mut Suite,
) -> Result<(), AllocError> {
    match program_of(programs, stem.as_bytes()) {
        Some(name) => push_day(&mut suite.programs, name, day_of(alloc, names, stem)?),
        None if has(names, stem, ".trace") => {
            let name = format!(in alloc; "{stem}.trace")?;
            suite.orphans.push(name)?;
            Ok(())
        }
        None => Ok(()),
    }
}

/// Names the files with what no search may find whose program is missing.
fn push_lost(alloc: Global, names: &[String], orphans: &mut Vec<String>) -> Result<(), AllocError> {
    for name in names {
        if let Some(stem) = name.as_str().strip_suffix(".never") {
            if !has(names, stem, ".st") {
                orphans.push(String::from_str(alloc, name.as_str())?)?;
            }
        }
    }
    Ok(())
}

/// The programs of some names, each with a test of its own where it has no other.
fn all_programs(
    alloc: Global,
    names: &[String],
    programs: &[&str],
) -> Result<Vec<Program>, AllocError> {
    let mut all = Vec::new(alloc);
    for name in programs {
        all.push(program_named(alloc, names, name)?)?;
    }
    Ok(all)
}

/// Gives each program without a test one of its own name.
fn fill(alloc: Global, names: &[String], programs: &mut Vec<Program>) -> Result<(), AllocError> {
    for program in programs.iter_mut() {
        if program.days.is_empty() {
            let day = day_of(alloc, names, program.name.as_str())?;
            program.days.push(day)?;
        }
    }
    Ok(())
}

/// Adds the tests of all stems of some names to the programs.
fn place_all(
    alloc: Global,
    names: &[String],
    programs: &[&str],
    suite: &mut Suite,
) -> Result<(), AllocError> {
    let bytes = all_bytes(alloc, programs)?;
    let stems = stems_in(alloc, names)?;
    for stem in stems.iter() {
        place(alloc, names, bytes.as_slice(), stem, suite)?;
    }
    Ok(())
}

/// The programs of some names, without a test yet.
fn empty_of(alloc: Global, names: &[String], programs: &[&str]) -> Result<Suite, AllocError> {
    Ok(Suite {
        programs: all_programs(alloc, names, programs)?,
        orphans: Vec::new(alloc),
    })
}

/// Adds all tests to the programs, and names the files that have none.
fn add_tests(
    alloc: Global,
    names: &[String],
    programs: &[&str],
    suite: &mut Suite,
) -> Result<(), AllocError> {
    place_all(alloc, names, programs, suite)?;
    push_lost(alloc, names, &mut suite.orphans)?;
    fill(alloc, names, &mut suite.programs)
}

/// The tests among the files of a folder, by their names. Each `NAME.st` is a program. A trace or an output is that of the longest NAME
/// that it fits: `NAME.trace`, or `NAME-DAY.trace`. A program that has neither is a test by itself, over an empty trace. `NAME.watch.st`
/// is no program where `NAME.st` is there, but its requirement. The only error is that memory ends.
pub fn suite_of(alloc: Global, names: &[String]) -> Result<Suite, AllocError> {
    let programs = programs_in(alloc, names)?;
    let mut suite = empty_of(alloc, names, programs.as_slice())?;
    add_tests(alloc, names, programs.as_slice(), &mut suite)?;
    Ok(suite)
}
