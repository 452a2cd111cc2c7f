//! Who listens to a run: the counts of the lines of a program's clauses, and what becomes of its states and channels.

ghost use Rattle.std.specs.Prelude.{◌≡◌, ℕ, List, Some, map, IfOk};
ghost use Rattle.snl_watch.specs.Counts.{count_in, no_cut, reading_of};
ghost use Rattle.snl_watch.specs.Seen.{seen};
ghost use Rattle.snl_watch.specs.Sets.{names_in};
ghost use Rattle.snl_coverage.specs.Shapes.{bytes_of};

use crate::charts::Chart;
use indexmap::IndexSet;
use snl_outline::{SetOutline, StateOutline};
use snl_watch::{ClauseTrail, Counter, SetTrail, StateTrail, Trail};
use std::alloc::{AllocError, Global};

/// The lines that are counted.
#[derive(Drop)]
struct CountedLines {
    /// Each once.
    keys: IndexSet<Vec<u8>>,
    /// Which of them each clause of the program has, in order.
    of_clauses: Vec<usize>,
}

/// Adds the line of the next clause.
fn push_line(alloc: Global, text: &[u8], lines: &mut CountedLines) -> Result<(), AllocError> {
    let key = Vec::from_slice(alloc, text)?;
    let (number, _) = lines.keys.insert_full(key)?;
    lines.of_clauses.push(number)?;
    Ok(())
}

/// The lines of the clauses of a program, which have these texts.
fn lines_of(alloc: Global, texts: &[Vec<u8>]) -> Result<CountedLines, AllocError> {
    let mut lines = CountedLines {
        keys: IndexSet::new(alloc),
        of_clauses: Vec::new(alloc),
    };
    for text in texts {
        push_line(alloc, text.as_slice(), &mut lines)?;
    }
    Ok(lines)
}

/// The names of the states of a state set, by their numbers.
fn names_of(alloc: Global, set: &SetOutline) -> Result<IndexSet<&[u8]>, AllocError> {
    let mut names = IndexSet::new(alloc);
    for state in &set.states {
        names.insert(state.name.as_slice())?;
    }
    Ok(names)
}

/// Nothing came yet of the clauses of a state, of which the first has a number among all clauses of the program.
fn clauses_of(
    alloc: Global,
    state: &StateOutline,
    names: &IndexSet<&[u8]>,
    lines: &CountedLines,
    first: usize,
) -> Result<Vec<ClauseTrail>, AllocError> {
    let mut clauses = Vec::new(alloc);
    for (number, arrow) in state.clauses.iter().enumerate() {
        let line = lines.of_clauses.get(first.saturating_add(number)).copied();
        clauses.push(ClauseTrail {
            line: line.unwrap_or(usize::MAX),
            target: names.get_index_of(arrow.target.as_slice()),
            taken: 0,
            left: 0,
        })?;
    }
    Ok(clauses)
}

/// Nothing came yet of the states of a state set, which have these names. `next` is the number of their first clause among all, and
/// then that behind their last.
fn state_trails(
    alloc: Global,
    states: &[StateOutline],
    names: &IndexSet<&[u8]>,
    lines: &CountedLines,
    next: &mut usize,
) -> Result<Vec<StateTrail>, AllocError> {
    let mut trails = Vec::new(alloc);
    for state in states {
        let clauses = clauses_of(alloc, state, names, lines, *next)?;
        *next = next.saturating_add(clauses.len());
        trails.push(StateTrail {
            entered: 0,
            clauses,
        })?;
    }
    Ok(trails)
}

/// Nothing came yet of a state set. `next` is the number of its first clause among all, and then that behind its last.
fn set_trail(
    alloc: Global,
    set: &SetOutline,
    lines: &CountedLines,
    next: &mut usize,
) -> Result<SetTrail, AllocError> {
    let names = names_of(alloc, set)?;
    let states = state_trails(alloc, set.states.as_slice(), &names, lines, next)?;
    Ok(SetTrail { states })
}

/// Nothing came yet of the state sets of a program.
fn set_trails(
    alloc: Global,
    chart: &Chart,
    lines: &CountedLines,
) -> Result<Vec<SetTrail>, AllocError> {
    let mut sets = Vec::new(alloc);
    let mut next = 0usize;
    for set in &chart.outline.sets {
        let trail = set_trail(alloc, set, lines, &mut next)?;
        sets.push(trail)?;
    }
    Ok(sets)
}

/// The most bytes that a name of a state of a state set has.
fn longest_name(set: &SetOutline) -> usize {
    let mut longest = 0usize;
    for state in &set.states {
        longest = longest.max(state.name.len());
    }
    longest
}

/// The most bytes that follow the time in the line of any transition of a program.
fn longest_go(chart: &Chart) -> usize {
    let mut longest = 0usize;
    for set in &chart.outline.sets {
        let names = longest_name(set).max(4).saturating_mul(2);
        longest = longest.max(set.name.len().saturating_add(names).saturating_add(6));
    }
    longest
}

/// Nothing was counted yet of a run of a program whose clauses have lines of these texts. `puts` has a count for each channel of
/// which puts are counted. The only error is that memory ends.
pub(crate) fn counter_of(
    alloc: Global,
    chart: &Chart,
    texts: &[Vec<u8>],
    puts: Vec<u64>,
) -> Result<Counter, AllocError>
    ensures { IfOk result (λ c. seen c ≡ reading_of (names_in c.keys) c.room no_cut) }
{
    let lines = lines_of(alloc, texts)?;
    let sets = set_trails(alloc, chart, &lines)?;
    let trail = Trail::new(sets, puts);
    let room = longest_go(chart).saturating_add(1);
    Counter::new(alloc, lines.keys, room, trail)
}

/// How often the line of each of these texts was counted. A text that is not counted cannot be among those of a program; it
/// would be answered as want of memory, which is the only error.
pub(crate) fn counts_of(
    alloc: Global,
    counter: &Counter,
    texts: &[Vec<u8>],
) -> Result<Vec<u64>, AllocError>
    ensures { IfOk result (λ counts. map (count_in (names_in counter.now.keys) counter.now.room
        (seen counter.now).2) (bytes_of texts.now) ≡ map (λ (n : ℕ). Some n) counts.items) }
{
    let mut counts = Vec::new(alloc);
    for text in texts {
        match counter.count_of(text.as_slice()) {
            Some(count) => counts.push(count)?,
            None => return Err(AllocError),
        }
    }
    Ok(counts)
}
