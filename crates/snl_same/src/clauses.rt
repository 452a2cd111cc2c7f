//! The clauses that fired last in a run, with what their conditions saw.

use itoa::Buffer;
use snl_output::{Fired, push_all, push_told};
use snl_watch::{ClauseLegend, SetLegend};
use std::alloc::{AllocError, Global};

/// How many clauses of one time are told.
const MOST_TOLD: usize = 8;

/// What stands in front of a note.
const MARK: &[u8] = b"# ";

/// A clause that fired.
#[derive(Clone, Copy)]
struct FiredClause {
    fired: Fired,
    /// Where what its condition saw begins among all that was seen.
    first: usize,
}

/// The clauses that fired at the last line of the trace at which any did, in their order.
#[derive(Drop)]
pub(crate) struct Clauses {
    fired: Vec<FiredClause>,
    /// What their conditions saw, one behind the other.
    values: Vec<i64>,
    /// Whether that line is not the one at work.
    is_past: bool,
    /// Whether memory was refused.
    ran_out: bool,
}

/// What is known of a clause, if it is one of the program.
fn legend_of(sets: &[SetLegend], fired: Fired) -> Option<&ClauseLegend> {
    let set = sets.get(fired.set)?;
    let state = set.states.get(fired.state)?;
    state.clauses.get(fired.clause)
}

/// Adds what a condition saw of the words of the copy of its state set.
fn push_seen(
    values: &mut Vec<i64>,
    clause: &ClauseLegend,
    words: &[i64],
) -> Result<(), AllocError> {
    for seen in &clause.seen {
        values.push(words.get(seen.word).copied().unwrap_or(0))?;
    }
    Ok(())
}

/// Adds a clause: the text of its note, with the values that its condition saw.
fn push_clause(out: &mut Vec<u8>, clause: &ClauseLegend, values: &[i64]) -> Result<(), AllocError> {
    let front = clause.front.as_slice();
    out.extend_from_slice(front.strip_prefix(MARK).unwrap_or(front))?;
    for (number, seen) in clause.seen.iter().enumerate() {
        let mut digits = Buffer::new();
        let value = values.get(number).copied().unwrap_or(0);
        push_all(
            out,
            &[seen.front.as_slice(), digits.format(value).as_bytes()],
        )?;
    }
    out.extend_from_slice(b"\n")
}

impl Clauses {
    /// None has fired.
    pub(crate) fn new(alloc: Global) -> Self {
        Clauses {
            fired: Vec::new(alloc),
            values: Vec::new(alloc),
            is_past: false,
            ran_out: false,
        }
    }

    /// Another line of the trace is at work.
    pub(crate) fn pass(&mut self) {
        self.is_past = true;
    }

    /// Adds a clause that fired, with what its condition saw.
    fn push(&mut self, sets: &[SetLegend], fired: Fired, words: &[i64]) -> Result<(), AllocError> {
        let first = self.values.len();
        self.fired.push(FiredClause { fired, first })?;
        match legend_of(sets, fired) {
            Some(clause) => push_seen(&mut self.values, clause, words),
            None => Ok(()),
        }
    }

    /// Notes that a clause fired.
    pub(crate) fn note(&mut self, sets: &[SetLegend], fired: Fired, words: &[i64]) {
        if self.is_past {
            self.is_past = false;
            self.fired.clear();
            self.values.clear();
        }
        if self.push(sets, fired, words).is_err() {
            self.ran_out = true;
        }
    }

    /// Whether a clause is missing, since memory was refused.
    pub(crate) fn ran_out(&self) -> bool {
        self.ran_out
    }

    /// What the condition of a clause saw, and more behind it.
    fn seen(&self, clause: FiredClause) -> &[i64] {
        self.values.as_slice().get(clause.first..).unwrap_or(&[])
    }

    /// Adds a line about a clause that fired: who, whether it was the last one, when, and its note.
    fn push_line(
        &self,
        out: &mut Vec<u8>,
        sets: &[SetLegend],
        front: &[u8],
        clause: FiredClause,
    ) -> Result<(), AllocError> {
        let Some(legend) = legend_of(sets, clause.fired) else {
            return Ok(());
        };
        push_told(out, front, clause.fired.ms, b": ")?;
        push_clause(out, legend, self.seen(clause))
    }

    /// How many clauses fired at a time.
    fn count_at(&self, ms: u64) -> usize {
        self.fired
            .iter()
            .filter(|clause| clause.fired.ms == ms)
            .count()
    }

    /// The last clause that fired before a time.
    fn last_before(&self, ms: u64) -> Option<FiredClause> {
        self.fired
            .iter()
            .filter(|clause| clause.fired.ms < ms)
            .last()
            .copied()
    }

    /// Adds a line for each clause that fired at a time, and how many there are beyond the eighth.
    fn push_each(
        &self,
        out: &mut Vec<u8>,
        sets: &[SetLegend],
        who: &[u8],
        ms: u64,
    ) -> Result<(), AllocError> {
        let mut told = 0usize;
        for clause in &self.fired {
            if clause.fired.ms == ms && told < MOST_TOLD {
                told = told.saturating_add(1);
                out.extend_from_slice(who)?;
                self.push_line(out, sets, b" fired at ", *clause)?;
            }
        }
        let more = self.count_at(ms).saturating_sub(told) as u64;
        if more > 0 {
            out.extend_from_slice(who)?;
            push_told(out, b" fired at ", ms, b": ")?;
            push_told(out, b"", more, b" more\n")?;
        }
        Ok(())
    }

    /// Adds which clauses fired at a time; where none did, the last one before it.
    pub(crate) fn push_at(
        &self,
        out: &mut Vec<u8>,
        sets: &[SetLegend],
        who: &[u8],
        ms: u64,
    ) -> Result<(), AllocError> {
        if self.count_at(ms) > 0 {
            return self.push_each(out, sets, who, ms);
        }
        out.extend_from_slice(who)?;
        match self.last_before(ms) {
            Some(clause) => self.push_line(out, sets, b" fired last at ", clause),
            None => push_told(out, b" fired no clause at ", ms, b"\n"),
        }
    }
}
