//! The code of a program, as it is read.

ghost use Rattle.std.specs.Prelude.{◌≡◌, ◌<◌, Some, length, slice_get, option_map};
ghost use Rattle.snl_meaning.specs.Names.{format_text};
ghost use Rattle.snl_flat.specs.Pieces.{texts_of};
ghost use Rattle.snl_flat.specs.Starts.{table_of, start_in, holds_in, state_table};
ghost use Rattle.snl_flat.specs.Starts as spec;

use crate::starts::{ClauseStarts, Piece, StateStarts};
use snl_meaning::{FunctionEntry, Instr};

/// The flat code of a program. It owns all that it holds.
pub struct Code {
    pub(crate) instrs: Vec<Instr>,
    /// The strings of the program, in the order of the source.
    pub(crate) texts: Vec<Vec<u8>>,
    /// Where the functions begin, by their numbers; their code stands first.
    pub(crate) functions: Vec<FunctionEntry>,
    /// How many operands the code holds at once.
    pub(crate) depth: usize,
    /// Where the program's own two blocks begin.
    pub(crate) entry: Option<usize>,
    pub(crate) exit: Option<usize>,
    /// Where the pieces of each state begin, by state set.
    pub(crate) sets: Vec<Vec<StateStarts>>,
}

// Written out: a derived drop is proved anew wherever such a value ends.
impl Drop for Code {
    fn drop(self) {
        let Code {
            instrs: _,
            texts: _,
            functions: _,
            depth: _,
            entry: _,
            exit: _,
            sets: _,
        } = self;
    }
}

impl Code {
    /// How many instructions it has.
    pub fn len(&self) -> usize
        ensures { result ≡ length self.now.instrs.items }
    {
        self.instrs.len()
    }

    /// The instruction of a number, from 0 on.
    pub fn instr(&self, number: usize) -> Instr
        requires { number < length self.now.instrs.items }
        ensures { slice_get self.now.instrs.items number ≡ Some result }
    {
        self.instrs[number]
    }

    /// The string of a number, as spelled with its quotes; empty where the program has no string of that number.
    pub fn text(&self, number: usize) -> &[u8]
        ensures { result.now ≡ format_text (texts_of self.now) number }
    {
        match self.texts.get(number) {
            Some(text) => text.as_slice(),
            None => &[],
        }
    }

    /// All instructions.
    pub fn instrs(&self) -> &[Instr]
        ensures { result.now ≡ self.now.instrs.items }
    {
        self.instrs.as_slice()
    }

    /// All strings, by their numbers.
    pub fn texts(&self) -> &[Vec<u8>]
        ensures { result.now ≡ self.now.texts.items }
    {
        self.texts.as_slice()
    }

    /// Where the functions of the program begin, with their parameters. They have the numbers from 0 on, in the order of the source.
    pub fn functions(&self) -> &[FunctionEntry]
        ensures { result.now ≡ self.now.functions.items }
    {
        self.functions.as_slice()
    }

    /// How many operands the code holds at once: with room for so many no piece runs out of room.
    pub fn depth(&self) -> usize
        ensures { result ≡ self.now.depth }
    {
        self.depth
    }

    /// The table of a state.
    fn state(&self, set: usize, state: usize) -> Option<&StateStarts>
        ensures { option_map (λ s. state_table s.now) result
            ≡ spec.state_in (table_of self.now) set state }
    {
        self.sets.get(set)?.get(state)
    }

    /// The table of a clause.
    fn clause(&self, set: usize, state: usize, clause: usize) -> Option<ClauseStarts>
        ensures { result ≡ spec.clause_in (table_of self.now) set state clause }
    {
        self.state(set, state)?.clauses.get(clause).copied()
    }

    /// Whether a state of a state set is reached; the pieces of one that is not have no code. State sets and states have the
    /// numbers from 0 on, in the order of the source; a number that none has answers false. Takes no memory.
    pub fn holds(&self, ss: usize, state: usize) -> bool
        ensures { result ≡ holds_in (table_of self.now) ss state }
    {
        match self.state(ss, state) {
            Some(starts) => starts.is_reached,
            None => false,
        }
    }

    /// Where a piece begins; None where the code has no such piece.
    pub fn start(&self, piece: Piece) -> Option<usize>
        ensures { result ≡ start_in (table_of self.now) piece }
    {
        match piece {
            Piece::ProgramEntry => self.entry,
            Piece::ProgramExit => self.exit,
            Piece::Entry { set, state } => self.state(set, state)?.entry,
            Piece::Exit { set, state } => self.state(set, state)?.exit,
            Piece::Condition { set, state, clause } => self.clause(set, state, clause)?.condition,
            Piece::Block { set, state, clause } => Some(self.clause(set, state, clause)?.block),
        }
    }
}
