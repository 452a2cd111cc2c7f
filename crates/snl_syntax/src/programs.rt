//! The trees of clauses, states, state sets and programs.

use crate::{Block, Def, Expr};
use snl_text::{Pos, Token};

/// `program : 'program' NAME [ '(' STRING ')' ] pdef* [entry] ss+ [exit]`
///
/// Beside its parts it has what the source held between and after its tokens.
pub struct Program<'a> {
    /// `program`
    pub word: Token<'a>,
    pub name: Token<'a>,
    /// The definitions of macros.
    pub macros: Option<Token<'a>>,
    pub definitions: Vec<Def<'a>>,
    pub entry: Option<Box<Block<'a>>>,
    /// At least one.
    pub state_sets: Vec<StateSet<'a>>,
    pub exit: Option<Box<Block<'a>>>,
    /// Where each piece of embedded C begins, in the order of the source.
    pub embedded: Vec<Pos>,
    /// The names of files that markers gave, as spelled between their quotes. The first has number 1.
    pub files: Vec<&'a [u8]>,
    /// How many tokens the program has.
    pub token_count: usize,
    /// The place of the first token after the first 65,536, where there are more.
    pub beyond: Option<Pos>,
}

// Written out: a derived drop is proved anew wherever such a value ends.
impl<'a> Drop for Program<'a> {
    fn drop(self) {
        let Program {
            word: _,
            name: _,
            macros: _,
            definitions: _,
            entry: _,
            state_sets: _,
            exit: _,
            embedded: _,
            files: _,
            token_count: _,
            beyond: _,
        } = self;
    }
}

/// `ss : 'ss' NAME '{' def* state+ '}'`
pub struct StateSet<'a> {
    /// `ss`
    pub word: Token<'a>,
    pub name: Token<'a>,
    /// No options and no functions.
    pub definitions: Vec<Def<'a>>,
    /// At least one; the first is the initial one.
    pub states: Vec<State<'a>>,
}

// Written out: a derived drop is proved anew wherever such a value ends.
impl<'a> Drop for StateSet<'a> {
    fn drop(self) {
        let StateSet {
            word: _,
            name: _,
            definitions: _,
            states: _,
        } = self;
    }
}

/// `state : 'state' NAME '{' tdef* [entry] when* [exit] '}'`
pub struct State<'a> {
    /// `state`
    pub word: Token<'a>,
    pub name: Token<'a>,
    /// No functions.
    pub definitions: Vec<Def<'a>>,
    pub entry: Option<Box<Block<'a>>>,
    pub clauses: Vec<Clause<'a>>,
    pub exit: Option<Box<Block<'a>>>,
}

// Written out: a derived drop is proved anew wherever such a value ends.
impl<'a> Drop for State<'a> {
    fn drop(self) {
        let State {
            word: _,
            name: _,
            definitions: _,
            entry: _,
            clauses: _,
            exit: _,
        } = self;
    }
}

/// `when : 'when' '(' [expr] ')' block ( 'state' NAME | 'exit' )`
pub struct Clause<'a> {
    /// `when`
    pub word: Token<'a>,
    pub condition: Option<Box<Expr<'a>>>,
    pub block: Box<Block<'a>>,
    pub target: Target<'a>,
}

// Written out: a derived drop is proved anew wherever such a value ends.
impl<'a> Drop for Clause<'a> {
    fn drop(self) {
        let Clause {
            word: _,
            condition: _,
            block: _,
            target: _,
        } = self;
    }
}

/// Where a [`Clause`] leads.
#[derive(Clone, Copy)]
pub enum Target<'a> {
    /// To the state of that name.
    State(Token<'a>),
    /// Out of the program.
    Exit,
}
