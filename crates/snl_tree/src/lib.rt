//! The trees of programs in the State Notation Language, and the parser that makes them from tokens.
//!
//! [`parse`] reads the tokens of a source as a [`Program`] of the whole language.
#![tactic(auto)]

mod faults;
pub mod laws;
mod parsing;
mod readers;

pub use faults::ParseFault;
pub use parsing::{NESTING_LIMIT, TOKEN_LIMIT, parse};
pub use snl_syntax::{
    Argument, Assign, Block, ChannelNames, Channels, Clause, Declaration, Declarator, Def, Expr,
    Flag, Function, Header, Initialiser, Parameter, Parameters, Place, Program, Setting, State,
    StateSet, Stmt, Sync, SyncQueue, Target, Term, TypeName, Values,
};
