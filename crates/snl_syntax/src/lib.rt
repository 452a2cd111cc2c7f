//! The trees of programs in the State Notation Language. Each keeps the tokens whose places messages and faults name.
//!
//! The definitions say how a tree is spelled, when it is well formed, and how it is read from the front of a list of
//! tokens. The crate `snl_tree` has the parser that makes these trees, and offers their names too.
#![tactic(auto)]

mod declarations;
mod definitions;
mod expressions;
mod functions;
mod laws;
mod programs;
mod statements;

pub use declarations::{Declaration, Declarator, Initialiser, TypeName, Values};
pub use definitions::{Assign, ChannelNames, Channels, Def, Flag, Place, Setting, Sync, SyncQueue};
pub use expressions::{Argument, Expr, Term};
pub use functions::{Function, Parameter, Parameters};
pub use laws::examples_of_grouping;
pub use programs::{Clause, Program, State, StateSet, Target};
pub use statements::{Block, Header, Stmt};
