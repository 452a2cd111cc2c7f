//! The outline of a program: its state sets, their states and where their clauses lead, with the numbers that they have in a run; and
//! that of states as text.
#![tactic(auto)]

pub mod laws;
mod outline;
mod shapes;

pub use outline::{OutlineForm, outline_text};
pub use shapes::{ClauseOutline, ProgramOutline, SetOutline, StateOutline, outline_of};
