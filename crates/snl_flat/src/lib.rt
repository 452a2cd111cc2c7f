//! The flat code of a program, whose places in the tables are handed in.
#![tactic(auto)]

mod block_depths;
mod code;
mod compiling;
mod copies;
mod depths;
mod functions;
pub mod laws;
mod laying;
mod outlines;
mod program_depths;
mod starts;

pub use code::Code;
pub use compiling::{compile_by, names_in};
pub use copies::{Copies, copies_of};
pub use snl_meaning::Instr;
pub use starts::Piece;
