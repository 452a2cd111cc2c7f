//! The flat code of a checked program.
#![tactic(auto)]

mod checked;

pub use checked::compile;
pub use snl_flat::{Code, Copies, Instr, Piece, compile_by, copies_of, names_in};
