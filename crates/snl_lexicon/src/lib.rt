//! What a search needs of a program: its names, what words of a call mean by them, and the machines that are loaded of it.
//!
//! `wanted_of` makes of words what a search looks for: ends of lines of the output.
#![tactic(auto)]

mod lines;
mod meanings;
mod names;
mod never;
mod reachability;
mod setup;
mod spelling;
mod unwritten;
mod wanted;
mod wanted_text;
mod wrongs;

pub use lines::{begins_program, cut, has_end};
pub use meanings::Lexicon;
pub use names::{ProgramNames, Store};
pub use setup::{Ground, Machines, Scouted, Scouting, SearchFacts, scouted_in};
pub use wanted::{Wanted, WishedEnd, wanted_of};
