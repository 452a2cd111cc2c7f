//! The links of a program, the macros in the names of its channels, and its tables as text.
#![tactic(auto)]

mod appending;
mod channels;
mod facts;
pub mod laws;
mod listing;
mod macros;
mod said;
mod texts;
mod ties;

pub use channels::{Link, Macros, links_of};
pub use listing::tables_of;
pub use macros::MacroTable;
