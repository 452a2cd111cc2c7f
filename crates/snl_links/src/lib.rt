//! The links and the tables of a checked program.
#![tactic(auto)]

mod checked;

pub use checked::{links, tables};
pub use snl_channels::{Link, Macros, links_of, tables_of};
