//! What `snl search` does with the system it runs on: the files that it reads and writes, its answer, and the join of the answers of several
//! jobs.
#![tactic(auto)]

mod join;
mod search;

pub use join::answered_join;
pub use search::answered_search;
