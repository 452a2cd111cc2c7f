//! What the words over every trace of two programs do with the system they run on: `snl same --search`, and `snl search --watch`, where the
//! second program is a requirement.
#![tactic(auto)]

mod pair_search;
mod watched_search;

pub use pair_search::answered_contrast;
pub use watched_search::answered_guard;
