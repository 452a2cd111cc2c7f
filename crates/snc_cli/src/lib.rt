//! What the programs do with the system they run on: the words of a call, the bytes of FILE, messages, lines that go out while a
//! trace comes.
#![tactic(auto)]

mod calls;
mod files;
mod output;
mod streams;

pub use calls::{job_of, tell, words_of, write};
pub use files::{opened, source_in, source_of, told_unread};
pub use output::{Lines, Outlet};
pub use streams::{Noted, Stream};
