//! From the bytes of a program to its messages, and from those of a trace to the lines of its run.
//!
//! `read_words` reads the words of a call. `report` checks a program; `session` checks it and, if it has no error, runs
//! it over a trace. `answer` checks one and has something else made of it; `judged` gives what the rules say of a source with its
//! program, for who goes on with that.
#![tactic(auto)]

mod answering;
mod jobs;
mod lines;
mod messages;
mod reports;
mod sessions;

pub use answering::{Answered, Maker, answer};
pub use jobs::{Report, Status};
pub use messages::{Judgement, judged};
pub use reports::report;
pub use sessions::{Loading, boxed, macros_of, session, status_of};
pub use snc_args::{DEFAULT_BUDGET, Job, Tool, WordsFault, read_words};
pub use snl_check::Options;
pub use snl_machine::{Sink, SinkFault};
pub use snl_trace::{End, Source, SourceFault};
