//! Recorded logs, as one trace.
//!
//! `snl_logs` tells what lines say of channels. [`import`] writes that as a trace: what it writes are events that a run takes, in the
//! order of time, and nothing that the logs say is lost uncounted.
#![tactic(auto)]

mod channel;
mod channels;
mod counts;
mod errors;
mod feed;
mod happenings;
mod importer;
mod importing;
pub mod laws;
mod lines;
mod misreads;
mod opening;
mod own_report;
mod preface;
mod programs;
mod recorder;
mod report;
mod roles;
mod shown;
mod unit_lines;
mod wishes;
mod writing;

pub use channel::{Begun, Channel, Losses, News};
pub use channels::Channels;
pub use counts::{Counts, Left, LeftOut};
pub use errors::ImportError;
pub use feed::{Feed, next_of, take_next};
pub use happenings::Happening;
pub use importer::{Begin, Importer};
pub use importing::{Imported, import};
pub use misreads::{Misread, Misreads};
pub use opening::Opening;
pub use preface::Preface;
pub use programs::{AnyProgram, LoadedProgram, Program};
pub use recorder::Recorder;
pub use report::notes_of;
pub use roles::{ProgramChannel, Role, WishedProgram};
pub use wishes::{ChannelNumber, ChannelText, Wishes, channels_of};
pub use writing::write_events;
