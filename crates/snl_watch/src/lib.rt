//! Sinks and sources that the companion puts round a run.
//!
//! `Refuser` is a sink that refuses its first byte, so that a run ends where it would begin to write. `ByLine` gives a trace
//! to a run one line a call, `Listener` hears each line that passes, and `Follower` tells how many did. None of them
//! changes what the run reads. `Teller` writes notes between the lines of a run, and `Folder` also folds blocks that repeat.
//! `Watch` counts lines that are known before, and hears what becomes of clauses.
#![tactic(auto)]

mod block;
mod by_line;
mod counter;
mod current_states;
mod folded_line;
mod folder;
mod follower;
mod heard;
mod held;
pub mod laws;
mod legend;
mod line_ends;
mod lines;
mod listener;
mod marks;
mod note_buffer;
mod noted;
mod notes;
mod nowhere;
mod places;
mod progress;
mod recent;
mod refuser;
mod tally;
mod teller;
mod trail;
mod watch;
mod writer;
mod zero;

pub use by_line::ByLine;
pub use counter::Counter;
pub use current_states::{SetStanding, Standing};
pub use folder::Folder;
pub use follower::Follower;
pub use heard::{EventCount, HeardTrace, NameCount};
pub use legend::{ClauseLegend, Legend, SeenValue, SetLegend, StateLegend};
pub use line_ends::count_lines;
pub use lines::line_number;
pub use listener::Listener;
pub use notes::Notes;
pub use nowhere::Nowhere;
pub use progress::Progress;
pub use refuser::Refuser;
pub use tally::Tally;
pub use teller::Teller;
pub use trail::{ClauseTrail, SetTrail, StateTrail, Trail};
pub use watch::Watch;
pub use zero::Zero;
