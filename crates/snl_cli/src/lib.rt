//! What the words of `snl` do with the system they run on: the files that they read and write, and the answers over one trace. What writes
//! logs as a trace, what searches over every trace, and what tests, stands in crates above this one.
#![tactic(auto)]

mod asked;
mod at;
mod check;
mod count_files;
mod cover;
mod graph;
mod input;
mod jobs;
mod logs;
mod macros;
mod notes;
mod outputs;
mod program_texts;
mod run;
mod run_watch;
mod same;
mod shares;
mod sources;
mod subjects;
mod suites;
mod tallies;
mod trace_programs;
mod trace_report;
mod traces;
mod verdicts;
mod version;
mod waits;
mod wholes;

pub use asked::{Asked, code_of};
pub use at::answered_at;
pub use check::check_lints;
pub use count_files::check_counts;
pub use cover::answered_cover;
pub use graph::answered_graph;
pub use jobs::job_of_file;
pub use logs::{LogFeed, feeds_of, held_logs};
pub use macros::{check_macros, notes_of};
pub use outputs::{check_outputs, write_suite, write_trace};
pub use program_texts::{ProgramText, answered_text};
pub use run::answered_run;
pub use run_watch::{WatchPair, check_both, places_of, watch_pair_of};
pub use same::{Both, answered_same, both_of, tell_messages};
pub use shares::part_of;
pub use sources::answered_checks;
pub use subjects::{job_of, path_in, program_source, small_text, subject_of, unread};
pub use suites::{Folder, folders_of};
pub use tallies::Tally;
pub use trace_programs::{Traced, traced_program};
pub use verdicts::{Halt, Verdict, stuck, wrong, wrong_bytes};
pub use version::VERSION;
pub use waits::answered_waits;
pub use wholes::whole_of;
