//! What the runs of a program showed of it, and what none did: coverage, and a picture.
//!
//! A `Runner` runs a program over one trace after another: `gaps_of` says what of the program these runs never showed, and `graph`
//! draws it.
#![tactic(auto)]

mod chart_picture;
mod charts;
mod counters;
pub mod cover_laws;
mod coverage;
mod go_lines;
mod graph_answer;
mod graphviz;
mod loader;
mod missed;
mod missing;
mod pictures;
mod program_chart;
mod puts;
mod runner;
mod seen;
mod tallies;
mod told;

pub use charts::Chart;
pub use coverage::{Coverage, PutChart};
pub use graph_answer::{Drawing, graph};
pub use loader::runner_of;
pub use missed::{Gaps, Missed, Share, gaps_of};
pub use missing::coverage_text;
pub use pictures::{Arrow, Cluster, Picture, StateNode};
pub use runner::{Covered, Runner};
