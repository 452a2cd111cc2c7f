//! Programs as test suites: which files are a test, and whether a run wrote what its file of wanted output has.
//!
//! `suite_of` finds the programs and their tests among the names of a folder. A `Comparer` is a sink that compares the output of a run
//! with the wanted bytes as both come, and keeps no more than the first difference. `Written` hands the output on to a file.
//! `never_in` reads what no search may find.
//! `difference_text` tells a difference, `Report` makes a file of JUnit.
#![tactic(auto)]

mod agreement;
mod ahead;
mod comparer;
mod difference;
mod escaped;
mod junit;
pub mod laws;
mod line_text;
mod nevers;
mod program_match;
mod suites;
mod visible;
mod written;

pub use agreement::Agreement;
pub use comparer::{Comparer, Difference};
pub use difference::difference_text;
pub use escaped::push_escaped;
pub use junit::Report;
pub use line_text::LineText;
pub use nevers::{Never, never_in, states_in};
pub use program_match::program_of;
pub use suites::{Day, Program, Suite, suite_of};
pub use visible::push_visible;
pub use written::Written;
