//! Recorded logs: what their lines say of channels, and the numbers that they spell.
//!
//! What is read here is what `camonitor`, `caget` and archivers write. Nothing here knows what a trace is.
#![tactic(auto)]

mod archive;
mod camonitor;
mod clock;
mod dates;
mod export;
mod fields;
mod held;
mod json;
pub mod laws;
mod log;
mod numbers;
mod patterns;
mod places;
mod polled;
mod ratios;
mod rows;
mod samples;
mod scales;
mod severities;
mod stamps;
mod table;
mod texts;
mod units;
mod values;

pub use clock::{date_digits, day_digits, time_text};
pub use held::Values;
pub use log::{Log, LogForm};
pub use numbers::number_of;
pub use patterns::Pattern;
pub use places::Scaled;
pub use rows::Row;
pub use samples::{Cause, LogLine, Sample, SampleValue, Severity, Stamp};
pub use scales::Scale;
pub use stamps::moment_of;
pub use units::{Units, Word};
pub use values::{Read, items_of, values_of};
