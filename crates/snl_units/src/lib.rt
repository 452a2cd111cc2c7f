//! The file of units: what the whole numbers of a trace stand for.
//!
//! A line of it is a word, the name of a channel, and what is said of that. [`units_of`] reads all lines, or says which is the first that is
//! wrong.
//! [`value_of`] makes the whole number of a trace of a value that a person gives, `shown` goes the other way, and a [`Comparison`] tells where a trace has other units.
#![tactic(auto)]

mod comparison;
mod decimals;
mod differences;
mod exact;
mod faults;
pub mod laws;
mod numbers;
mod parser;
mod puts;
mod quoted;
mod same;
mod shown;
mod units;
mod values;
mod written;

pub use comparison::Comparison;
pub use faults::{LineFault, PutFault, UnitsFault, ValueFault};
pub use parser::units_of;
pub use puts::line_in_units;
pub use shown::SHOWN;
pub use units::{ChannelUnits, TextNumber, Unit};
pub use values::value_of;
pub use written::push_quoted;
