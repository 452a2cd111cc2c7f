//! What a program says of its variables: the constants that they are compared with and may hold, which of them flow into each other,
//! what it gets and puts, its delays, its formats, and where its state statements lead. A search makes its alphabet of that.
#![tactic(auto)]

mod comparisons;
mod expressions;
mod facts;
mod formats;
mod operands;
mod programs;
mod statements;

pub use facts::{ExpressionFacts, Turn};
pub use formats::Format;
pub use programs::facts_of;
