//! The words of a call of `snl`: what they ask for, or what is wrong with them.
//!
//! Words such as `+s` and `-w` are options of the language (SNL Reference, "Option"). They are taken out first, wherever they
//! stand. The first word of the rest says what is asked for; `clap` reads what follows it.
#![tactic(auto)]

mod afters;
mod arguments;
mod ats;
mod calls;
mod checks;
mod commands;
mod explains;
mod forms;
mod found;
mod joins;
mod language;
mod misplaced;
mod runs;
mod sames;
mod searches;
mod tests;
mod texts;
mod traces;
mod words;

pub use afters::{AfterWords, StopWords};
pub use ats::AtWords;
pub use calls::{Call, CallFault, read_call};
pub use checks::{CheckWords, Format};
pub use joins::JoinWords;
pub use misplaced::misplaced_text;
pub use runs::RunWords;
pub use sames::SameWords;
pub use searches::{AlphabetWords, ChannelValues, LimitWords, PartWord, SearchWords, WantedWords};
pub use tests::TestWords;
pub use traces::{MeaningWords, NamedNumber, NamedText, SpanWords, TraceWords};
pub use words::{CoverWords, GraphWords, Word};
