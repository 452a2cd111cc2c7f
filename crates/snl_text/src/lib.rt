//! The tokens of a source in the State Notation Language, each with its place.
//!
//! [`lex`] cuts the whole source into lexemes, or answers the first place where none can stand. A token borrows
//! its bytes from the source; [`whole_value`], [`decimal_value`] and [`character_value`] say what it is worth.
//! The rules are told in `docs/LANGUAGE.md`, "Source text".
#![tactic(auto)]

mod classes;
mod faults;
mod kinds;
pub mod laws;
mod lexemes;
mod lexer;
mod markers;
mod numbers;
mod quotes;
mod scanner;
mod signs;
mod tokens;
mod words;

pub use classes::is_blank;
pub use faults::LexFault;
pub use kinds::Kind;
pub use lexer::{SOURCE_LIMIT, lex};
pub use numbers::{DecimalValue, decimal_value, whole_value};
pub use quotes::character_value;
pub use tokens::{Lexed, Pos, Token};
