//! Cures of syntax errors: one token more, another one, or one fewer, so that the first fault of a source stands farther on, or is gone.
//!
//! [`cure_at`] tries them at a token that cannot stand, by the parser alone.
#![tactic(auto)]

mod cure_search;
mod cured_tokens;
mod cures;
pub mod laws;
mod reach;

pub use cure_search::{Cured, cure_at};
pub use cured_tokens::put_count;
pub use cures::{Cure, CureToken};
pub use reach::Reach;
