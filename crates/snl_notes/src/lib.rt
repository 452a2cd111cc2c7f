//! What stands behind the messages about a source: of each its place with a column, the line of the source, and what helps.
#![tactic(auto)]

mod advice;
mod arguments;
mod blocks;
mod bytes;
mod calls;
mod columns;
mod cures;
mod excerpts;
mod faulty;
mod formats;
mod forms;
mod helps;
mod messages;
mod near;
mod notes;
mod numbered;
mod objects;
mod refused;
mod remarked;
mod syntax;
mod tokens;

pub use forms::NoteForm;
pub use notes::{Read, notes_of};
pub use remarked::objects_of;
