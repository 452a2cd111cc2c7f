//! The readers of tokens, one for each form of the grammar. Each moves a cursor on, and says exactly what it
//! reads by a reader of the definitions.

pub mod boxes;
pub mod cursor;
pub mod declarations;
pub mod definitions;
pub mod expressions;
pub mod functions;
pub mod kinds;
pub mod options;
pub mod parts;
pub mod programs;
pub mod room;
pub mod statements;
