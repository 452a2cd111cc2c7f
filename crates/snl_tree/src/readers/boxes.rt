//! Trees put into boxes, one function for each form. What reads the parts of a tree hands them on to one of
//! these, and so has no whole tree among its own values: its proof would tell at each step what becomes of it.

pub mod declarations;
pub mod definitions;
pub mod expressions;
pub mod functions;
pub mod programs;
pub mod statements;
