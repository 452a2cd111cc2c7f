//! The virtual machine: the memory of a run, which has all that a run reads and changes, and the execution of flat code on it.
#![tactic(auto)]

mod all_homes;
mod asking;
mod blocks;
mod calling;
mod calls;
mod conditions;
mod contexts;
mod counting;
mod elements;
mod fused;
mod fusing;
mod homes;
pub mod laws;
mod linking;
mod marks;
mod memory;
mod narrowing;
mod operands;
mod parts;
mod picturing;
mod pieces;
mod queues;
mod quick;
mod raising;
mod reckoning;
mod room;
mod rows;
mod running;
mod single;
mod stacks;
mod steps;
mod stores;
mod telling;
mod words;

pub use all_homes::AllHomes;
pub use blocks::perform;
pub use conditions::{holds_by, pass_by};
pub use contexts::{CodeContext, PieceContext};
pub use counting::Steps;
pub use fused::{Fused, FusedCode, Operation};
pub use fusing::fuse;
pub use homes::Homes;
pub use linking::{fetch, fill, notice};
pub use marks::Marks;
pub use memory::Memory;
pub use operands::Operands;
pub use parts::{Range, Test, is_empty_at, test_at};
pub use queues::Queue;
pub use room::words_with;
pub use rows::Rows;
pub use running::evaluate;
pub use stores::{SetMemory, Store};
pub use words::{
    Adjustment, Charge, adjust, checked_subscript, operate, operate_prefix, put_number, spend, wait,
};
