//! Flat code: the tasks of an accepted program as lists of instructions, which do what the tree does.
#![tactic(auto)]

mod code;
mod control;
mod expressions;
mod instrs;
pub mod laws;
mod lowering;
mod parts;
mod scope;
mod statements;
mod tables;
mod variables;

pub use code::Code;
pub use instrs::{Calc, CellIndex, Deed, Does, Forking, Instr, Shape};
pub use lock_checker::CellRange;
pub use lowering::lower;
