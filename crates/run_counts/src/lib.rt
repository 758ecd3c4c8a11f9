//! A run in which the lines are noted whose arithmetic left 64 bits or divided by 0, each with
//! the position where it did first and the control variables there; and one in which the turns of loops are counted.
#![tactic(auto)]

mod counting;
mod data;
mod operators;
mod turns;
mod values;

pub use counting::{Counting, Slip};
pub use turns::{Loop, Turned, Turns};
pub use values::{Kept, Values};
