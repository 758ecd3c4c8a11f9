//! What is told of a run after its front: where it got stuck or spent its limits, what its threads hold, how much of it
//! could go on side by side, which arithmetic was not exact, and what faults strike. No clause says which of them are
//! told; tests do.
#![tactic(auto)]

mod cells;
mod counts;
mod details;
mod first_cells;
mod halted;
mod handles;
mod indices;
mod operators;
mod slips;
mod sources;
mod spent;
mod strikes;

pub use counts::push_counts;
pub use details::push_stuck_details;
pub use first_cells::push_first_cells;
pub use halted::Halted;
pub use slips::{Noted, push_slips};
pub use spent::push_spent_details;
pub use strikes::push_strikes;
