//! Where the threads of the plain run stand before a position, for what shows or tells of a run.
#![tactic(auto)]

mod standing;

pub use standing::{Standing, stand_before};
