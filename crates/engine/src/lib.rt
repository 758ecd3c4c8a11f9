//! The engine: a whole run that restarts selectively. Subthreads are issued in the order of the plain run, run by a
//! crew out of order, and retired in order; where a fault strikes, what it ruined is undone and redone, and nothing
//! else.
#![tactic(auto)]

mod driver;

pub use driver::{drive, drive_noted};
pub use reorder_list::{EngineStop, Report, StopWhy};
