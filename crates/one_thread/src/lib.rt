//! The plain run: a batch on one thread, in the order of the token, without faults.
#![tactic(auto)]

mod cells;
mod data;
mod footprints;
mod left;
mod names;
mod opening;
mod owners;
mod reckoning;
mod resting;
mod run;
mod seats;
mod sleeping;
mod threads;
mod turns;
mod variables;
mod walk;
mod work;

pub use data::register_value;
pub use opening::all_registers;
pub use reckoning::{Plainly, Reckon};
pub use run::{Move, PlainRun, Step, run_plain, run_reckoned};
pub use seats::Seat;
pub use threads::Run;
pub use walk::Walk;
