//! Runs of the tasks of a batch on flat code: what a subthread does on what it is given.
#![tactic(auto)]

mod attempts;
mod begins;
mod cells;
mod control;
mod damage;
mod deeds;
mod erring;
mod flaw;
mod footprints;
mod ground;
mod job;
pub mod laws;
mod lending;
mod names;
mod notes;
mod numbers;
mod places;
mod recheck;
mod run;
mod setting;
mod task;
mod values;
mod walk;

pub use control::control_of;
pub use flaw::{Flaw, Made};
pub use footprints::lock_footprint;
pub use lending::{lend, room_for};
pub use recheck::{Disturbance, Recheck};
pub use run::{run_counted, run_task};
pub use setting::set_cells;
pub use task::{Done, Task, Work};
