//! A whole run: subthreads are issued in the order of the plain run, run by a crew out of order, redone where a fault
//! strikes, and retired in order. What is redone, and how it is undone, is by the recovery that the run has: selective
//! restarts (Gupta, Sridharan and Sohi, "Globally precise-restartable execution of parallel programs", PLDI 2014), or
//! rollbacks to checkpoints, beside which these are measured.
#![tactic(auto)]

mod batch;
mod calls;
mod driver;
mod engine;
mod engine_calls;
mod laws;
mod parts;
mod recovery;
mod rounds;

pub use batch::BatchRun;
pub use calls::{Calls, Halt, Issued};
pub use driver::drive_by;
pub use engine::Engine;
pub use laws::{settled_number_law, task_kept_law};
pub use recovery::Recovery;
pub use reorder_list::{EngineStop, Report, StopWhy};
