//! The subthreads that have begun and not retired, in the order of their positions, and what a run reports.
//!
//! The list is a reorder buffer in software: entries come in order, their results come in any order, and they leave in
//! order (J. E. Smith and A. R. Pleszkun, "Implementation of precise interrupts in pipelined processors", ISCA 1985),
//! as the reorder list of Gupta, Sridharan and Sohi ("Globally precise-restartable execution of parallel programs",
//! PLDI 2014).
#![tactic(auto)]

mod entry;
pub mod laws;
mod marks;
mod report;
mod rol;
mod search;
pub mod touched;

pub use entry::{Entry, State};
pub use report::{EngineStop, Report, StopWhy};
pub use rol::Rol;
