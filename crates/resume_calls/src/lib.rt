//! The top call that goes on with a run from the log of what has retired in it, over a shelf, two sinks and a gate that
//! are handed in.
#![tactic(auto)]

mod endings;
mod halted;
pub mod laws;
mod plan;
mod reading;
mod rest;
mod top;
mod waves;

pub use top::resume_run;
