//! The top calls that walk each subthread twice and compare the walks, over a shelf, two sinks and a gate that are handed
//! in.
#![tactic(auto)]

mod lines;
mod log;
mod top;

pub use log::{log_told, twice_log_run};
pub use top::{run_told, twice_run};
