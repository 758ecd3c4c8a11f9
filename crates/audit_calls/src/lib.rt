//! The top call that audits the trace of a run, over a shelf, two sinks and a gate that are handed in.
#![tactic(auto)]

pub mod laws;
mod reading;
mod top;
mod trial;
mod verdict;

pub use top::audit_run;
