//! The top call of `gprs_view`, which shows a run: all that the program does, over a shelf and two sinks that are
//! handed in.
#![tactic(auto)]

pub mod laws;
mod reading;
mod top;
mod words;

pub use top::view_run;
