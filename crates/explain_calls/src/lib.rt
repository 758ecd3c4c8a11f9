//! The call of `gprs_view explain`: what a run on one thread would come to, told in words, over a shelf and two sinks
//! that are handed in.
#![tactic(auto)]

mod file_names;
pub mod laws;
mod reading;
mod refused;
mod running;
mod top;
mod unread;
mod usage;
mod uses;
mod words;

pub use top::explain_run;
pub use words::is_explain;
