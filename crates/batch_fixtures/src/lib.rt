//! Batches that tests of several crates run, and how the words and files of a call are made. It promises nothing but that
//! files are put as they are named: it is called by tests alone.
#![tactic(auto)]

pub mod files;
pub mod programs;
