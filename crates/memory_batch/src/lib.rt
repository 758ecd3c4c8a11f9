//! A batch over files in memory: what its run comes to, with the new cells of the records that come from files.
#![tactic(auto)]

mod batch;
mod files;
mod run;
mod sourced;

pub use batch::{Finished, Unfinished, finish, judge};
pub use run::Ended;
