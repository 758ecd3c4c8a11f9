//! A batch that the program makes itself: moves between accounts, drawn from a start, with faults that strike them.
#![tactic(auto)]

mod draws;
mod files;
mod program;
mod rows;

pub use files::soak_files;
