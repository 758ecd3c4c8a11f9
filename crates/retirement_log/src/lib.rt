//! The log of retirements: a row for each position that retires, with all that a later run needs to go on from it.
#![tactic(auto)]

pub mod laws;
mod notes;
mod rows;

pub use notes::LogNotes;
