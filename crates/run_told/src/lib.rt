//! What the text of a finished run tells: its printed lines, and the cells of its records.
#![tactic(auto)]

mod cut;
mod told;

pub use told::{Told, told_by};
