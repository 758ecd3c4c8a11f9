//! What the words of a call over a database ask for, read exactly.
#![tactic(auto)]

mod wish;
mod words;

pub use wish::{Batch, Wish, read_wish};
