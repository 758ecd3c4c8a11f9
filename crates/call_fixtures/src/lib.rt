//! What tests of the top calls share: a call with its words, files and devices, what it answers, and whether that is what
//! it is to answer. It promises nothing: it is called by tests alone.
#![tactic(auto)]

pub mod answers;
pub mod cases;
pub mod crews;
pub mod entries;
pub mod plans;
pub mod runs;
