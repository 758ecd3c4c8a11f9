//! Laws that join the top calls.
#![tactic(auto)]

pub mod laws;
