//! Threads that have ended and need no look any more: beside each thread of a table stands how far the threads from it on
//! have ended and have not passed, so that a walk goes past them in one step.
//!
//! These are the definitions and their laws. The two crates whose code moves the token keep such numbers each, so that a
//! run of many threads that end one after another does not look at all of them at each turn.
#![tactic(auto)]

pub mod laws;
