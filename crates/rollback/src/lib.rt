//! Checkpoint and recovery: the state is copied at cuts, and a fault rolls back all that began after the copy. It is
//! defined to be held against selective restart.
//!
//! These are the definitions and their laws. Rolling back to a copy of the whole state is the conventional way that
//! Elnozahy, Alvisi, Wang and Johnson survey ("A survey of rollback-recovery protocols in message-passing systems",
//! 2002).
#![tactic(auto)]

pub mod driving_laws;
pub mod laws;
pub mod state_laws;
