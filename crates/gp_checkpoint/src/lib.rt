//! Checkpoint and recovery, the conventional way beside which selective restart is measured: the state is copied at
//! cuts, and a fault rolls back all from the greatest cut on that is not after what it strikes.
//!
//! Rolling back to a copy of the whole state is one of the ways that Elnozahy, Alvisi, Wang and Johnson survey ("A
//! survey of rollback-recovery protocols in message-passing systems", ACM Computing Surveys, 2002).
#![tactic(auto)]

mod driver;

pub use driver::ckpt_drive;
pub use reorder_list::{EngineStop, Report, StopWhy};
