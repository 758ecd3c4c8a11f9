//! The top calls that run a batch (`run`, `one`, `check`, `soak`, `ckpt`, `log`), over a shelf, two sinks and a gate that are
//! handed in.
#![tactic(auto)]

mod basis;
mod ckpt;
mod crews;
mod log;
mod logged;
mod plain;
pub mod plan;
mod reading;
mod run;
mod texts;
mod top;
mod waiting;

pub use ckpt::ckpt_run;
pub use log::{log_rechecked, log_run};
pub use top::gprs_run;
pub use waiting::{gprs_run_pipe, run_rechecked};
