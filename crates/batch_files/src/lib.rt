//! Files of records, feeds and faults, read exactly: what their rows mean, or the first row that breaks a rule.
#![tactic(auto)]

mod fault;
mod faults;
mod feeds;
mod numbers;
mod records;
mod rows;

pub use fault::{FileFault, FileKind};
pub use faults::read_faults;
pub use feeds::read_feed;
pub use records::read_records;
