//! Tests of logs of runs, of runs that go on from them, of runs by checkpoints, and of audits of traces.
#![tactic(auto)]

#[cfg(test)]
mod audits;
#[cfg(test)]
mod ckpt;
#[cfg(test)]
mod log;
#[cfg(test)]
mod resume;
