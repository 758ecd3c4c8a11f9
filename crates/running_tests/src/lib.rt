//! Tests of what runs: code, tasks, crews, the store, turns, restarts, and the texts of runs. They stand in a crate of
//! their own, above the crates that they call: a crate with tests is proved twice.
#![tactic(auto)]

#[cfg(test)]
mod adders;
#[cfg(test)]
mod audits;
#[cfg(test)]
mod codes;
#[cfg(test)]
mod crews;
#[cfg(test)]
mod dependents;
#[cfg(test)]
mod named;
#[cfg(test)]
mod outcome;
#[cfg(test)]
mod plain_runs;
#[cfg(test)]
mod programs;
#[cfg(test)]
mod restarts;
#[cfg(test)]
mod soak;
#[cfg(test)]
mod stores;
#[cfg(test)]
mod tails;
#[cfg(test)]
mod tasks;
#[cfg(test)]
mod turns;
