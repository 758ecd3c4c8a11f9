//! Tests of runs by each crew: runs that faults strike, batches with settles, orders in which tasks come back, and
//! tasks that run at the same time.
#![tactic(auto)]

#[cfg(test)]
mod gates;
#[cfg(test)]
mod schedules;
#[cfg(test)]
mod scripted;
#[cfg(test)]
mod settles;
#[cfg(test)]
mod struck;
#[cfg(test)]
mod waiting;
