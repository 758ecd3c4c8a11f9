//! Tests of runs whose subthreads are walked twice, where a walk, or a sum of data at rest, is disturbed as a fault of the
//! machine would. They stand in a crate of their own, since a crate with tests is proved twice.
#![tactic(auto)]

#[cfg(test)]
mod disturbed;
#[cfg(test)]
mod flawed;
#[cfg(test)]
mod rolled;
