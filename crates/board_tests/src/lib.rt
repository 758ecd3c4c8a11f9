//! Tests of the boards of jobs: desks that are drawn, and desks that are claimed.
#![tactic(auto)]

#[cfg(test)]
mod claims;
#[cfg(test)]
mod draws;
#[cfg(test)]
mod numbers;
