//! The dependence of subthreads: which are in conflict, which are redone together, the restarts that faults make, which
//! journals of a run are lawful, and what a run that applies late and undoes parts leaves.
//!
//! Conflict is Bernstein's ("Analysis of programs for parallel processing", 1966). That only the dependents of a faulty
//! subthread are redone, and that subthreads retire in order, is the selective restart of Gupta, Sridharan and Sohi
//! ("Globally precise-restartable execution of parallel programs", PLDI 2014), and issue and retirement in order around
//! a run out of order is Smith and Pleszkun's ("Implementing precise interrupts in pipelined processors", 1988).
#![tactic(auto)]

pub mod fold_laws;
pub mod laws;
mod marks;
mod sharing;

pub use marks::{conflict, mark};
