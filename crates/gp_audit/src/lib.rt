//! Reads the trace of one run and says whether the run was lawful. How a run is made it does not share with the engine;
//! both ask `dependence` whether two footprints are in conflict.
#![tactic(auto)]

mod allowed;
mod answer;
pub mod laws;
mod line;
mod noted;
mod numbers;
mod reading;
mod redo;
mod replay;
mod state;
mod verdict;

pub use answer::{verdict_status, verdict_text};
pub use line::{TraceFault, TraceLine};
pub use reading::read_trace;
pub use replay::restarts_of;
pub use verdict::{Verdict, audit};
