//! Goes on with a run from the log of its retirements, without running the positions again that the log has.
//!
//! The rows of the log are read one after another. Each has to fit the run that the rows before it leave: the next
//! subthread of that run takes its turn, its control is walked without its data, and the data are those of the row.
//! After the last row the run goes on by a crew, in waves: the next subthread, with each that follows it in the order
//! and can begin before any of them was run.
#![tactic(auto)]

mod beginning;
mod course;
mod drive;
mod fitting;
mod groups;
pub mod laws;
mod log;
mod numbers;
mod reading;
mod replay;
mod row;
mod stop;
mod turning;
mod waves;

pub use course::{Opening, PacedWork};
pub use drive::{put, resume_drive, resume_paced};
pub use reading::ends_no_line;
pub use stop::ResumeStop;
