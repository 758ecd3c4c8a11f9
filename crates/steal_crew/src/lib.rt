//! A crew whose workers steal from one another: each has a deque of numbers of desks, and where its own is empty it
//! takes numbers from the others'. A number is a hint alone: the board says who runs a task.
#![tactic(auto)]

mod boards;
mod counts;
mod deques;
mod sharing;
mod steal;
mod working;

pub use boards::run_steal;
pub use steal::StealCrew;
