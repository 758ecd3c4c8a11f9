//! Crews whose workers share their tasks over a board: threads that are started for each board and joined again, or
//! lasting threads that get boards over a channel.
#![tactic(auto)]

mod boards;
mod crossing;
mod draining;
mod enter;
mod flight;
mod load;
mod messages;
mod pipe;

pub use boards::run_board;
pub use draining::work_board;
pub use enter::Enter;
pub use pipe::PipeCrew;
