//! What every call of the program shares: what its words ask for, the files that are read for that, the case that a
//! call comes to, the lines that tell how it ended, and the record of what a call is promised to do.
#![tactic(auto)]

mod agreed;
mod cases;
mod endings;
mod feeds;
mod inputs;
mod lines;
mod reading;
mod work;

pub use agreed::Reading;
pub use cases::one_case;
pub use endings::{
    Outcome, empty_journal, end_status, plain_outcome, refuse, refused_outcome, stop_by,
};
pub use feeds::copied_feeds;
pub use inputs::{read_file, refused_input};
pub use lines::{OUT_OF_MEMORY, Tool, WRITE_FAULT, end_with, tell_about, tell_line};
pub use reading::{Refusal, read_asked, read_beside, read_for, read_program, read_request};
pub use work::{Request, runs};
