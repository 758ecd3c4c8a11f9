//! The texts of a run: its printed lines, what follows them, the trace of its events, and the summary of a batch that
//! the program made itself.
#![tactic(auto)]

mod counts;
mod lines;
mod records;
mod restarts;
mod soak;
mod tail;
mod trace;

pub use lines::{is_printed, printed, push_lines, push_number, push_spaced};
pub use soak::{is_soak_text, soak_text};
pub use tail::{is_tail_text, plain_tail_text, tail_text};
pub use trace::trace_text;
