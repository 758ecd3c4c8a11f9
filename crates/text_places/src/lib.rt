//! Places in the text of a program: the line and the column of a byte, the line that is shown with a mark under that
//! byte, where a fault of lexing or of parsing stands, where a line begins, and which tokens could stand where
//! a program can't go on.
#![tactic(auto)]

mod faults;
mod going;
mod lines;
mod names;
mod place;

pub use faults::{is_quoted_at, lex_place, parse_place};
pub use going::expected;
pub use lines::{push_marked, push_shown};
pub use names::{bytes_of, first_place};
pub use place::{Place, line_before, place_of};
