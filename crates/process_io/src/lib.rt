//! The outside as a process has it: the files of the present folder, the standard streams, and the words of the call.
#![tactic(auto)]

mod file_shelf;
mod std_sink;
mod words;

pub use file_shelf::FileShelf;
pub use std_sink::StdSink;
pub use words::words_of;
