//! Shows the runs of batch programs: the order of their subthreads, why one was redone, and a picture; and tells in words
//! what a program and its files come to.
#![tactic(auto)]

mod calls;

use call_cases::{OUT_OF_MEMORY, Tool, tell_line};
use calls::status_for;
use process_io::{FileShelf, StdSink, words_of};
use std::io;
use std::process::ExitCode;

fn main(rt: HostRuntime) -> ExitCode {
    let mut err = StdSink::new(rt.stderr());
    // Words that are not text are those of no command.
    let words = match words_of(&rt) {
        Ok(words) => words,
        Err(fault) if fault.kind() == io::ErrorKind::OutOfMemory => {
            return ExitCode::from(tell_line(Tool::GprsView, &mut err, OUT_OF_MEMORY, 1));
        }
        Err(_) => Vec::new(rt.alloc()),
    };
    let mut shelf = FileShelf::new(&rt);
    let mut out = StdSink::new(rt.stdout());
    ExitCode::from(status_for(rt.alloc(), &words, &mut shelf, &mut out, &mut err))
}
