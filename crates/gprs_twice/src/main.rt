//! Runs batch programs as `gprs` does, with each subthread walked twice.
#![tactic(auto)]

mod calls;

use call_cases::{OUT_OF_MEMORY, Tool, tell_line};
use calls::status_by;
use gp_base::Seq;
use process_io::{FileShelf, StdSink, words_of};
use std::io;
use std::process::ExitCode;

fn main(rt: HostRuntime) -> ExitCode {
    let mut err = StdSink::new(rt.stderr());
    // Words that are not text are those of no command.
    let words = match words_of(&rt) {
        Ok(words) => words,
        Err(fault) if fault.kind() == io::ErrorKind::OutOfMemory => {
            return ExitCode::from(tell_line(Tool::Gprs, &mut err, OUT_OF_MEMORY, 1));
        }
        Err(_) => Vec::new(rt.alloc()),
    };
    let mut shelf = FileShelf::new(&rt);
    let mut out = StdSink::new(rt.stdout());
    let flaws = Seq::new(rt.alloc());
    let status = status_by(&rt, &words, &mut shelf, flaws, &mut out, &mut err);
    ExitCode::from(status)
}
