// How a call ends that went on with a run, or stopped.
ghost use Rattle.call_cases.specs.meaning.Answers.{change_of};
ghost use Rattle.resume_calls.specs.inner.Resting.{EndsSo, StopsSo};

use call_cases::{OUT_OF_MEMORY, Tool, WRITE_FAULT, refuse, refused_input, tell_line};
use gp_base::{Name, Sink};
use gp_resume::ResumeStop;
use std::alloc::Global;

// Tells why a call stopped, and answers the status of that; the file of the log has this name.
fn stop_with<E: Sink>(alloc: Global, stop: ResumeStop, log: &Name, err: &mut E) -> u8
    ensures { StopsSo log.now stop (change_of E.written E.faults err.old err.new) result }
{
    match stop {
        ResumeStop::LogLine(row) => refuse(Tool::Gprs, &refused_input(alloc, log, 7, row), err),
        ResumeStop::LogFit(row) => refuse(Tool::Gprs, &refused_input(alloc, log, 8, row), err),
        ResumeStop::WriteFault => tell_line(Tool::Gprs, err, WRITE_FAULT, 8),
        ResumeStop::OutOfMemory => tell_line(Tool::Gprs, err, OUT_OF_MEMORY, 1),
    }
}

/// The status of a call whose text was written, or which stopped; the file of the log has this name. Where it stopped,
/// `err` took the line that tells why.
pub fn status_by<E: Sink>(alloc: Global, put: Result<u8, ResumeStop>, log: &Name, err: &mut E) -> u8
    ensures { EndsSo log.now put (change_of E.written E.faults err.old err.new) result }
{
    match put {
        Ok(status) => status,
        Err(stop) => stop_with(alloc, stop, log, err),
    }
}
