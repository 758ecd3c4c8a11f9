// How a call ends: its answer, and the line that tells why there is nothing to do.
ghost use Rattle.std.specs.Prelude.{◌≡◌, ℕ, List, []};
ghost use Rattle.call_cases.specs.meaning.Answers.{Change, IsEmpty, change_of};
ghost use Rattle.call_cases.specs.Answers.{PutFor, RunEnds, StopsBy};
ghost use Rattle.call_cases.specs.Refusals.{RefusalEnds, RefusalEndsOf};
ghost use Rattle.call_cases.specs.meaning.RunCommands.{end_status};

use crate::lines::{OUT_OF_MEMORY, Tool, WRITE_FAULT, tell_about, tell_line};
use crate::reading::Refusal;
use gp_base::{End, Journal, Seq, Sink, SinkFault};
use std::alloc::Global;

/// The answer of a call: its status, and the journal of the run.
#[derive(Drop)]
pub struct Outcome {
    pub status: u8,
    pub journal: Journal,
}

/// A journal of no event.
pub fn empty_journal(alloc: Global) -> Journal
    ensures { IsEmpty result }
{
    Journal {
        events: Seq::new(alloc),
        restarts: Seq::new(alloc),
    }
}

/// The status of a run that ends so.
pub fn end_status(end: End) -> u8
    ensures { result ≡ end_status end }
{
    match end {
        End::Finished => 0,
        End::Stuck { .. } => 5,
        End::Spent(_) => 6,
    }
}

/// Tells why there is nothing to do, and answers the status. It is 8 where the write of that line fails, and 1 where
/// memory runs out.
pub fn refuse<E: Sink>(tool: Tool, refusal: &Refusal, err: &mut E) -> u8
    ensures { RefusalEndsOf tool (change_of E.written E.faults err.old err.new) refusal.now result }
{
    match refusal {
        Refusal::Usage => tell_line(tool, err, tool.usage(), 2),
        Refusal::BadProgram(line) => tell_line(tool, err, line.as_slice(), 3),
        Refusal::BadInput(line) => tell_line(tool, err, line.as_slice(), 4),
        Refusal::ReadFault(name) => tell_about(tool, err, b"read fault ", name.as_slice(), 7),
        Refusal::OutOfMemory => tell_line(tool, err, OUT_OF_MEMORY, 1),
    }
}

/// How a call of `gprs` ended that had nothing to do: `err` took the line that tells why, and there is no journal.
pub fn refused_outcome<E: Sink>(alloc: Global, refusal: Refusal, err: &mut E) -> Outcome
    ensures ends { RefusalEnds (change_of E.written E.faults err.old err.new) refusal result.status }
    ensures empty { IsEmpty result.journal }
{
    let status = refuse(Tool::Gprs, &refusal, err);
    Outcome {
        status,
        journal: empty_journal(alloc),
    }
}

/// Tells why a write stopped, and answers the status of that.
pub fn stop_by<E: Sink>(tool: Tool, fault: SinkFault, err: &mut E) -> u8
    ensures { StopsBy tool fault (change_of E.written E.faults err.old err.new) result }
{
    match fault {
        SinkFault::Failed => tell_line(tool, err, WRITE_FAULT, 8),
        SinkFault::OutOfMemory => tell_line(tool, err, OUT_OF_MEMORY, 1),
    }
}

/// How a call of `gprs` ended that runs over no journal, by the answer to the write of its text: the status, or why the
/// write stopped. Then `err` took the line that tells it.
pub fn plain_outcome<E: Sink>(alloc: Global, put: Result<u8, SinkFault>, err: &mut E) -> Outcome
    ensures ends { (text : List ℕ) (due : ℕ) (out : Change) → PutFor text due out put → RunEnds text [] due out (change_of E.written E.faults err.old err.new) result.status }
    ensures empty { IsEmpty result.journal }
{
    match put {
        Ok(status) => Outcome {
            status,
            journal: empty_journal(alloc),
        },
        Err(fault) => {
            let status = stop_by(Tool::Gprs, fault, err);
            Outcome {
                status,
                journal: empty_journal(alloc),
            }
        }
    }
}
