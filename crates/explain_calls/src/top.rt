// The top call: all that `gprs_view explain` does.
ghost use Rattle.std.specs.Prelude.{◌≡◌, None};
ghost use Rattle.command_line.specs.meaning.Words.{texts};
ghost use Rattle.command_line.specs.Words.{IsWithinLimits};
ghost use Rattle.call_cases.specs.meaning.Answers.{change_of, no_journal};
ghost use Rattle.call_cases.specs.Decided.{work_of};
ghost use Rattle.call_cases.specs.declared.lines.Tool.TheVariants.{GprsView};
ghost use Rattle.call_cases.specs.Refusals.{refusal_line, refusal_status};
ghost use Rattle.explain_calls.specs.meaning.Commands.{explained_by};
ghost use Rattle.explain_calls.specs.meaning.Explains.{Explains};
ghost use Rattle.explain_calls.specs.Endings.{RunTold, TellEnds};

use crate::reading::{Explained, read_explained};
use crate::running::tell_of;
use call_cases::{Request, Tool, end_status, refuse, stop_by};
use gp_base::{Shelf, Sink, SinkFault, put_all};
use std::alloc::Global;

// Tells a run of a program with this text, and answers the status.
fn tell_run<O: Sink, E: Sink>(
    alloc: Global,
    request: &Request,
    source: &[u8],
    out: &mut O,
    err: &mut E,
) -> u8
    requires { IsWithinLimits request.now.asked }
    ensures { RunTold (work_of request.now) (change_of O.written O.faults out.old out.new) (change_of E.written E.faults err.old err.new) result }
{
    let Ok(told) = tell_of(alloc, request, source) else {
        return stop_by(Tool::GprsView, SinkFault::OutOfMemory, err);
    };
    match put_all(out, told.text.as_slice()) {
        Ok(()) => end_status(told.end),
        Err(fault) => stop_by(Tool::GprsView, fault, err),
    }
}

// Tells a refusal, and answers the status.
fn tell_refusal<O: Sink, E: Sink>(explained: &Explained, out: &mut O, err: &mut E) -> u8
    ensures { TellEnds explained.now.text (refusal_status explained.now.refusal) (refusal_line GprsView explained.now.refusal)
        (change_of O.written O.faults out.old out.new) (change_of E.written E.faults err.old err.new) result }
{
    match put_all(out, explained.text.as_slice()) {
        Ok(()) => refuse(Tool::GprsView, &explained.refusal, err),
        Err(fault) => stop_by(Tool::GprsView, fault, err),
    }
}

/// Tells in words what a run on one thread of the program that the words name would come to, over what is handed in, and
/// answers the status. The words are those after the program's name. A list of faults is read and judged, and strikes
/// nothing.
///
/// The status is 0 where the run ends, 5 where it is stuck, 6 where it has spent its limits, 1 where memory ran out, 2
/// where the words are not those of `explain`, 3 where the program is refused, 4 where a file beside it is refused, 7
/// where a file could not be read, and 8 where a write failed.
///
/// At 0 and 2 to 7 `out` took what is told, and at each status a part of it. At 2, 3, 4 and 7 `err` took one line that
/// tells why; at 8 it took such a line, unless it failed itself.
pub fn explain_run<H: Shelf, O: Sink, E: Sink>(
    alloc: Global,
    words: &[String],
    shelf: &mut H,
    out: &mut O,
    err: &mut E,
) -> u8
    ensures explains { Explains (record {
      words = texts words.now;
      files = H.files shelf.old;
      failed = H.failed shelf.old;
      failed' = H.failed shelf.new;
      out = change_of O.written O.faults out.old out.new;
      err = change_of E.written E.faults err.old err.new;
      status = result;
      journal = no_journal;
    }) }

    // The shelf is not read for other words.
    ensures unread { explained_by (texts words.now) ≡ None → shelf.new ≡ shelf.old }
{
    match read_explained(alloc, words, shelf) {
        Ok(read) => tell_run(alloc, &read.request, read.source.as_slice(), out, err),
        Err(explained) => tell_refusal(&explained, out, err),
    }
}
