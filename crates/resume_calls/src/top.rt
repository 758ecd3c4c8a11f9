// The top call: all that `resume` does.
ghost use Rattle.std.specs.Prelude.{◌≡◌, ◌≤◌, None, length};
ghost use Rattle.gp_base.specs.declared.limits.TheConstants.{MOST_FILE_BYTES};
ghost use Rattle.command_line.specs.meaning.Words.{texts};
ghost use Rattle.command_line.specs.meaning.ResumeWords.{resumed_by};
ghost use Rattle.call_cases.specs.meaning.Answers.{IsEmpty, change_of};
ghost use Rattle.call_cases.specs.Decided.{IsSound, program_in};
ghost use Rattle.call_cases.specs.meaning.Headline.{Headline};
ghost use Rattle.resume_calls.specs.meaning.ResumeCommands.{commands};
ghost use Rattle.resume_calls.specs.inner.Resting.{EndsRest};

use crate::endings::status_by;
use crate::halted::Halted;
use crate::reading::read_halted;
use crate::waves::put_resumed;
use call_cases::{Outcome, empty_journal, refused_outcome};
use gp_base::{Gate, Shelf, Sink};
use std::alloc::Global;
use std::thread::Threads;

// Goes on with a run that was halted, and writes the text that is still to come; where it stops, `err` takes the line
// of that.
fn go_on<R: Threads + Sync, O: Sink, E: Sink, G: Gate>(
    rt: &R,
    alloc: Global,
    halted: Halted,
    out: &mut O,
    err: &mut E,
    gate: &G,
) -> Outcome
    requires sound { IsSound halted.request.asked (program_in halted.request) halted.request.inputs }
    requires short { length halted.text ≤ MOST_FILE_BYTES }
    ensures ends { EndsRest halted (change_of O.written O.faults out.old out.new) (change_of E.written E.faults err.old err.new) result.status }
    ensures empty { IsEmpty result.journal }
{
    let Halted { request, log, text } = halted;
    let put = put_resumed(rt, alloc, request, &text, out, gate);
    Outcome {
        status: status_by(alloc, put, &log, err),
        journal: empty_journal(alloc),
    }
}

/// Goes on with a run from the log of what has retired in it, without running the positions again that the log has,
/// over what is handed in. The words are those after the program's name: they ask for the run as those of `one` do, and
/// name the file of the log.
///
/// The status is 0, 5 or 6 as for `gprs_run`, by how the run ends. 1 to 4, 7 and 8 are as there; 4 also tells that the
/// file of the log is refused, at its first row that is no row (kind 7), or that is not one of a run of this program
/// from these inputs (kind 8). That file is read last. What its rows say that fit is taken as it stands.
///
/// At 0, 5 and 6 `out` took the text that is still to come: the printed lines of the positions after the last row, and
/// the tail of the whole run; before them the first line, where the log has no row. `err` took nothing then. At 2, 3, 4
/// and 7 `out` took nothing, and `err` one line that tells why; at 8 `err` took such a line, unless it failed itself.
/// At each status `out` took a prefix of the text. The journal is empty.
pub fn resume_run<R: Threads + Sync + AllocGlobal, H: Shelf, O: Sink, E: Sink, G: Gate>(
    rt: &R,
    words: &[String],
    shelf: &mut H,
    out: &mut O,
    err: &mut E,
    gate: &G,
) -> Outcome
    ensures headline { Headline commands (record {
      words = texts words.now;
      files = H.files shelf.old;
      failed = H.failed shelf.old;
      failed' = H.failed shelf.new;
      out = change_of O.written O.faults out.old out.new;
      err = change_of E.written E.faults err.old err.new;
      status = result.status;
      journal = result.journal;
    }) }

    // The shelf is not read for words of no command.
    ensures unread { resumed_by (texts words.now) ≡ None → shelf.new ≡ shelf.old }
{
    let alloc = rt.alloc();
    match read_halted(alloc, words, shelf) {
        Ok(halted) => go_on(rt, alloc, halted, out, err, gate),
        Err(refusal) => refused_outcome(alloc, refusal, err),
    }
}
