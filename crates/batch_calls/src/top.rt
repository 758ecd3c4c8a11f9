// The top call: all that the program does.
ghost use Rattle.std.specs.Prelude.{◌≡◌};
ghost use Rattle.command_line.specs.meaning.Words.{texts};
ghost use Rattle.call_cases.specs.meaning.RunCommands.{commands};
ghost use Rattle.call_cases.specs.meaning.Answers.{change_of};
ghost use Rattle.call_cases.specs.meaning.Headline.{Headline, ReadsNothing};
ghost use Rattle.batch_calls.specs.meaning.RunTheorem.{RunsBatch};

use crate::crews::carry_out;
use call_cases::{Outcome, read_request, refused_outcome};
use gp_base::{Gate, Shelf, Sink};
use std::thread::Threads;
use subthread::Recheck;

/// Does what the words ask for, over what is handed in. The words are those after the program's name.
///
/// The status is 0 where the program ran to its end, or was checked and is accepted, 1 where memory ran out, 2 where
/// the words are those of no command, 3 where the program is refused, 4 where a file beside it is refused, 5 where the
/// run is stuck, 6 where a limit is spent, 7 where a file could not be read, and 8 where a write failed.
///
/// At 0, 5 and 6 `out` took the whole text, and `err` the trace, where one is asked for. At 2, 3, 4 and 7 `out` took
/// nothing, and `err` one line that tells why; at 8 `err` took such a line, unless it failed itself. At each status
/// `out` took a prefix of the text. The journal is that of the run, up to where it stopped; it is empty where none
/// began.
pub fn gprs_run<R: Threads + Sync + AllocGlobal, H: Shelf, O: Sink, E: Sink, G: Gate>(
    rt: &R,
    words: &[String],
    shelf: &mut H,
    out: &mut O,
    err: &mut E,
    gate: &G,
) -> Outcome
    ensures headline { Headline commands (record {
      words = texts words.now;
      files = H.files shelf.old;
      failed = H.failed shelf.old;
      failed' = H.failed shelf.new;
      out = change_of O.written O.faults out.old out.new;
      err = change_of E.written E.faults err.old err.new;
      status = result.status;
      journal = result.journal;
    }) }

    // What a run is asked for publishes, in plain words.
    ensures run { RunsBatch (record {
      words = texts words.now;
      files = H.files shelf.old;
      failed = H.failed shelf.old;
      failed' = H.failed shelf.new;
      out = change_of O.written O.faults out.old out.new;
      err = change_of E.written E.faults err.old err.new;
      status = result.status;
      journal = result.journal;
    }) }

    // The shelf is not read for words of no command, nor for a batch that the program makes itself.
    ensures unread { ReadsNothing commands (commands.asking.reading (texts words.now)) → shelf.new ≡ shelf.old }
{
    let alloc = rt.alloc();
    match read_request(alloc, words, shelf) {
        Ok(request) => carry_out(rt, alloc, request, Recheck::once(), out, err, gate).0,
        Err(refusal) => refused_outcome(alloc, refusal, err),
    }
}
