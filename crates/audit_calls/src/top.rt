// The top call: all that `audit` does.
ghost use Rattle.std.specs.Prelude.{◌≡◌, None};
ghost use Rattle.command_line.specs.meaning.Words.{texts};
ghost use Rattle.command_line.specs.meaning.AuditWords.{audited_by};
ghost use Rattle.call_cases.specs.meaning.Answers.{change_of};
ghost use Rattle.call_cases.specs.meaning.Headline.{Headline};
ghost use Rattle.audit_calls.specs.meaning.AuditCommands.{commands};

use crate::reading::read_trial;
use crate::verdict::put_verdict;
use call_cases::{Outcome, plain_outcome, refused_outcome};
use gp_base::{Gate, Shelf, Sink};

/// Audits the trace that the words name, as that of a run of the program that they name, over what is handed in. The
/// words are those after the program's name. Nothing is run but the plain run, so the gate is not entered.
///
/// The status is 0 where the lines of the trace are those of a whole lawful run, 9 where the first of them are those of
/// none, and 10 where they are those of a run that has not ended. 1 to 4, 7 and 8 are as for `gprs_run`; 4 also tells
/// that the file of the trace is refused, at its first row that is no line of a trace. That file is read last.
///
/// At 0, 9 and 10 `out` took the line that tells the verdict, and `err` nothing. At 2, 3, 4 and 7 `out` took nothing,
/// and `err` one line that tells why; at 8 `err` took such a line, unless it failed itself. At each status `out` took a
/// prefix of the line. The journal is empty.
pub fn audit_run<R: AllocGlobal, H: Shelf, O: Sink, E: Sink, G: Gate>(
    rt: &R,
    words: &[String],
    shelf: &mut H,
    out: &mut O,
    err: &mut E,
    _gate: &G,
) -> Outcome
    ensures headline { Headline commands (record {
      words = texts words.now;
      files = H.files shelf.old;
      failed = H.failed shelf.old;
      failed' = H.failed shelf.new;
      out = change_of O.written O.faults out.old out.new;
      err = change_of E.written E.faults err.old err.new;
      status = result.status;
      journal = result.journal;
    }) }

    // The shelf is not read for words of no command.
    ensures unread { audited_by (texts words.now) ≡ None → shelf.new ≡ shelf.old }
{
    let alloc = rt.alloc();
    match read_trial(alloc, words, shelf) {
        Ok(trial) => {
            let put = put_verdict(alloc, &trial, out);
            plain_outcome(alloc, put, err)
        }
        Err(refusal) => refused_outcome(alloc, refusal, err),
    }
}
