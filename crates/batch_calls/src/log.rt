// The top call that keeps a log of its run.
ghost use Rattle.std.specs.Prelude.{◌≡◌, None, IfSome};
ghost use Rattle.command_line.specs.meaning.Words.{texts};
ghost use Rattle.command_line.specs.meaning.LogWords.{log_by};
ghost use Rattle.subthread.specs.meaning.Flaws.{Spares};
ghost use Rattle.call_cases.specs.meaning.Answers.{change_of};
ghost use Rattle.call_cases.specs.meaning.Headline.{Headline};
ghost use Rattle.batch_calls.specs.meaning.LogCommands.{commands};

use crate::crews::carry_out;
use crate::reading::{read_by, reading_under};
use call_cases::{Outcome, refused_outcome};
use command_line::read_log_words;
use gp_base::{Gate, Shelf, Sink};
use std::thread::Threads;
use subthread::Recheck;

/// Does what the words of `log` ask for, as `log_run` does, with each subthread walked as the recheck says.
pub fn log_rechecked<R: Threads + Sync + AllocGlobal, H: Shelf, O: Sink, E: Sink, G: Gate>(
    rt: &R,
    words: &[String],
    shelf: &mut H,
    recheck: Recheck,
    out: &mut O,
    err: &mut E,
    gate: &G,
) -> Outcome
    requires spared { IfSome recheck Spares }
    ensures headline { Headline commands (record {
      words = texts words.now;
      files = H.files shelf.old;
      failed = H.failed shelf.old;
      failed' = H.failed shelf.new;
      out = change_of O.written O.faults out.old out.new;
      err = change_of E.written E.faults err.old err.new;
      status = result.status;
      journal = result.journal;
    }) }

    // The shelf is not read for words of no command.
    ensures unread { log_by (texts words.now) ≡ None → shelf.new ≡ shelf.old }
{
    let alloc = rt.alloc();
    let reading = reading_under(&recheck);
    match read_by(alloc, read_log_words(alloc, words), shelf, reading) {
        Ok(request) => carry_out(rt, alloc, request, recheck, out, err, gate).0,
        Err(refusal) => refused_outcome(alloc, refusal, err),
    }
}

/// Runs the program that the words of `log` name, over what is handed in, as `gprs_run` runs one by `run`, and writes a
/// log of the run to `err` while it goes on: a row for each position once it has retired and its lines are written, in
/// order, with all that a later run needs to go on from it. The words are those after the program's name.
///
/// The status, and what `out` took at each status, are those that `gprs_run` has. At 0, 5 and 6 `err` took the whole
/// log. Where a run stops at 1 or 8, `err` has no line of that: it took the rows of what has retired, and of the last
/// of them maybe a part. Before a run begins, `err` takes the lines that it takes there. The journal is that of the
/// run, up to where it stopped.
pub fn log_run<R: Threads + Sync + AllocGlobal, H: Shelf, O: Sink, E: Sink, G: Gate>(
    rt: &R,
    words: &[String],
    shelf: &mut H,
    out: &mut O,
    err: &mut E,
    gate: &G,
) -> Outcome
    ensures headline { Headline commands (record {
      words = texts words.now;
      files = H.files shelf.old;
      failed = H.failed shelf.old;
      failed' = H.failed shelf.new;
      out = change_of O.written O.faults out.old out.new;
      err = change_of E.written E.faults err.old err.new;
      status = result.status;
      journal = result.journal;
    }) }

    // The shelf is not read for words of no command.
    ensures unread { log_by (texts words.now) ≡ None → shelf.new ≡ shelf.old }
{
    log_rechecked(rt, words, shelf, Recheck::once(), out, err, gate)
}
