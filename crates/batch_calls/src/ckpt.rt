// The top call that runs by checkpoints.
ghost use Rattle.std.specs.Prelude.{◌≡◌, None};
ghost use Rattle.command_line.specs.meaning.Words.{texts};
ghost use Rattle.command_line.specs.meaning.CkptWords.{ckpt_by};
ghost use Rattle.call_cases.specs.meaning.Answers.{change_of};
ghost use Rattle.call_cases.specs.meaning.Headline.{Headline};
ghost use Rattle.batch_calls.specs.meaning.CkptCommands.{commands};

use crate::crews::carry_out;
use crate::reading::read_by;
use call_cases::{Outcome, Reading, refused_outcome};
use command_line::read_ckpt_words;
use gp_base::{Gate, Shelf, Sink};
use std::thread::Threads;
use subthread::Recheck;

/// Runs the program that the words of `ckpt` name, over what is handed in, as `gprs_run` runs one by `run`, but by
/// checkpoints: a fault rolls back all from the checkpoint on that comes before what it strikes. So the text has the
/// rollbacks in place of the restarts, with the same printed lines, the same end and the same records. The words are
/// those after the program's name.
///
/// The status, and what `out` and `err` took at each status, are those that `gprs_run` has; no trace is written. The
/// journal is that of the run, up to where it stopped.
pub fn ckpt_run<R: Threads + Sync + AllocGlobal, H: Shelf, O: Sink, E: Sink, G: Gate>(
    rt: &R,
    words: &[String],
    shelf: &mut H,
    out: &mut O,
    err: &mut E,
    gate: &G,
) -> Outcome
    ensures headline { Headline commands (record {
      words = texts words.now;
      files = H.files shelf.old;
      failed = H.failed shelf.old;
      failed' = H.failed shelf.new;
      out = change_of O.written O.faults out.old out.new;
      err = change_of E.written E.faults err.old err.new;
      status = result.status;
      journal = result.journal;
    }) }

    // The shelf is not read for words of no command.
    ensures unread { ckpt_by (texts words.now) ≡ None → shelf.new ≡ shelf.old }
{
    let alloc = rt.alloc();
    match read_by(alloc, read_ckpt_words(alloc, words), shelf, Reading::Once) {
        Ok(request) => carry_out(rt, alloc, request, Recheck::once(), out, err, gate).0,
        Err(refusal) => refused_outcome(alloc, refusal, err),
    }
}
