// The top call that keeps a log of its run.
ghost use Rattle.std.specs.Prelude.{◌≡◌, true, None, is_some, IfSome};
ghost use Rattle.command_line.specs.meaning.Words.{texts};
ghost use Rattle.command_line.specs.meaning.LogWords.{log_by};
ghost use Rattle.subthread.specs.meaning.Flaws.{Spares};
ghost use Rattle.call_cases.specs.meaning.Answers.{change_of};
ghost use Rattle.call_cases.specs.meaning.Headline.{Headline};
ghost use Rattle.batch_calls.specs.meaning.LogCommands.{commands};

use batch_calls::log_rechecked;
use call_cases::Outcome;
use gp_base::{Gate, Seq, Shelf, Sink};
use std::thread::Threads;
use subthread::{Flaw, Recheck};

/// Does what the words of `log` ask for, as `twice_log_run` does, with each subthread walked twice as the recheck says.
pub fn log_told<R: Threads + Sync + AllocGlobal, H: Shelf, O: Sink, E: Sink, G: Gate>(
    rt: &R,
    words: &[String],
    shelf: &mut H,
    recheck: Recheck,
    out: &mut O,
    err: &mut E,
    gate: &G,
) -> Outcome
    requires twice { is_some recheck ≡ true }
    requires spared { IfSome recheck Spares }
    ensures headline { Headline commands (record {
      words = texts words.now;
      files = H.files shelf.old;
      failed = H.failed shelf.old;
      failed' = H.failed shelf.new;
      out = change_of O.written O.faults out.old out.new;
      err = change_of E.written E.faults err.old err.new;
      status = result.status;
      journal = result.journal;
    }) }

    // The shelf is not read for words of no command.
    ensures unread { log_by (texts words.now) ≡ None → shelf.new ≡ shelf.old }
{
    log_rechecked(rt, words, shelf, recheck, out, err, gate)
}

/// Does what the words of `log` ask for, as `log_run` does, but walks each subthread twice and compares the walks before
/// anything is handed on; where they differ, a third walk must be like one of them. `err` takes what it takes there and
/// nothing more, since that is read as a log. Where the walks of a position could not be agreed on, or data were not as they
/// were left, the call stops as it does where memory is out. It does so on a machine with these flaws, as `twice_run` does.
pub fn twice_log_run<R: Threads + Sync + AllocGlobal, H: Shelf, O: Sink, E: Sink, G: Gate>(
    rt: &R,
    words: &[String],
    shelf: &mut H,
    flaws: Seq<Flaw>,
    out: &mut O,
    err: &mut E,
    gate: &G,
) -> Outcome
    requires spared { Spares flaws }
    ensures headline { Headline commands (record {
      words = texts words.now;
      files = H.files shelf.old;
      failed = H.failed shelf.old;
      failed' = H.failed shelf.new;
      out = change_of O.written O.faults out.old out.new;
      err = change_of E.written E.faults err.old err.new;
      status = result.status;
      journal = result.journal;
    }) }

    // The shelf is not read for words of no command.
    ensures unread { log_by (texts words.now) ≡ None → shelf.new ≡ shelf.old }
{
    log_told(rt, words, shelf, Recheck::erring(flaws), out, err, gate)
}
