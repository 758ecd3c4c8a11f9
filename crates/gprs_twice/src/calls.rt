// Does what words ask for by the top call that takes them, with each subthread walked twice.
ghost use Rattle.std.specs.Prelude.{◌≡◌, []};
ghost use Rattle.gp_base.specs.declared.journal.Journal.{Journal};
ghost use Rattle.command_line.specs.meaning.Words.{texts};
ghost use Rattle.call_cases.specs.meaning.Answers.{change_of};
ghost use Rattle.gprs_twice.specs.meaning.Promises.{logs, TwicePromised};

use command_line::begins_with;
use gp_base::{FreeGate, Seq, Shelf, Sink};
use std::thread::Threads;
use subthread::Flaw;
use twice_calls::{twice_log_run, twice_run};

/// Does what the words ask for, and answers the status: by the call that keeps a log where the first of them is `log`, and
/// else, also for words of no command, by the other. The machine has no flaw that is known.
pub fn status_by<R: Threads + Sync + AllocGlobal, H: Shelf, O: Sink, E: Sink>(
    rt: &R,
    words: &[String],
    shelf: &mut H,
    flaws: Seq<Flaw>,
    out: &mut O,
    err: &mut E,
) -> u8
    requires sound { flaws ≡ [] }
    ensures promised { (journal : Journal) × TwicePromised (logs (texts words.now)) (record {
      words = texts words.now;
      files = H.files shelf.old;
      failed = H.failed shelf.old;
      failed' = H.failed shelf.new;
      out = change_of O.written O.faults out.old out.new;
      err = change_of E.written E.faults err.old err.new;
      status = result;
      journal = journal;
    }) }
{
    if begins_with("log", words) {
        twice_log_run(rt, words, shelf, flaws, out, err, &FreeGate).status
    } else {
        twice_run(rt, words, shelf, flaws, out, err, &FreeGate).status
    }
}
