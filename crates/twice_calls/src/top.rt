// The top call: all that the program does, but for `log`.
ghost use Rattle.std.specs.Prelude.{◌≡◌, true, is_some, IfSome};
ghost use Rattle.command_line.specs.meaning.Words.{texts, asked_waiting};
ghost use Rattle.subthread.specs.meaning.Flaws.{Spares};
ghost use Rattle.call_cases.specs.meaning.Answers.{Change, change_of};
ghost use Rattle.call_cases.specs.meaning.Headline.{Headline, ReadsNothing};
ghost use Rattle.batch_calls.specs.meaning.WaitingCommands.{commands};
ghost use Rattle.twice_calls.specs.meaning.Differences.{traces, MayTellBehind};

use crate::lines::tell;
use batch_calls::run_rechecked;
use call_cases::Outcome;
use gp_base::{Gate, Seq, Shelf, Sink};
use std::thread::Threads;
use subthread::{Flaw, Recheck};

/// Does what the words ask for, as `twice_run` does, with each subthread walked twice as the recheck says, which comes back
/// with what was seen.
pub fn run_told<R: Threads + Sync + AllocGlobal, H: Shelf, O: Sink, E: Sink, G: Gate>(
    rt: &R,
    words: &[String],
    shelf: &mut H,
    recheck: Recheck,
    out: &mut O,
    err: &mut E,
    gate: &G,
) -> (Outcome, Recheck)
    requires twice { is_some recheck ≡ true }
    requires spared { IfSome recheck Spares }
    ensures headline { (due : Change)
        × MayTellBehind (traces (asked_waiting (texts words.now))) result.0.status due (change_of E.written E.faults err.old err.new)
        × Headline commands (record {
          words = texts words.now;
          files = H.files shelf.old;
          failed = H.failed shelf.old;
          failed' = H.failed shelf.new;
          out = change_of O.written O.faults out.old out.new;
          err = due;
          status = result.0.status;
          journal = result.0.journal;
        }) }

    // The shelf is not read for words of no command, nor for a batch that the program makes itself.
    ensures unread { ReadsNothing commands (asked_waiting (texts words.now)) → shelf.new ≡ shelf.old }
{
    let (outcome, recheck) = run_rechecked(rt, words, shelf, recheck, out, err, gate);
    tell(rt.alloc(), &recheck, words, outcome.status, err);
    (outcome, recheck)
}

/// Does what the words ask for, as `gprs_run_pipe` does, but walks each subthread twice and compares the walks before
/// anything is handed on; where they differ, a third walk must be like one of them. The words are those after the
/// program's name. In the place of lasting workers, which wait, workers draw from boards, and `one` walks twice too.
///
/// The status, and what `out` takes, are those of `gprs_run_pipe`. After what it takes there, `err` takes a line where
/// walks differed, unless a trace is asked for. Where the walks of a position could not be agreed on, or data that it is
/// lent, reads of a feed or tells were not as they were left, the call stops with status 1, and a line of that stands in
/// the place of that of memory that is out.
///
/// All of this holds on a machine with these flaws, as long as no two walks of one attempt err alike: that, two of three walks
/// can't tell. One that doesn't err has none.
pub fn twice_run<R: Threads + Sync + AllocGlobal, H: Shelf, O: Sink, E: Sink, G: Gate>(
    rt: &R,
    words: &[String],
    shelf: &mut H,
    flaws: Seq<Flaw>,
    out: &mut O,
    err: &mut E,
    gate: &G,
) -> Outcome
    requires spared { Spares flaws }
    ensures headline { (due : Change)
        × MayTellBehind (traces (asked_waiting (texts words.now))) result.status due (change_of E.written E.faults err.old err.new)
        × Headline commands (record {
          words = texts words.now;
          files = H.files shelf.old;
          failed = H.failed shelf.old;
          failed' = H.failed shelf.new;
          out = change_of O.written O.faults out.old out.new;
          err = due;
          status = result.status;
          journal = result.journal;
        }) }

    // The shelf is not read for words of no command, nor for a batch that the program makes itself.
    ensures unread { ReadsNothing commands (asked_waiting (texts words.now)) → shelf.new ≡ shelf.old }
{
    run_told(rt, words, shelf, Recheck::erring(flaws), out, err, gate).0
}
