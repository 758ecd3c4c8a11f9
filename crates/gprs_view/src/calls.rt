// Does what words ask for by the top call that takes them.
ghost use Rattle.command_line.specs.meaning.Words.{texts};
ghost use Rattle.call_cases.specs.meaning.Answers.{change_of, no_journal};
ghost use Rattle.explain_calls.specs.meaning.Commands.{is_explain};
ghost use Rattle.gprs_view.specs.meaning.Promises.{ViewPromise};

use explain_calls::{explain_run, is_explain};
use gp_base::{Shelf, Sink};
use std::alloc::Global;
use view_calls::view_run;

/// Does what the words ask for by the top call that takes them, and answers the status: that which explains where the
/// first word is `explain`, and else that which shows.
pub fn status_for<H: Shelf, O: Sink, E: Sink>(
    alloc: Global,
    words: &[String],
    shelf: &mut H,
    out: &mut O,
    err: &mut E,
) -> u8
    ensures { ViewPromise (is_explain (texts words.now)) (record {
      words = texts words.now;
      files = H.files shelf.old;
      failed = H.failed shelf.old;
      failed' = H.failed shelf.new;
      out = change_of O.written O.faults out.old out.new;
      err = change_of E.written E.faults err.old err.new;
      status = result;
      journal = no_journal;
    }) }
{
    if is_explain(words) {
        explain_run(alloc, words, shelf, out, err)
    } else {
        view_run(alloc, words, shelf, out, err)
    }
}
