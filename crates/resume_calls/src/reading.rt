// What words ask to be gone on with, from the shelf.
ghost use Rattle.std.specs.Prelude.{◌≡◌, ◌≤◌, Some, None, IfOk, IfSome, length};
ghost use Rattle.gp_base.specs.declared.limits.TheConstants.{MOST_FILE_BYTES};
ghost use Rattle.command_line.specs.meaning.Words.{texts};
ghost use Rattle.command_line.specs.Words.{IsWithinLimits};
ghost use Rattle.command_line.specs.meaning.ResumeWords.{resumed_by};
ghost use Rattle.call_cases.specs.meaning.Case.{IsCase, IsCaseOf};
ghost use Rattle.call_cases.specs.Decided.{MayRun};
ghost use Rattle.call_cases.specs.Refusals.{AnswersCase, AnswersNoCommand, TouchesShelf};
ghost use Rattle.resume_calls.specs.meaning.ResumeCommands.{MayRead, asking};
ghost use Rattle.resume_calls.specs.inner.Halting.{MayGoOn, Reader, resumed_in, case_of};

use crate::halted::Halted;
use call_cases::{Reading, Refusal, read_asked, read_file};
use command_line::{Resumed, read_resume_words};
use gp_base::Shelf;
use std::alloc::Global;

// What the run reads, and then the text of its log. The first refusal met is the answer.
fn read_resumed<H: Shelf>(alloc: Global, resumed: Resumed, shelf: &mut H) -> Result<Halted, Refusal>
    requires { IsWithinLimits resumed.run }
    ensures shelf { TouchesShelf MayRead (Some resumed) (H.failed shelf.old) (H.failed shelf.new) result }
    ensures case { (reader : Reader) → IfSome (H.files shelf.old) (λ files. AnswersCase (case_of reader) (IsCaseOf asking resumed files) result) }
    ensures run { IfOk result (λ halted. MayRun halted.request) }
    ensures short { IfOk result (λ halted. length halted.text ≤ MOST_FILE_BYTES) }
    ensures resumed { IfOk result (λ halted. resumed_in halted ≡ resumed) }
{
    let Resumed { run, log } = resumed;
    let request = match read_asked(alloc, run, shelf, Reading::Once) {
        Ok(request) => request,
        Err(refusal) => return Err(refusal),
    };
    match read_file(alloc, shelf, &log) {
        Ok(text) => Ok(Halted { request, log, text }),
        Err(refusal) => Err(refusal),
    }
}

/// What the words ask to be gone on with, with all that the run reads and the text of its log. The first refusal met is
/// the answer.
pub fn read_halted<H: Shelf>(
    alloc: Global,
    words: &[String],
    shelf: &mut H,
) -> Result<Halted, Refusal>
    ensures no_command { resumed_by (texts words.now) ≡ None → AnswersNoCommand result }
    ensures unread { resumed_by (texts words.now) ≡ None → shelf.new ≡ shelf.old }
    ensures shelf { TouchesShelf MayRead (resumed_by (texts words.now)) (H.failed shelf.old) (H.failed shelf.new) result }
    ensures case { (reader : Reader) → IfSome (H.files shelf.old) (λ files. AnswersCase (case_of reader) (IsCase asking (texts words.now) files) result) }
    ensures may { IfOk result MayGoOn }
    ensures resumed { IfOk result (λ halted. resumed_by (texts words.now) ≡ Some (resumed_in halted)) }
{
    let resumed = match read_resume_words(alloc, words) {
        Ok(Some(resumed)) => resumed,
        Ok(None) => return Err(Refusal::Usage),
        Err(_) => return Err(Refusal::OutOfMemory),
    };
    read_resumed(alloc, resumed, shelf)
}
