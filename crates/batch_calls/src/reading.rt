// What words ask for, however they are read.
ghost use Rattle.std.specs.Prelude.{◌≡◌, ℕ, List, Option, is_some, IfOk, IfSome};
ghost use Rattle.std.specs.Bool.{Decides};
ghost use Rattle.call_cases.specs.declared.agreed.Reading.TheVariants as reading;
ghost use Rattle.command_line.specs.Words.{IsWithinLimits};
ghost use Rattle.command_line.specs.declared.asked.Asked.{Asked};
ghost use Rattle.call_cases.specs.Decided.{MayRun};
ghost use Rattle.batch_calls.specs.inner.Reading.{Answers};

use call_cases::{Reading, Refusal, Request, read_for};
use command_line::Asked;
use gp_base::Shelf;
use std::alloc::{AllocError, Global};
use subthread::{Disturbance, Recheck};

/// How files are read for a run under this recheck: once where its walks are made once, and else at least twice.
pub fn reading_under(recheck: &Recheck) -> Reading
    ensures { Decides (is_some recheck.now) (result ≡ reading.Once → ⊥) }
{
    if !recheck.is_on() {
        return Reading::Once;
    }
    let is_disturbed = recheck.disturbs(Disturbance::Reading);
    match (is_disturbed, recheck.disturbs(Disturbance::Reading)) {
        (false, _) => Reading::Twice,
        (true, false) => Reading::Disturbed(1),
        (true, true) => Reading::Disturbed(2),
    }
}

/// What words ask for that were read to this, with the program that they name and the files that the program names, or
/// with the files that the program makes itself, each read so often. The first refusal met is the answer.
pub fn read_by<H: Shelf>(
    alloc: Global,
    read: Result<Option<Asked>, AllocError>,
    shelf: &mut H,
    reading: Reading,
) -> Result<Request, Refusal>
    requires { IfOk read (λ asked. IfSome asked IsWithinLimits) }
    ensures sound { IfOk result MayRun }
    ensures answers { (reading : List (List ℕ) → Option Asked) (words : List (List ℕ)) → IfOk read (λ asked. asked ≡ reading words) →
        Answers reading words (H.files shelf.old) (H.failed shelf.old) (H.failed shelf.new) (shelf.new ≡ shelf.old) result }
{
    match read {
        Ok(Some(asked)) => read_for(alloc, asked, shelf, reading),
        Ok(None) => Err(Refusal::Usage),
        Err(_) => Err(Refusal::OutOfMemory),
    }
}
