// What a run is made of, before a crew takes it.
ghost use Rattle.std.specs.Prelude.{IfOk, IfSome};
ghost use Rattle.gp_base.specs.Files.{HasDistinctNames};
ghost use Rattle.subthread.specs.Tasks.{Suits};
ghost use Rattle.subthread.specs.meaning.Flaws.{Spares};

use batch_calls::plan::{Begins, plan_of};
use batch_fixtures::files::words_of;
use call_cases::{read_request, runs};
use gp_base::{MemShelf, Name, Seq, Text};
use std::alloc::{AllocError, Global};
use subthread::{Recheck, Work};

/// The code of the run that the words ask for over these files, and what it begins with; none where they are refused, or
/// ask for no run. The error is that memory is out.
pub fn planned(
    alloc: Global,
    words: &str,
    files: Seq<(Name, Text)>,
    recheck: Recheck,
) -> Result<Option<(Work, Begins)>, AllocError>
    requires names { HasDistinctNames files }
    requires spared { IfSome recheck Spares }
    ensures { IfOk result (λ made. IfSome made (λ plan. Suits plan.0 plan.1.layout plan.1.inputs plan.1.limits)) }
{
    let words = words_of(alloc, words)?;
    let mut shelf = MemShelf::new(alloc, files, Seq::new(alloc));
    let read = read_request(alloc, &words, &mut shelf);
    drop(words);
    drop(shelf);
    let request = match read {
        Ok(request) => request,
        Err(refusal) => {
            drop(refusal);
            return Ok(None);
        }
    };
    if !runs(request.asked.command) {
        drop(request);
        return Ok(None);
    }
    let (work, _plan, begins) = plan_of(alloc, request, recheck)?;
    Ok(Some((work, begins)))
}
