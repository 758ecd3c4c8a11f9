// The code of a program, and what a run of it begins with.
ghost use Rattle.std.specs.Prelude.{◌≡◌, IfOk};
ghost use Rattle.call_cases.specs.Decided.{IsSound, program_in};
ghost use Rattle.resume_calls.specs.inner.Resting.{IsPlanOf};

use call_cases::{Request, copied_feeds};
use gp_resume::Opening;
use lock_checker::Checked;
use std::alloc::{AllocError, Global};
use subthread::{Recheck, Work};
use task_code::lower;

/// A run that may begin, beside its program as code: the accepted program, and what the run begins with.
#[derive(Drop)]
pub struct OpenedRun {
    pub checked: Checked,
    pub opening: Opening,
}

/// The code of a request's program, and the plan of its run. The error is that memory is out.
pub fn plan_of(alloc: Global, request: Request) -> Result<(Work, OpenedRun), AllocError>
    requires { IsSound request.asked (program_in request) request.inputs }
    ensures plan { IfOk result (λ made. IsPlanOf made.0 made.1) }
    ensures checked { IfOk result (λ made. made.1.checked ≡ request.checked) }
    ensures inputs { IfOk result (λ made. made.1.opening.inputs ≡ request.inputs) }
    ensures limits { IfOk result (λ made. made.1.opening.limits ≡ request.asked.limits) }
{
    let Request {
        asked,
        checked,
        inputs,
        faults: _,
    } = request;
    let code = lower(alloc, &checked)?;
    let layout = checked.layout(alloc)?;
    let feeds = copied_feeds(alloc, inputs.feeds.as_slice())?;
    let limits = asked.limits;
    let work = Work {
        code,
        feeds,
        turns: limits.turns,
        recheck: Recheck::once(),
    };
    let opening = Opening {
        layout,
        inputs,
        limits,
    };
    let plan = OpenedRun { checked, opening };
    Ok((work, plan))
}
