// Runs over a journal before they begin: the code of a program, and what its run begins with.
ghost use Rattle.std.specs.Prelude.{◌≡◌, IfOk, IfSome};
ghost use Rattle.task_ast.specs.View.{plain_program};
ghost use Rattle.lock_checker.specs.Accepted.{program_of};
ghost use Rattle.call_cases.specs.Decided.{IsSound, work_of};
ghost use Rattle.command_line.specs.Words.{IsWithinRanges};
ghost use Rattle.subthread.specs.Tasks.{program_in};
ghost use Rattle.subthread.specs.meaning.Flaws.{Spares};
ghost use Rattle.task_ast.specs.meaning.Layout.{layout};
ghost use Rattle.task_code.specs.Flat.{code_of};
ghost use Rattle.task_code.specs.Jumps.{IsCode};
ghost use Rattle.whole_run.specs.Recovering.{HasCuts};
ghost use Rattle.batch_calls.specs.inner.Planned.{IsPlanned, recovery_of, work_planned};

use call_cases::{Request, copied_feeds};
use command_line::{Asked, Command};
use gp_base::{Faults, Feed, Inputs, Limits};
use lock_checker::Checked;
use std::alloc::{AllocError, Global};
use subthread::{Recheck, Work};
use task_ast::Layout;
use task_code::lower;
use whole_run::Recovery;

/// How a run recovers from faults, and what it begins with, beside its program as code.
#[derive(Drop)]
pub struct Begins {
    pub recovery: Recovery,
    pub layout: Layout,
    pub inputs: Inputs,
    pub faults: Faults,
    pub limits: Limits,
}

/// What is asked for a run that may begin, and its accepted program.
#[derive(Drop)]
pub struct AskedRun {
    pub asked: Asked,
    pub checked: Checked,
}

// How the run of a command recovers from faults.
fn recovery_of(command: Command) -> Recovery
    ensures recovery { result ≡ recovery_of command }
    ensures cuts { IsWithinRanges command → HasCuts result }
{
    match command {
        Command::Ckpt(every) => Recovery::Rollback(every),
        _ => Recovery::Selective,
    }
}

// What runs a program: its code, with copies of the feeds, the turns that a subthread may take, and the recheck that its
// subthreads are walked under, which keeps sums over the feeds as they came; and the layout of its cells. The error is
// that memory is out.
fn work_and_layout(
    alloc: Global,
    checked: &Checked,
    feeds: &[Feed],
    turns: u64,
    recheck: Recheck,
) -> Result<(Work, Layout), AllocError>
    requires spared { IfSome recheck Spares }
    ensures code { IfOk result (λ made. IsCode (code_of made.0.code)) }
    ensures program { IfOk result (λ made. program_in made.0 ≡ plain_program (program_of checked.now)) }
    ensures feeds { IfOk result (λ made. made.0.feeds ≡ feeds.now) }
    ensures turns { IfOk result (λ made. made.0.turns ≡ turns) }
    ensures spared { IfOk result (λ made. IfSome made.0.recheck Spares) }
    ensures layout { IfOk result (λ made. made.1 ≡ layout (program_of checked.now).heads) }
{
    let mut recheck = recheck;
    recheck.keep_feeds(alloc, feeds)?;
    let layout = checked.layout(alloc)?;
    let feeds = copied_feeds(alloc, feeds)?;
    let code = lower(alloc, checked)?;
    let work = Work {
        code,
        feeds,
        turns,
        recheck,
    };
    Ok((work, layout))
}

/// The code of a request's program, whose subthreads are walked under this recheck, the plan of its run, and what that
/// begins with. The error is that memory is out.
pub fn plan_of(
    alloc: Global,
    request: Request,
    recheck: Recheck,
) -> Result<(Work, AskedRun, Begins), AllocError>
    requires sound { IsSound request.asked (plain_program (program_of request.checked)) request.inputs }
    requires spared { IfSome recheck Spares }
    ensures plan { IfOk result (λ made. IsPlanned made.1 made.0 made.2) }
    ensures work { IfOk result (λ made. work_planned made.1 made.2 ≡ work_of request) }
    ensures asked { IfOk result (λ made. made.1.asked ≡ request.asked) }
{
    let limits = request.asked.limits;
    let feeds = request.inputs.feeds.as_slice();
    let (work, layout) = match work_and_layout(
        alloc,
        &request.checked,
        feeds,
        limits.turns,
        recheck,
    ) {
        Ok(made) => made,
        Err(refused) => {
            drop(request);
            return Err(refused);
        }
    };
    let Request {
        asked,
        checked,
        inputs,
        faults,
    } = request;
    let begins = Begins {
        recovery: recovery_of(asked.command),
        layout,
        inputs,
        faults,
        limits,
    };
    Ok((work, AskedRun { asked, checked }, begins))
}
